// Why an input was not read.

/// Why a source was not read to its end.
#[derive(Clone, Copy, Debug, PartialEq, Eq)]
pub enum InputFault {
    /// It failed.
    Source,
    /// It has more bytes than it may have.
    TooLarge,
    NoMemory,
}
