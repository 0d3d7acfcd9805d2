// Why an input is no script.
use thiserror::Error;

/// What is wrong with a line: of the reasons that apply the first in the order Word, Order, Nest, Number, Unknown, Table,
/// Many. The first line with words has no other reason than Version.
#[derive(Clone, Copy, Debug, PartialEq, Eq, Error)]
pub enum Why {
    #[error("a script begins with the line 'kernel 1' or 'kernel 2'")]
    Version,
    /// Its first word begins no line, a word has no form of its place, the count of words is wrong, or a byte is bad.
    #[error("its words are no line of a script")]
    Word,
    /// It stands where it may not, or it repeats what comes once.
    #[error("this line may not stand here")]
    Order,
    /// An again has no repeat, a repeat is a fifth level, or an end stands within a repeat.
    #[error("a repeat or a program is not closed as it was opened")]
    Nest,
    /// A number has a leading zero or is out of range.
    #[error("a number is out of range")]
    Number,
    #[error("it names no earlier program")]
    Unknown,
    /// It names no number of the table, no carrier, or no thread that may be there.
    #[error("it names no number of the table")]
    Table,
    #[error("there are too many lines or items of its kind")]
    Many,
}

/// Why an input is no script.
#[derive(Clone, Copy, Debug, PartialEq, Eq, Error)]
pub enum ScriptFault {
    #[error("the script has more than 1048576 bytes")]
    TooLarge,
    /// The first bad line, counted from 1. What is missing at the end of the input is bad at the line behind the last.
    #[error("line {line} of the script is bad: {why}")]
    Line { line: u32, why: Why },
    /// The threads may make more than 4,000,000 steps.
    #[error("the script may take {steps} steps, and at most 4000000 are allowed")]
    TooLong { steps: u64 },
    #[error("there is no memory for the script")]
    NoMemory,
}
