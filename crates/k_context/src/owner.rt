// Whose a context is.
use k_ids::ThreadId;

/// Whose a context is.
#[derive(Clone, Copy, Debug, PartialEq, Eq)]
pub enum Owner {
    /// A thread's, which makes the calls of its program.
    Thread(ThreadId),
    /// A carrier's own, for its switches: 0 to 7.
    Carrier(u8),
}
