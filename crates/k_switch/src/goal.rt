// Who is to go on, and what a switch chooses.
use k_ids::ThreadId;

/// A thread to which a carrier was switched, with the priority that it had then.
#[derive(Clone, Copy, Debug, PartialEq, Eq)]
pub struct Goal {
    pub id: ThreadId,
    /// 0 to 63, of which 63 is the highest.
    pub priority: u8,
}

/// What a switch has come to.
#[derive(Clone, Copy, Debug, PartialEq, Eq)]
pub struct Switched {
    /// The thread that goes on: the first of the highest ready list that wasn't empty.
    pub goal: Option<Goal>,
    /// All ready lists were empty, and no carrier was counted as running one of their threads.
    pub idle: bool,
}
