// What a call comes to, before its text is put.
use crate::exit::Exit;
use k_dispatch::RunEnd;
use k_script::Script;

/// A script, and what its run leaves.
#[derive(Drop)]
pub(crate) struct Ran {
    pub script: Script,
    pub end: RunEnd,
}

/// What is due: the text of a call that is done, or a status with its own text.
#[derive(Drop)]
pub(crate) enum Due {
    /// The report of a run.
    Report(Ran),
    /// The history is legal, and has so many events.
    Legal(u32),
    /// The totals of the run of the large script of this number.
    Summary(u64, RunEnd),
    /// A status: neither `Done` nor `WriteFault`.
    Status(Exit),
}
