// The events of a history, and the replies that come of them.
use crate::calls::{Act, Outcome, Reply};
use crate::threads::{Found, ThreadId};

/// Something that a thread does. A history is a sequence of these with their outcomes, one at a time (Herlihy and Wing,
/// *Linearizability*).
#[derive(Clone, Copy, Debug, PartialEq, Eq)]
pub struct Event {
    pub who: ThreadId,
    /// Of a call: its own number among the calls of its thread, from 1. Of another event: that of the thread's last call.
    pub serial: u32,
    pub act: Act,
}

/// An event with its outcome.
#[derive(Clone, Copy, Debug, PartialEq, Eq)]
pub struct Entry {
    pub event: Event,
    pub outcome: Outcome,
}

/// The reply to one call of a thread.
#[derive(Clone, Copy, Debug, PartialEq, Eq)]
pub struct ReplyLine {
    pub id: ThreadId,
    /// The call's serial number, from 1.
    pub serial: u32,
    pub reply: Reply,
}

/// Why an event can't be made: what its thread's number shows, and the last serial of the thread shown, 0 where it has made
/// no call.
#[derive(Clone, Copy, Debug, PartialEq, Eq)]
pub struct Unlawful {
    pub found: Found,
    pub serial: u32,
}
