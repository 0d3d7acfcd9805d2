// What comes of a step of a context.
use k_ids::Reply;

/// What came of a step of a context.
#[derive(Clone, Copy, Debug, PartialEq, Eq)]
pub enum Ran {
    /// It has a next step, or a next call.
    On,
    /// A lock is owned, or a context can't be removed yet: it asks for the same step again.
    Again,
    /// A thread of this priority was put into the ready lists.
    Pushed { priority: u8 },
    /// Its thread has fallen asleep, or its program is over.
    Left,
    /// Its thread was destroyed.
    Dead,
    /// Its call is over, and this is the reply to it.
    Replied { serial: u32, reply: Reply },
}
