// What a carrier has in its hand, whom it helps, what it asks for, and what comes of it.
use k_context::Context;
use k_ids::{Reply, ThreadId};
use k_locks::{Answer, Lock, Step};
use k_switch::Switched;

/// A context in a carrier's hand, by its number: in a table of N numbers, 0 to N - 1 of the threads, and N + c of carrier c.
#[derive(Drop)]
pub struct Hand {
    pub context: u8,
    pub value: Context,
}

/// A context that a carrier helps: it makes the context's steps until the context has released this lock, or any where none is
/// named (Hohmuth and Härtig, *Pragmatic Nonblocking Synchronization for Real-Time Systems*).
#[derive(Clone, Copy, Debug, PartialEq, Eq)]
pub struct Help {
    pub context: u8,
    pub lock: Option<Lock>,
}

/// One atomic step of a carrier.
#[derive(Drop)]
pub enum Move {
    /// A step of the context in its hand.
    Section(Step),
    /// A load of the word of this context.
    Look(u8),
    /// A compare-exchange of the word of this context. Where it is won, the context leaves its slot and comes along.
    TakeContext {
        context: u8,
        old: u64,
        new: u64,
    },
    /// A store to the word of this context. The context goes into its slot.
    GiveContext {
        context: u8,
        new: u64,
        value: Context,
    },
}

/// What came of a move.
#[derive(Drop)]
pub enum SeenAnswer {
    /// Of a step of the context in its hand.
    Section(Answer),
    /// The word was this.
    Looked(u64),
    /// The word was as expected, and this is the context.
    Took(Context),
    /// The word wasn't as expected, but this.
    TakeLost(u64),
    /// The context is in its slot.
    Given,
}

/// What is told of a move.
#[derive(Clone, Copy, Debug, PartialEq, Eq)]
pub enum Stepped {
    On,
    /// The context in hand needs this lock, which that context owns.
    Blocked {
        lock: Lock,
        owner: u8,
    },
    /// The context in hand is to remove this context, which holds a lock.
    BlockedBy {
        context: u8,
    },
    /// Another carrier has the context in its hand.
    Missed {
        context: u8,
        holder: u8,
    },
    /// The goal has fallen asleep, or its program is over.
    Left,
    /// A switch has found no thread to run, and no carrier was counted as running one.
    Idle,
    /// A call of this thread is over, and this is the reply to it.
    Replied {
        id: ThreadId,
        serial: u32,
        reply: Reply,
    },
}

/// What the move that was asked for waits for.
#[derive(Clone, Copy, Debug, PartialEq, Eq)]
pub enum Awaits {
    Nothing,
    /// The answer to a step of the context in hand, and the lock that the step acquires.
    Step(Option<Lock>),
    Look,
    Take,
    /// That the context which was in hand is in its slot.
    Give {
        /// What its switch had come to, where it was the carrier's own and had finished one.
        switched: Option<Switched>,
        /// It was the helped context, and has released what it was helped for.
        released: bool,
    },
}
