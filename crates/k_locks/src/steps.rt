// A step of a critical section on one word, and its answer.
ghost use Rattle.std.specs.Prelude.{◌≡◌};
ghost use Rattle.k_locks.specs.Steps.{is_again, is_again_told, one_more};

use crate::goods::Goods;
use crate::locks::{Lock, WordName};
use k_ids::{Reply, ThreadId};

/// One atomic step: one load, one store or one compare-exchange on one word.
#[derive(Drop)]
pub enum Step {
    /// A load.
    Load(WordName),
    /// A store.
    Store {
        word: WordName,
        value: u64,
    },
    /// A compare-exchange: where the word is `old`, it becomes `new`.
    Exchange {
        word: WordName,
        old: u64,
        new: u64,
    },
    /// A compare-exchange of the lock word from free to owned by the context that runs.
    Acquire(Lock),
    /// A store of free to the lock word. What the lock guards goes back.
    Release {
        lock: Lock,
        goods: Goods,
    },
    /// A compare-exchange of the context word of the thread's number from empty to clean, of the thread's version. A new
    /// context for the thread is put there, with its program and its priority.
    Place {
        id: ThreadId,
        program: u8,
        priority: u8,
    },
    /// A compare-exchange of the context word of the thread's number from clean, of the thread's version, to empty. The
    /// context is dropped.
    Remove {
        id: ThreadId,
    },
}

/// What came of a step: goods, where a lock was got, or else what is told.
#[derive(Drop)]
pub enum Answer {
    /// The lock was free, and is now owned. This is what it guards.
    Got(Goods),
    Told(Told),
}

/// What is told of a step.
#[derive(Clone, Copy, Debug, PartialEq, Eq)]
pub enum Told {
    /// The word was this.
    Loaded(u64),
    Stored,
    Won,
    /// The word wasn't the expected one, but this.
    Lost { found: u64 },
    /// This context owns the lock. Nothing has changed.
    Owned { owner: u8 },
    Released,
    Placed,
    Removed,
    /// This context holds locks and can't be removed. Nothing has changed.
    Holds { context: u8 },
    /// This carrier has the context in its hand. Nothing has changed.
    Taken { context: u8, carrier: u8 },
}

impl Answer {
    /// Whether the section has to ask for the same step again: a lock is owned, or a context can't be removed yet.
    pub fn is_again(&self) -> bool
        ensures { result ≡ is_again self.now }
    {
        match self {
            Answer::Got(_) => false,
            Answer::Told(told) => told.is_again(),
        }
    }
}

impl Told {
    /// Whether the section has to ask for the same step again.
    pub fn is_again(self) -> bool
        ensures { result ≡ is_again_told self }
    {
        matches!(
            self,
            Told::Owned { .. } | Told::Holds { .. } | Told::Taken { .. }
        )
    }
}

/// One step more. The count stays at the end of its type.
pub fn one_more(count: u32) -> u32
    ensures { result ≡ one_more count }
{
    count.saturating_add(1)
}

/// How a section goes on.
#[derive(Clone, Copy, Debug, PartialEq, Eq)]
pub enum Went {
    /// It has a next step.
    On,
    /// A lock is owned, or a context can't be removed yet: the section asks for the same step again.
    Again,
    /// A thread of this priority was put into the ready lists. The section has a next step.
    Pushed { priority: u8 },
    /// The section is over, and the caller waits.
    Waits,
    /// The section is over, and this is the call's reply.
    Ends(Reply),
    /// The section is over. The caller was destroyed.
    CallerDead,
    /// The reply's message has passed: the section is over, and the caller picks its next sender.
    Picks,
}
