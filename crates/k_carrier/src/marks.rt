// The marks of steps, and of waits for locks and contexts.
use k_context::Owner;
use k_locks::Lock;

/// A step of a thread's call, or of a carrier's switch.
#[derive(Clone, Copy, Debug, PartialEq, Eq)]
pub struct StepMark {
    pub owner: Owner,
    /// Of the owner's call, or of its switch, from 1.
    pub serial: u32,
    /// Of the step in this call or switch, from 0.
    pub number: u32,
    /// For whom it was made: the goal of the carrier that made it, or that carrier where it was switching.
    pub runner: Owner,
}

/// What has to be waited for.
#[derive(Clone, Copy, Debug, PartialEq, Eq)]
pub enum Want {
    /// That a lock is free.
    Lock(Lock),
    /// That the context of this number holds no lock, so that it can be removed.
    Context(u8),
}

/// A wait, from the step that found what it needs owned until the step that got it, or until the wait was broken off.
#[derive(Clone, Copy, Debug, PartialEq, Eq)]
pub struct WaitMark {
    pub requester: Owner,
    /// Of the requester's call or switch.
    pub serial: u32,
    pub wants: Want,
    /// Whether it was got.
    pub got: bool,
    /// The most steps that the wait may take: the sum of what its links have left.
    pub allowed: u32,
    /// The marked steps that the carrier made in the wait. The count stays at the end of its type.
    pub used: u32,
    /// The index of its first link.
    pub first: u64,
    /// How many links it has.
    pub count: u32,
}

/// An owner that was found in a wait.
#[derive(Clone, Copy, Debug, PartialEq, Eq)]
pub struct Link {
    /// The index of the wait's mark.
    pub mark: u64,
    pub owner: Owner,
    /// Of the owner's call or switch.
    pub serial: u32,
    /// What it holds up.
    pub wants: Want,
    /// How many steps it had left then until the lock's release, that release included.
    pub left: u32,
}
