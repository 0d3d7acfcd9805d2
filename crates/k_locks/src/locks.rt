// The locks and their ranks, and the words of the kernel.
ghost use Rattle.std.specs.Prelude.{◌≡◌};
ghost use Rattle.k_locks.specs.Locks.{rank_of};

/// A lock of the kernel.
#[derive(Clone, Copy, Debug, PartialEq, Eq)]
pub enum Lock {
    /// It guards the list of thread numbers.
    Table,
    /// That of this thread number, 0 to 63. It guards the queue of those who wait to send to the thread.
    Thread(u8),
    /// It guards the ready lists.
    Ready,
}

/// A word of the kernel, by its name.
#[derive(Clone, Copy, Debug, PartialEq, Eq)]
pub enum WordName {
    /// The state word of this thread number, 0 to 63.
    State(u8),
    /// Its mail word.
    Mail(u8),
    /// The word of a lock.
    Lock(Lock),
    /// The word of this context: in a table of N numbers, 0 to N - 1 of the threads, and N + c of carrier c.
    Context(u8),
}

/// The rank of a lock: 0, 1 or 2. Who holds a lock asks only for locks of a higher rank.
pub fn rank(lock: Lock) -> u8
    ensures { result ≡ rank_of lock }
{
    match lock {
        Lock::Table => 0,
        Lock::Thread(_) => 1,
        Lock::Ready => 2,
    }
}
