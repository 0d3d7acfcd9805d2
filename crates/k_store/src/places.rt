// Where words, guarded data and contexts stand among others of their kind.
ghost use Rattle.std.specs.Prelude.{◌≡◌};
ghost use Rattle.k_locks.specs.Places.{home_of, index_of, lock_number, slot_of};

use k_locks::{Lock, WordName};

/// The number of the table lock.
const TABLE: u8 = 72;

/// The number of the ready lock.
const READY: u8 = 73;

// The number of a lock: those of threads first.
fn lock_number(lock: Lock) -> u8
    ensures { result ≡ lock_number lock }
{
    match lock {
        Lock::Thread(number) => number,
        Lock::Table => TABLE,
        Lock::Ready => READY,
    }
}

/// The index of a word.
pub(crate) fn index_of(word: WordName) -> usize
    ensures { result ≡ index_of word }
{
    match word {
        WordName::State(number) => 4 * usize::from(number),
        WordName::Mail(number) => 4 * usize::from(number) + 1,
        WordName::Lock(lock) => 4 * usize::from(lock_number(lock)) + 2,
        WordName::Context(number) => 4 * usize::from(number) + 3,
    }
}

/// The slot of what a lock guards.
pub(crate) fn home_of(lock: Lock) -> usize
    ensures { result ≡ home_of lock }
{
    2 * usize::from(lock_number(lock))
}

/// The slot of a context.
pub(crate) fn slot_of(context: u8) -> usize
    ensures { result ≡ slot_of context }
{
    2 * usize::from(context) + 1
}
