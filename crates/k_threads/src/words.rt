// State words as a section reads and writes them, and the count of its steps.
ghost use Rattle.std.specs.Prelude.{◌≡◌, ◌<◌, ◌≤◌, ◌^◌, true};
ghost use Rattle.k_ids.specs.StateWords.{IsStateWord, state_bits};
ghost use Rattle.k_locks.specs.declared.steps.Answer.TheVariants as answer;
ghost use Rattle.k_locks.specs.Threads.{IsThread};
ghost use Rattle.k_threads.specs.Went.{went_on};
ghost use Rattle.k_threads.specs.Words.{created_word, dead_word, done_after, freed_word, is_receiving_from};

use k_ids::{Result4, State, StateWord, ThreadId};
use k_locks::{Answer, Told, Went, is_same, one_more};

/// Whether the thread of this word waits for a message from this one alone.
pub fn is_receiving_from(who: ThreadId, word: &StateWord) -> bool
    ensures receiving { result ≡ is_receiving_from who word.now.state }
    ensures thread { result ≡ true → IsStateWord word.now → IsThread word.now }
{
    match word.state {
        State::Receiving { from: Some(id) } => is_same(id, who),
        _ => false,
    }
}

/// The spelling of a number's word once its thread of this version was destroyed.
pub fn dead_bits(version: u32) -> u64
    requires { version < 2 ^ 20 }
    ensures { result ≡ state_bits (dead_word version) }
{
    StateWord::dead(version).bits()
}

/// The spelling of a new thread's word.
pub fn created_bits(version: u32, priority: u8) -> u64
    requires born { 1 ≤ version }
    requires version { version < 2 ^ 20 }
    requires priority { priority < 64 }
    ensures { result ≡ state_bits (created_word version priority) }
{
    StateWord::created(version, priority).bits()
}

/// The spelling of a thread's word once it was freed, since the one that it waited for is gone.
pub fn freed_bits(word: &StateWord) -> u64
    requires { IsThread word.now }
    ensures { result ≡ state_bits (freed_word word.now) }
{
    word.woken(Result4::Gone).bits()
}

/// How a section goes on where its location says nothing else.
pub fn went_on(told: Told) -> Went
    ensures { result ≡ went_on (answer.Told told) }
{
    if told.is_again() {
        Went::Again
    } else {
        Went::On
    }
}

/// The count of a section's steps, after this answer.
pub fn done_after(answer: &Answer, done: u32) -> u32
    ensures { result ≡ done_after answer.now done }
{
    if answer.is_again() {
        done
    } else {
        one_more(done)
    }
}
