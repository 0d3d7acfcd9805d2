// State words as steps load them, and what they show.
ghost use Rattle.std.specs.Prelude.{◌≡◌};
ghost use Rattle.k_ids.specs.StateWords.{IsStateSpelling, IsStateWord, state_word_of};
ghost use Rattle.k_model.specs.State.{takes_from};
ghost use Rattle.k_locks.specs.Shown.{found_in, is_dead, is_present_in, shows};

use crate::threads::admits;
use k_ids::{Found, State, StateWord, Status, ThreadId};

/// The state word that a step has loaded. The bits must spell one.
pub fn state_word(bits: u64) -> StateWord
    requires { IsStateSpelling bits }
    ensures word { result ≡ state_word_of bits }
    ensures whole { IsStateWord result }
{
    match StateWord::read(bits) {
        Some(word) => word,
        None => unreachable!(),
    }
}

/// Whether the number has no thread.
pub fn is_dead(word: &StateWord) -> bool
    ensures { result ≡ is_dead word.now }
{
    match word.state {
        State::Dead => true,
        _ => false,
    }
}

/// Whether this word of the thread's number shows that the thread is there.
pub fn is_present_in(word: &StateWord, id: ThreadId) -> bool
    ensures { result ≡ is_present_in word.now id }
{
    word.version == id.version && !is_dead(word)
}

/// Whether a thread with this word takes a message of this sender at once: it receives from it or from any, or it picks and the
/// send has a timeout of zero.
pub fn takes_from(word: &StateWord, who: ThreadId, zero: bool) -> bool
    ensures { result ≡ takes_from (shows word.now.state) who zero }
{
    match word.state {
        State::Receiving { from } => admits(from, who),
        State::Picking => zero,
        State::Dead
        | State::Run { result: _ }
        | State::Sending { to: _, joined: _ }
        | State::Ended => false,
    }
}

/// The status that a state word shows.
pub fn shows(word: &StateWord) -> Status
    ensures { result ≡ shows word.now.state }
{
    match word.state {
        State::Dead => Status::Dead,
        State::Run { result: _ } => Status::Run,
        State::Sending { to, joined: _ } => Status::Sending { to },
        State::Receiving { from } => Status::Receiving { from },
        State::Picking => Status::Picking,
        State::Ended => Status::Ended,
    }
}

/// What a number shows, by its state word.
pub fn found_in(number: u8, word: &StateWord) -> Found
    ensures { result ≡ found_in number word.now }
{
    Found {
        id: ThreadId {
            number,
            version: word.version,
        },
        status: shows(word),
    }
}
