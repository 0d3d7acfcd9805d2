// What is told of a carrier's move.
ghost use Rattle.std.specs.Prelude.{◌≡◌};
ghost use Rattle.k_carrier.specs.Told.{blocked, replied, told_by, told_switched, told_waiting, told_word};

use crate::moves::Stepped;
use crate::rules::is_goals;
use k_context::{Owner, Ran};
use k_ids::{ContextWord, Reply};
use k_locks::{Lock, Told};
use k_switch::{Goal, Switched};

/// Of a context whose step was made.
pub(crate) fn told_by(goal: Option<Goal>, owner: Owner, ran: Ran) -> Stepped
    ensures { result ≡ told_by goal owner ran }
{
    match ran {
        Ran::Left if is_goals(goal, owner) => Stepped::Left,
        Ran::Replied { serial, reply } => replied(owner, serial, reply),
        _ => Stepped::On,
    }
}

// A thread's call is over.
fn replied(owner: Owner, serial: u32, reply: Reply) -> Stepped
    ensures { result ≡ replied owner serial reply }
{
    match owner {
        Owner::Thread(id) => Stepped::Replied { id, serial, reply },
        Owner::Carrier(_) => Stepped::On,
    }
}

/// Of a step that has to be asked for again; any other is told as it was.
pub(crate) fn told_waiting(lock: Option<Lock>, told: Option<Told>, stepped: Stepped) -> Stepped
    ensures { result ≡ told_waiting lock told stepped }
{
    match told {
        Some(Told::Owned { owner }) => blocked(lock, owner),
        Some(Told::Holds { context }) => Stepped::BlockedBy { context },
        Some(Told::Taken { context, carrier }) => Stepped::Missed {
            context,
            holder: carrier,
        },
        _ => stepped,
    }
}

// The lock that the step acquires is owned.
fn blocked(lock: Option<Lock>, owner: u8) -> Stepped
    ensures { result ≡ blocked lock owner }
{
    match lock {
        Some(lock) => Stepped::Blocked { lock, owner },
        None => Stepped::On,
    }
}

/// Of a word of this context: another carrier may have the context in its hand.
pub(crate) fn told_word(context: u8, word: ContextWord) -> Stepped
    ensures { result ≡ told_word context word }
{
    match word {
        ContextWord::Taken { carrier, .. } => Stepped::Missed {
            context,
            holder: carrier,
        },
        _ => Stepped::On,
    }
}

/// Of a switch that is over, if one is.
pub(crate) fn told_switched(switched: Option<Switched>) -> Stepped
    ensures { result ≡ told_switched switched }
{
    match switched {
        Some(switched) if switched.idle => Stepped::Idle,
        _ => Stepped::On,
    }
}
