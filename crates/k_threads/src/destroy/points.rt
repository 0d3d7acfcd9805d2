// The linearization points of a destroy.
ghost use Rattle.std.specs.Prelude.{◌≡◌};
ghost use Rattle.k_threads.specs.DestroyTable.{IsFit, at_of, freed, hand_of, heard, point_of, points};
ghost use Rattle.k_threads.specs.Words.{thread_at};

use crate::destroy::{
    DestroyCall, DestroyLocation, DestroyOutside, DestroySection, DestroyVictim, DestroyVisit,
};
use k_ids::{Act, Outcome, Phase, StateWord, ThreadId};
use k_locks::{Answer, Point, Told, found_in, is_dead, is_present_in, state_word};

impl DestroySection {
    /// The event that the step appends to the history, if any. `caller` is the caller's state word at this very step.
    pub fn point(&self, caller: &StateWord, answer: &Answer) -> Option<Point>
        requires { IsFit (at_of self.now.location) answer.now }
        ensures { result ≡ points self.now.call caller.now (hand_of self.now.location) (at_of self.now.location) (heard self.now answer.now) }
    {
        match (&self.location, answer) {
            (DestroyLocation::Outside(DestroyOutside::LoadOwn), Answer::Told(Told::Loaded(bits))) =>
                if is_dead(&state_word(*bits)) {
                    None
                } else {
                    Some(self.call.point_of(Outcome::Own))
                },
            (
                DestroyLocation::Victim(DestroyVictim::LoadVictim, _, _),
                Answer::Told(Told::Loaded(bits)),
            ) => {
                let word = state_word(*bits);
                if is_present_in(&word, self.call.who) {
                    return None;
                }
                let found = found_in(self.call.who.number, &word);
                Some(self.call.point_of(Outcome::Absent { found }))
            }
            (
                DestroyLocation::Victim(DestroyVictim::CommitKill(_), _, _),
                Answer::Told(Told::Won),
            ) => Some(self.call.point_of(Outcome::Killed)),
            (
                DestroyLocation::Victim(DestroyVictim::FreeSender(number, seen), _, _)
                | DestroyLocation::Visit(DestroyVisit::FreeVisited(number, seen), _, _),
                Answer::Told(Told::Won),
            ) => Some(freed(*number, seen)),
            _ => None,
        }
    }
}

impl DestroyCall {
    fn point_of(&self, outcome: Outcome) -> Point
        ensures { result ≡ point_of self.now outcome }
    {
        Point {
            who: self.caller,
            act: Act::Call {
                phase: Phase::Destroy { who: self.who },
            },
            outcome,
        }
    }
}

// A thread is freed, since the one that it waits for is gone.
fn freed(number: u8, seen: &StateWord) -> Point
    ensures { result ≡ freed (thread_at number seen.now) }
{
    Point {
        who: ThreadId {
            number,
            version: seen.version,
        },
        act: Act::Gone,
        outcome: Outcome::Freed,
    }
}
