// The linearization point of a create.
ghost use Rattle.std.specs.Prelude.{◌≡◌};
ghost use Rattle.k_threads.specs.CreateTable.{IsFit, at_of, full_point, hand_of, heard, point_of, points};
ghost use Rattle.k_locks.specs.Numbers.{lowest_free};

use crate::create::{CreateCall, CreateLocation, CreateLocked, CreateSection};
use k_ids::{Act, Outcome, Phase, StateWord};
use k_locks::{Answer, Numbers, Point, Told, is_dead, state_word};

impl CreateSection {
    /// The event that the step appends to the history, if any. `caller` is the caller's state word at this very step.
    pub fn point(&self, caller: &StateWord, answer: &Answer) -> Option<Point>
        requires { IsFit (at_of self.now.location) answer.now }
        ensures { result ≡ points self.now.call caller.now (hand_of self.now.location) (at_of self.now.location) (heard self.now answer.now) }
    {
        match (&self.location, answer) {
            (
                CreateLocation::Locked(CreateLocked::LoadCaller, numbers),
                Answer::Told(Told::Loaded(bits)),
            ) => if is_dead(&state_word(*bits)) {
                None
            } else {
                self.call.full_point(numbers)
            },
            (CreateLocation::Locked(CreateLocked::CommitCreate(id), _), Answer::Told(Told::Won)) =>
                Some(self.call.point_of(Outcome::Made { id: *id })),
            _ => None,
        }
    }
}

impl CreateCall {
    // What the thread numbers decide: that none is free, or nothing yet.
    fn full_point(&self, numbers: &Numbers) -> Option<Point>
        ensures { result ≡ full_point self.now numbers.now (lowest_free numbers.now) }
    {
        match numbers.lowest_free() {
            Some(_) => None,
            None => Some(self.point_of(Outcome::Full {
                alive: numbers.alive(),
                worn: numbers.worn(),
            })),
        }
    }

    fn point_of(&self, outcome: Outcome) -> Point
        ensures { result ≡ point_of self.now outcome }
    {
        Point {
            who: self.caller,
            act: Act::Call {
                phase: Phase::Create {
                    program: self.program,
                    priority: self.priority,
                },
            },
            outcome,
        }
    }
}
