// The linearization points of a send.
ghost use Rattle.std.specs.Prelude.{◌≡◌};
ghost use Rattle.k_ids.specs.declared.state_word.StateWord.{StateWord};
ghost use Rattle.k_locks.specs.declared.steps.Answer.TheVariants as answers;
ghost use Rattle.k_locks.specs.Asks.{told_of};
ghost use Rattle.k_locks.specs.Hands.{Hand};
ghost use Rattle.k_ipc.specs.SendTable.{IsFit, Locked, Outside, ask_of, at_of, hand_of, heard, phase_by, point_of, points, refusal_of};

use crate::send::{Manner, SendCall, SendLocation, SendLocked, SendOutside, SendSection};
use k_ids::{Act, Outcome, Phase, StateWord};
use k_locks::{Answer, Point, Told, found_in, is_dead, is_present_in, state_word, takes_from};

impl SendSection {
    /// The event that the section's step appends to the history where it has this answer, if any. `caller` is the caller's state
    /// word at this very step.
    #[tactic(auto, using(crate::proofs::SendLaws::none_got, crate::proofs::SendLaws::none_pushing))]
    pub fn point(&self, caller: &StateWord, answer: &Answer) -> Option<Point>
        requires { IsFit (at_of self.now.location) answer.now }
        ensures { result ≡ points self.now.call caller.now (hand_of self.now.location) (at_of self.now.location) (heard self.now answer.now) }
    {
        match answer {
            Answer::Got(_) => None,
            Answer::Told(told) => match self.location {
                SendLocation::Outside(at) => outside_point(self.call, at, *told),
                SendLocation::Locked(at, _) => locked_point(self.call, caller, at, *told),
                SendLocation::Pushing(_, _, _)
                | SendLocation::ListsReturned(_, _)
                | SendLocation::QueueReturned(_) => None,
            },
        }
    }
}

fn outside_point(call: SendCall, at: SendOutside, told: Told) -> Option<Point>
    requires { IsFit (Outside at) (answers.Told told) }
    ensures { (caller own : StateWord) (h : Hand) → result ≡ points call caller h (Outside at) (told_of told (ask_of call own (Outside at))) }
{
    match (at, told) {
        (SendOutside::LoadCaller, Told::Loaded(bits)) => if is_dead(&state_word(bits)) {
            None
        } else {
            Some(point(call, Outcome::Own))
        },
        _ => None,
    }
}

fn locked_point(call: SendCall, caller: &StateWord, at: SendLocked, told: Told) -> Option<Point>
    requires { IsFit (Locked at) (answers.Told told) }
    ensures { (own : StateWord) (h : Hand) → result ≡ points call caller.now h (Locked at) (told_of told (ask_of call own (Locked at))) }
{
    match (at, told) {
        (SendLocked::LoadReceiver, Told::Loaded(bits)) => if is_dead(caller) {
            None
        } else {
            refusal(call, &state_word(bits))
        },
        (SendLocked::CommitPass(_), Told::Won) => Some(point(call, Outcome::Passed)),
        (SendLocked::CommitWait, Told::Won) => Some(point(call, Outcome::Waits)),
        _ => None,
    }
}

// What the receiver's word decides: a refusal, or nothing yet.
fn refusal(call: SendCall, word: &StateWord) -> Option<Point>
    ensures { result ≡ refusal_of call word.now }
{
    let found = found_in(call.to.number, word);
    if !is_present_in(word, call.to) {
        return Some(point(call, Outcome::Absent { found }));
    }
    if takes_from(word, call.caller, call.zero) || !call.zero {
        return None;
    }
    Some(point(call, Outcome::Busy { found }))
}

fn point(call: SendCall, outcome: Outcome) -> Point
    ensures { result ≡ point_of call outcome }
{
    Point {
        who: call.caller,
        act: Act::Call { phase: phase(call) },
        outcome,
    }
}

fn phase(call: SendCall) -> Phase
    ensures { result ≡ phase_by call call.manner }
{
    let SendCall {
        caller: _,
        to,
        message,
        zero,
        manner,
    } = call;
    match manner {
        Manner::Plain => Phase::Send {
            to,
            message,
            zero,
            joined: false,
        },
        Manner::Joined => Phase::Send {
            to,
            message,
            zero,
            joined: true,
        },
        Manner::Reply => Phase::Reply { to, message, zero },
    }
}
