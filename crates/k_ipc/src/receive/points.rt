// The linearization points of a receive and of a pick.
ghost use Rattle.std.specs.Prelude.{◌≡◌};
ghost use Rattle.k_ids.specs.declared.state_word.StateWord.{StateWord};
ghost use Rattle.k_senders.specs.Entries.{message_of, sender_of};
ghost use Rattle.k_locks.specs.declared.steps.Answer.TheVariants as answers;
ghost use Rattle.k_locks.specs.Asks as asks;
ghost use Rattle.k_locks.specs.Asks.{told_of};
ghost use Rattle.k_locks.specs.Hands.{Hand, nothing};
ghost use Rattle.k_ids.specs.declared.calls.Outcome.TheVariants as outcome;
ghost use Rattle.k_ids.specs.StateWords.{IsStateWord};
ghost use Rattle.k_ipc.specs.ReceiveTable.{IsFit, IsSound, IsSoundLocked, Locked, Outside, act_of, ask_of, at_of, hand_of, heard, nobody_left, point_by, points};

use crate::candidates::{first_candidate, next_candidate};
use crate::receive::moves::still_waits;
use crate::receive::{ReceiveCall, ReceiveLocation, ReceiveLocked, ReceiveOutside, ReceiveSection};
use k_ids::{Act, Outcome, Phase, StateWord};
use k_locks::{Answer, Point, Told, is_dead, is_present_in, state_word};
use k_senders::{SenderEntry, Senders};

impl ReceiveSection {
    /// The event that the section's step appends to the history where it has this answer, if any. `caller` is the caller's state
    /// word at this very step; no event of a receive depends on it.
    #[tactic(auto, using(crate::proofs::ReceiveLaws::none_got, crate::proofs::ReceiveLaws::none_pushing))]
    pub fn point(&self, _caller: &StateWord, answer: &Answer) -> Option<Point>
        requires sound { IsSound self.now }
        requires fit { IsFit (at_of self.now.location) answer.now }
        ensures { result ≡ points self.now.call _caller.now (hand_of self.now.location) (at_of self.now.location) (heard self.now answer.now) }
    {
        match answer {
            Answer::Got(_) => None,
            Answer::Told(told) => match &self.location {
                ReceiveLocation::Outside(at) => outside_point(self.call, *at, *told),
                ReceiveLocation::Locked(at, queue) => locked_point(self.call, *at, queue, *told),
                ReceiveLocation::Pushing(_, _, _)
                | ReceiveLocation::ListsReturned(_, _, _)
                | ReceiveLocation::QueueReturned(_) => None,
            },
        }
    }
}

fn outside_point(call: ReceiveCall, at: ReceiveOutside, told: Told) -> Option<Point>
    requires { IsFit (Outside at) (answers.Told told) }
    ensures { (caller own : StateWord) (h : Hand) → result ≡ points call caller h (Outside at) (told_of told (ask_of call own (Outside at))) }
{
    match (at, told) {
        (ReceiveOutside::LoadCaller, Told::Loaded(bits)) => if is_dead(&state_word(bits)) {
            None
        } else {
            Some(point(call, Outcome::Own))
        },
        _ => None,
    }
}

fn locked_point(call: ReceiveCall, at: ReceiveLocked, queue: &Senders, told: Told) -> Option<Point>
    requires sound { IsSoundLocked call at queue.now }
    requires fit { IsFit (Locked at) (answers.Told told) }
    ensures { (caller own : StateWord) → result ≡ points call caller (record nothing { queue = queue.now }) (Locked at) (told_of told (ask_of call own (Locked at))) }
{
    match told {
        Told::Loaded(bits) => loaded_point(call, at, queue, &state_word(bits)),
        Told::Won => won_point(call, at),
        _ => None,
    }
}

// Where a state word was loaded under the caller's lock.
fn loaded_point(
    call: ReceiveCall,
    at: ReceiveLocked,
    queue: &Senders,
    word: &StateWord,
) -> Option<Point>
    requires word { IsStateWord word.now }
    requires sound { IsSoundLocked call at queue.now }
    ensures { (caller : StateWord) → result ≡ points call caller (record nothing { queue = queue.now }) (Locked at) (asks.Word word.now) }
{
    match at {
        ReceiveLocked::LoadOwn if !is_dead(word) => nobody(call, first_candidate(queue, call.from)),
        ReceiveLocked::LoadSender(entry) if !still_waits(call, entry, word) => nobody(
            call,
            next_candidate(queue, call.from, entry),
        ),
        ReceiveLocked::LoadPartner(from) if !is_present_in(word, from) => Some(Point {
            who: call.caller,
            act: Act::Gone,
            outcome: Outcome::Freed,
        }),
        _ => None,
    }
}

// Where an exchange under the caller's lock was won.
fn won_point(call: ReceiveCall, at: ReceiveLocked) -> Option<Point>
    ensures { (caller : StateWord) (h : Hand) → result ≡ points call caller h (Locked at) asks.Won }
{
    match at {
        ReceiveLocked::FreeSender(entry, _) | ReceiveLocked::FreeNext(entry, _) => Some(point(
            call,
            took(entry),
        )),
        ReceiveLocked::CommitWait | ReceiveLocked::SettlePick => Some(point(call, Outcome::Waits)),
        _ => None,
    }
}

fn took(entry: SenderEntry) -> Outcome
    ensures { result ≡ outcome.Took (sender_of entry) (message_of entry) }
{
    Outcome::Took {
        from: entry.sender(),
        message: entry.message(),
    }
}

// Without a candidate a receive with a timeout of zero finds nobody.
fn nobody(call: ReceiveCall, candidate: Option<SenderEntry>) -> Option<Point>
    ensures { result ≡ nobody_left call candidate }
{
    match candidate {
        None if call.zero => Some(point(call, Outcome::Nobody)),
        _ => None,
    }
}

// A receive is a call of its own. A pick goes on with the caller's reply.
fn point(call: ReceiveCall, outcome: Outcome) -> Point
    ensures { result ≡ point_by call (act_of call) outcome }
{
    let act = if call.picks {
        Act::Pick
    } else {
        let phase = Phase::Receive {
            from: call.from,
            zero: call.zero,
        };
        Act::Call { phase }
    };
    Point {
        who: call.caller,
        act,
        outcome,
    }
}
