// A send of thread 0.1 to thread 1.1.
ghost use Rattle.std.specs.Prelude.{◌≡◌, true};
ghost use Rattle.k_ids.specs.StateWords.{IsPartner};
ghost use Rattle.k_ipc.specs.SendTable.{CanPush, IsFit, IsSound, at_of, can_ask, hand_of, is_open};

use crate::SendSection;
use crate::send::{
    Manner, SendCall, SendLocation, SendLocked, SendOutside, SendPushing, SendRelease,
};
use crate::tests::{
    FROM_0, FROM_1, Given, Look, RUN, Row, answer, counted, fits, got, id, is_spelling, is_thread,
    load, locks, lost, off, owned, pushed, release, shown, won,
};
use k_ids::{Act, Message, NoMemory, Outcome, Phase, StateWord};
use k_locks::{Answer, Lock, Point, Told, Went, WordName};
use std::alloc::Global;
use std::process::Abort;

impl SendSection {
    // Whether the section can be asked for its step. None of the walk appends to a queue.
    fn may_ask(&self) -> bool
        ensures open { result ≡ true → can_ask self.now.location ≡ true }
        ensures onward { result ≡ true → is_open (at_of self.now.location) ≡ true }
        ensures room { result ≡ true → CanPush self.now.call (hand_of self.now.location) (at_of self.now.location) }
    {
        match &self.location {
            SendLocation::Outside(SendOutside::Ended(_)) => false,
            SendLocation::Outside(_) => true,
            SendLocation::Locked(SendLocked::Release(SendRelease::Queued), _) => false,
            SendLocation::Locked(_, _) => true,
            SendLocation::Pushing(SendPushing::PushReceiver(_), _, lists) => lists
                .priority_of(self.call.to.number)
                .is_none(),
            SendLocation::ListsReturned(_, _) | SendLocation::QueueReturned(_) => false,
        }
    }
}

// Whether the section can go on from the answer.
fn can_hear(section: &SendSection, answer: &Answer) -> bool
    ensures { result ≡ true → IsFit (at_of section.now.location) answer.now }
{
    match answer {
        Answer::Told(Told::Loaded(bits)) => match section.location {
            SendLocation::Locked(SendLocked::ReloadReceiver, _) => is_thread(*bits),
            _ => is_spelling(*bits),
        },
        _ => true,
    }
}

// One step: the location must be this row of the table.
fn step(rt: &impl Abort, section: &mut SendSection, row: Row, answer: Answer)
    requires { IsSound section.old }
    ensures { IsSound section.new }
{
    let left = (section.left(RECEIVER_LOCK), section.left(Lock::Ready));
    assert_eq!(rt; left, (row.1, row.2));
    assert_eq!(rt; section.holds(), locks(1, row));
    assert!(rt; section.may_ask());
    let step = section.next();
    assert_eq!(rt; shown(&step), row.0);
    assert!(rt; fits(&step, &answer));
    assert!(rt; can_hear(section, &answer));
    assert_eq!(rt; section.point(&section.own(), &answer), row.5);
    assert_eq!(rt; section.resume(answer), row.4);
}

// A send that goes through these locations.
fn walk(rt: &impl Abort, alloc: Global, call: SendCall, rows: &[Row]) -> Result<(), NoMemory>
    requires caller { IsPartner call.caller }
    requires to { IsPartner call.to }
{
    let mut section = SendSection::first(call, StateWord::created(1, 20));
    let mut steps = 0;
    for row in rows {
        step(rt, &mut section, *row, answer(alloc, row.3)?);
        steps = counted(steps, *row);
        assert_eq!(rt; section.done(), steps);
    }
    Ok(())
}

const CALLER: WordName = WordName::State(0);

const RECEIVER: WordName = WordName::State(1);

const RECEIVER_LOCK: Lock = Lock::Thread(1);

// The receiver's word with the message of thread 0.1 delivered.
const DELIVERED: u64 = 0x0500_0004_0000_4089;

#[test]
fn a_call_to_one_that_falls_asleep_meanwhile(rt: HostRuntime) -> Result<(), NoMemory> {
    let (to, message) = (id(1), Message { low: 7, high: 8 });
    let call = SendCall {
        caller: id(0),
        to,
        message,
        zero: true,
        manner: Manner::Joined,
    };
    let phase = Phase::Send {
        to,
        message,
        zero: true,
        joined: true,
    };
    let passed = Point {
        who: id(0),
        act: Act::Call { phase },
        outcome: Outcome::Passed,
    };
    let store = Look::Store(WordName::Mail(1), 34_359_738_375);
    let rows = [
        owned(RECEIVER_LOCK, 0),
        got(RECEIVER_LOCK, 0, Given::Empty),
        load(RECEIVER, 7, FROM_0),
        Row(store, 8, 0, Given::Plain(Told::Stored), Went::On, None),
        won(CALLER, 7, RUN, FROM_1, Some(passed)),
        lost(RECEIVER, 6, FROM_0, DELIVERED, off(FROM_0)),
        load(RECEIVER, 5, off(FROM_0)),
        won(RECEIVER, 6, off(FROM_0), DELIVERED, None),
        owned(Lock::Ready, 3),
        got(Lock::Ready, 3, Given::Lists),
        pushed(),
        release(1, 0, Went::Waits),
    ];
    walk(&rt, rt.alloc(), call, &rows)
}
