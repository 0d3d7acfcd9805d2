// A receive of thread 1.1, and its pick.
ghost use Rattle.std.specs.Prelude.{◌≡◌, ◌<◌, true, IfSome};
ghost use Rattle.k_ids.specs.StateWords.{IsPartner};
ghost use Rattle.k_ipc.specs.ReceiveTable.{CanPush, IsFit, IsSound, at_of, can_ask, hand_of, is_open};

use crate::ReceiveSection;
use crate::receive::{ReceiveCall, ReceiveLocation, ReceiveOutside, ReceivePushing};
use crate::tests::{
    DEAD, Given, Look, PICKING, RUN, Row, SENT, TO_1, answer, counted, fits, got, id, is_spelling,
    load, locks, lost, off, owned, pushed, release, shown, won,
};
use k_ids::{Act, Message, NoMemory, Outcome, Phase, Reply, State, StateWord};
use k_locks::{Answer, Lock, Point, Told, Went, WordName};
use std::alloc::Global;
use std::process::Abort;

impl ReceiveSection {
    // Whether the section can be asked for its step.
    fn may_ask(&self) -> bool
        ensures open { result ≡ true → can_ask self.now.location ≡ true }
        ensures onward { result ≡ true → is_open (at_of self.now.location) ≡ true }
        ensures room { result ≡ true → CanPush self.now.call (hand_of self.now.location) (at_of self.now.location) }
    {
        match &self.location {
            ReceiveLocation::Outside(ReceiveOutside::Ended(_)) => false,
            ReceiveLocation::Outside(_) => true,
            ReceiveLocation::Locked(_, _) => true,
            ReceiveLocation::Pushing(ReceivePushing::LoadFreed(_), _, _) => true,
            ReceiveLocation::Pushing(ReceivePushing::PushFreed(entry, _), _, lists) => lists
                .priority_of(entry.number())
                .is_none(),
            ReceiveLocation::ListsReturned(_, _, _) | ReceiveLocation::QueueReturned(_) => false,
        }
    }
}

// Whether the section can go on from the answer.
fn can_hear(section: &ReceiveSection, answer: &Answer) -> bool
    ensures { result ≡ true → IsFit (at_of section.now.location) answer.now }
{
    match answer {
        Answer::Told(Told::Loaded(bits)) => is_spelling(*bits),
        _ => true,
    }
}

// One step: the location must be this row of the table.
fn step(rt: &impl Abort, section: &mut ReceiveSection, row: Row, answer: Answer)
    requires { IsSound section.old }
    ensures { IsSound section.new }
{
    assert_eq!(rt;
        (section.left(OWN), section.left(Lock::Ready)),
        (row.1, row.2)
    );
    assert_eq!(rt; section.holds(), locks(1, row));
    assert!(rt; section.may_ask());
    let step = section.next();
    assert_eq!(rt; shown(&step), row.0);
    assert!(rt; fits(&step, &answer));
    assert!(rt; can_hear(section, &answer));
    assert_eq!(rt; section.point(&section.own(), &answer), row.5);
    assert_eq!(rt; section.resume(answer), row.4);
}

// A receive, or a pick, that goes through these locations.
fn walk(rt: &impl Abort, alloc: Global, call: ReceiveCall, rows: &[Row]) -> Result<(), NoMemory>
    requires caller { IsPartner call.caller }
    requires from { IfSome call.from IsPartner }
{
    let own = StateWord::created(1, 20);
    let own = if call.picks {
        own.with_state(State::Picking)
    } else {
        own
    };
    let mut section = ReceiveSection::first(call, own);
    let mut steps = 0;
    for row in rows {
        step(rt, &mut section, *row, answer(alloc, row.3)?);
        steps = counted(steps, *row);
        assert_eq!(rt; section.done(), steps);
    }
    Ok(())
}

const OWN: Lock = Lock::Thread(1);

const CALLER: WordName = WordName::State(1);

const SECOND: WordName = WordName::State(2);

const THIRD: WordName = WordName::State(3);

fn call(picks: bool) -> ReceiveCall
    ensures caller { IsPartner result.caller }
    ensures from { IfSome result.from IsPartner }
{
    ReceiveCall {
        caller: id(1),
        from: None,
        zero: false,
        picks,
    }
}

// That this message was taken.
fn took(act: Act, number: u8, message: Message) -> Option<Point>
    requires { number < 64 }
{
    Some(Point {
        who: id(1),
        act,
        outcome: Outcome::Took {
            from: id(number),
            message,
        },
    })
}

// The load of the freed sender's word, with the ready lists in hand.
fn freed(word: WordName) -> Row {
    let told = Given::Plain(Told::Loaded(SENT));
    Row(Look::Load(word), 3, 2, told, Went::On, None)
}

#[test]
fn a_receive_passes_over_one_and_takes_the_next(rt: HostRuntime) -> Result<(), NoMemory> {
    let message = Message { low: 7, high: 8 };
    let phase = Phase::Receive {
        from: None,
        zero: false,
    };
    let point = took(Act::Call { phase }, 3, message);
    let rows = [
        owned(OWN, 0),
        got(OWN, 0, Given::Both),
        load(CALLER, 8, RUN),
        load(SECOND, 7, DEAD),
        load(THIRD, 6, TO_1),
        lost(THIRD, 7, TO_1, SENT, off(TO_1)),
        load(THIRD, 6, off(TO_1)),
        won(THIRD, 7, off(TO_1), SENT, point),
        owned(Lock::Ready, 4),
        got(Lock::Ready, 4, Given::Lists),
        freed(THIRD),
        pushed(),
        release(
            1,
            1,
            Went::Ends(Reply::Got {
                from: id(3),
                message,
            }),
        ),
    ];
    walk(&rt, rt.alloc(), call(false), &rows)
}

#[test]
fn a_pick_takes_the_first(rt: HostRuntime) -> Result<(), NoMemory> {
    let message = Message { low: 5, high: 6 };
    let rows = [
        owned(OWN, 0),
        got(OWN, 0, Given::Both),
        load(CALLER, 9, PICKING),
        load(SECOND, 8, TO_1),
        lost(SECOND, 9, TO_1, SENT, off(TO_1)),
        load(SECOND, 8, off(TO_1)),
        won(SECOND, 9, off(TO_1), SENT, took(Act::Pick, 2, message)),
        won(CALLER, 5, PICKING, RUN, None),
        got(Lock::Ready, 4, Given::Lists),
        freed(SECOND),
        pushed(),
        release(
            1,
            1,
            Went::Ends(Reply::Got {
                from: id(2),
                message,
            }),
        ),
    ];
    walk(&rt, rt.alloc(), call(true), &rows)
}
