// A destroy.
ghost use Rattle.std.specs.Prelude.{OnOk, true, ◌≡◌};
ghost use Rattle.k_threads.specs.DestroyTable.{CanPush, IsSound, at_of, can_ask, hand_of};

use super::{
    Given, Look, READY, RELEASED, Row, TABLE, answered, id, is_empty, is_fit, on, own, running,
    shown, spelled, won,
};
use crate::destroy::{DestroyLocation, DestroyOutside, DestroySection};
use k_ids::{Act, NoMemory, Outcome, Phase, Reply, Result4, State, StateWord};
use k_locks::{Answer, Lock, Told, Went};
use std::alloc::Global;
use std::process::Abort;

// Whether the section can be asked for its step.
fn can_ask(section: &DestroySection) -> bool
    ensures { result ≡ can_ask section.now.location }
{
    match section.location {
        DestroyLocation::Outside(DestroyOutside::Ended(_)) | DestroyLocation::Returned(_) => false,
        _ => true,
    }
}

// Whether the thread that the section pushes now, if it does, stands in no list.
fn can_push(section: &DestroySection) -> bool
    ensures { result ≡ true → can_ask section.now.location ≡ true → CanPush section.now.call (hand_of section.now.location) (at_of section.now.location) }
{
    match &section.location {
        DestroyLocation::Pushing(_, _, _, lists) => is_empty(lists),
        _ => true,
    }
}

// Makes the step of a row, which must be as it should be.
fn step(rt: &impl Abort, section: &mut DestroySection, row: Row, answer: Answer)
    requires { IsSound section.old }
    ensures { IsSound section.new }
{
    assert_eq!(rt; section.left(Lock::Table), row.1);
    assert!(rt; can_ask(section));
    assert!(rt; can_push(section));
    let step = section.next();
    assert_eq!(rt; shown(&step), row.0);
    assert!(rt; is_fit(&answer));
    assert_eq!(rt; section.point(&section.own(), &answer), row.4);
    assert_eq!(rt; section.resume(answer), row.3);
}

// Walks along the rows.
fn walk(
    rt: &impl Abort,
    alloc: Global,
    section: &mut DestroySection,
    rows: &[Row],
) -> Result<(), NoMemory>
    requires { IsSound section.old }
    ensures { OnOk result (IsSound section.new) }
{
    for row in rows {
        step(rt, section, *row, answered(alloc, row.2)?);
    }
    Ok(())
}

const NOBODY: Given = Given::Queue { waits: false };

const PUSHED: Went = Went::Pushed { priority: 5 };

const READY_BACK: Look = Look::Release(Lock::Ready);

fn thread(number: u8) -> Look {
    Look::Acquire(Lock::Thread(number))
}

fn thread_back(number: u8) -> Look {
    Look::Release(Lock::Thread(number))
}

fn loaded(bits: u64) -> Given {
    Given::Told(Told::Loaded(bits))
}

// The steps of a destroy of 1.1 by 3.1 up to the kill, which is lost once.
fn kill_rows() -> [Row; 7] {
    let runs = running(Result4::Plain);
    let dead = StateWord::dead(1).bits();
    let kill = Look::Exchange(1, runs, dead);
    let phase = Phase::Destroy { who: id(1, 1) };
    let lost = Given::Told(Told::Lost { found: runs });
    [
        on(TABLE, 0, Given::Numbers),
        on(Look::Load(3), 39, loaded(runs)),
        on(thread(1), 38, Given::Queue { waits: true }),
        on(Look::Load(1), 29, loaded(runs)),
        on(kill, 30, lost),
        on(Look::Load(1), 29, loaded(runs)),
        won(kill, 30, id(3, 1), Act::Call { phase }, Outcome::Killed),
    ]
}

// On to the removal of the victim's context: 0.1 waits to send to the victim, and is off.
fn free_rows() -> [Row; 8] {
    let sends = spelled(
        false,
        State::Sending {
            to: id(1, 1),
            joined: false,
        },
    );
    let gone = running(Result4::Gone);
    [
        on(Look::Load(0), 27, loaded(sends)),
        won(
            Look::Exchange(0, sends, gone),
            28,
            id(0, 1),
            Act::Gone,
            Outcome::Freed,
        ),
        on(READY, 25, Given::Lists),
        Row(READY_BACK, 24, RELEASED, PUSHED, None),
        on(thread_back(1), 23, RELEASED),
        on(READY, 22, Given::Lists),
        on(READY_BACK, 21, RELEASED),
        on(Look::Remove(id(1, 1)), 20, Given::Told(Told::Removed)),
    ]
}

// On to the end: 2.1 waits for a message of the victim, and is off. The others don't.
fn visit_rows() -> [Row; 13] {
    let runs = running(Result4::Plain);
    let gone = running(Result4::Gone);
    let receives = spelled(
        false,
        State::Receiving {
            from: Some(id(1, 1)),
        },
    );
    [
        on(thread(0), 19, NOBODY),
        on(Look::Load(0), 18, loaded(gone)),
        on(thread_back(0), 14, RELEASED),
        on(thread(2), 13, NOBODY),
        on(Look::Load(2), 12, loaded(receives)),
        won(
            Look::Exchange(2, receives, gone),
            13,
            id(2, 1),
            Act::Gone,
            Outcome::Freed,
        ),
        on(READY, 10, Given::Lists),
        Row(READY_BACK, 9, RELEASED, PUSHED, None),
        on(thread_back(2), 8, RELEASED),
        on(thread(3), 7, NOBODY),
        on(Look::Load(3), 6, loaded(runs)),
        on(thread_back(3), 2, RELEASED),
        Row(
            Look::Release(Lock::Table),
            1,
            RELEASED,
            Went::Ends(Reply::Killed),
            None,
        ),
    ]
}

#[test]
fn a_destroy_frees_all_who_wait_for_its_victim(rt: HostRuntime) -> Result<(), NoMemory> {
    let mut section = DestroySection::of(id(3, 1), own(id(3, 1)), id(1, 1), 4);
    walk(&rt, rt.alloc(), &mut section, kill_rows().as_slice())?;
    walk(&rt, rt.alloc(), &mut section, free_rows().as_slice())?;
    walk(&rt, rt.alloc(), &mut section, visit_rows().as_slice())?;
    assert_eq!(rt; section.done(), 28);
    assert!(rt; !can_ask(&section));
    assert_eq!(rt; section.holds(), [None, None, None]);
    Ok(())
}
