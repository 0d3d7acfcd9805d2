// A create.
ghost use Rattle.std.specs.Prelude.{OnOk, true, ◌≡◌};
ghost use Rattle.k_threads.specs.CreateTable.{CanPush, IsSound, at_of, can_ask, hand_of};

use super::{
    Given, Look, READY, RELEASED, Row, TABLE, answered, id, is_empty, is_fit, on, own, running,
    shown, won,
};
use crate::create::{CreateLocation, CreateOutside, CreateSection};
use k_ids::{Act, NoMemory, Outcome, Phase, Reply, Result4, StateWord};
use k_locks::{Answer, Lock, Told, Went};
use std::alloc::Global;
use std::process::Abort;

// Whether the section can be asked for its step.
fn can_ask(section: &CreateSection) -> bool
    ensures { result ≡ can_ask section.now.location }
{
    match section.location {
        CreateLocation::Outside(CreateOutside::Ended(_))
        | CreateLocation::ListsReturned(_, _)
        | CreateLocation::NumbersReturned(_) => false,
        _ => true,
    }
}

// Whether the thread that the section pushes now, if it does, stands in no list.
fn can_push(section: &CreateSection) -> bool
    ensures { result ≡ true → can_ask section.now.location ≡ true → CanPush section.now.call (hand_of section.now.location) (at_of section.now.location) }
{
    match &section.location {
        CreateLocation::PushCreated(_, _, lists) => is_empty(lists),
        _ => true,
    }
}

// Makes the step of a row, which must be as it should be.
fn step(rt: &impl Abort, section: &mut CreateSection, row: Row, answer: Answer)
    requires { IsSound section.old }
    ensures { IsSound section.new }
{
    assert_eq!(rt; section.left(Lock::Table), row.1);
    assert!(rt; can_ask(section));
    assert!(rt; can_push(section));
    let step = section.next();
    assert_eq!(rt; shown(&step), row.0);
    assert!(rt; is_fit(&answer));
    assert_eq!(rt; section.point(&section.own(), &answer), row.4);
    assert_eq!(rt; section.resume(answer), row.3);
}

// Walks along the rows.
fn walk(
    rt: &impl Abort,
    alloc: Global,
    section: &mut CreateSection,
    rows: &[Row],
) -> Result<(), NoMemory>
    requires { IsSound section.old }
    ensures { OnOk result (IsSound section.new) }
{
    for row in rows {
        step(rt, section, *row, answered(alloc, row.2)?);
    }
    Ok(())
}

// The steps of a create of 0.1 that makes 1.8.
fn rows() -> [Row; 8] {
    let old = StateWord::dead(7).bits();
    let new = StateWord::created(8, 9).bits();
    let pushed = Went::Pushed { priority: 9 };
    let phase = Phase::Create {
        program: 3,
        priority: 9,
    };
    let (act, made) = (Act::Call { phase }, Outcome::Made { id: id(1, 8) });
    let ended = Went::Ends(Reply::Made { id: id(1, 8) });
    let caller = Given::Told(Told::Loaded(running(Result4::Plain)));
    [
        Row(
            TABLE,
            0,
            Given::Told(Told::Owned { owner: 2 }),
            Went::Again,
            None,
        ),
        on(TABLE, 0, Given::Numbers),
        on(Look::Load(0), 6, caller),
        on(Look::Place(id(1, 8), 3, 9), 5, Given::Told(Told::Placed)),
        won(Look::Exchange(1, old, new), 4, id(0, 1), act, made),
        on(READY, 3, Given::Lists),
        Row(Look::Release(Lock::Ready), 2, RELEASED, pushed, None),
        Row(Look::Release(Lock::Table), 1, RELEASED, ended, None),
    ]
}

#[test]
fn a_create_makes_the_lowest_free_number(rt: HostRuntime) -> Result<(), NoMemory> {
    let mut section = CreateSection::of(id(0, 1), own(id(0, 1)), 3, 9);
    walk(&rt, rt.alloc(), &mut section, rows().as_slice())?;
    assert_eq!(rt; section.done(), 7);
    assert!(rt; !can_ask(&section));
    assert_eq!(rt; section.holds(), [None, None, None]);
    Ok(())
}
