// Two short histories, event by event.
ghost use Rattle.k_ids.specs.declared.calls.Act.TheVariants as act;
ghost use Rattle.k_ids.specs.declared.calls.Phase.TheVariants as phase;
ghost use Rattle.std.specs.Prelude.{false, ◌≡◌};

use k_ids::{Act, Event, Found, Message, Outcome, Phase, Reply, Status, ThreadId, Unlawful};
use k_machine::Machine;

fn id(number: u8, version: u32) -> ThreadId
    ensures { result.number ≡ number }
{
    ThreadId { number, version }
}

fn event(who: ThreadId, serial: u32, act: Act) -> Event
    ensures { result ≡ record { who = who; serial = serial; act = act } }
{
    Event { who, serial, act }
}

fn send(to: ThreadId, low: u32, high: u32) -> Act
    ensures { result ≡ act.Call (phase.Send to (record { low = low; high = high }) false false) }
{
    let message = Message { low, high };
    let (zero, joined) = (false, false);
    let phase = Phase::Send {
        to,
        message,
        zero,
        joined,
    };
    Act::Call { phase }
}

#[test]
fn a_number_is_used_again(rt: HostRuntime) {
    let phase = Phase::Destroy { who: id(1, 1) };
    let destroy = Act::Call { phase };
    let phase = Phase::Create {
        program: 0,
        priority: 5,
    };
    let create = Act::Call { phase };
    let booted = Machine::boot(rt.alloc(), &[0, 0], 2, 2);
    let mut machine = booted.expect(&rt, "memory for two threads");
    let killed = machine.step(event(id(0, 1), 1, destroy));
    assert!(rt; killed == Ok(Outcome::Killed));
    let made = machine.step(event(id(0, 1), 2, create));
    assert!(rt; made == Ok(Outcome::Made { id: id(1, 2) }));
    let found = Found {
        id: id(1, 2),
        status: Status::Run,
    };
    assert!(rt; machine.status(1) == found && machine.serial(1) == 0);
    assert!(rt; machine.reply(id(0, 1), 1) == Some(Reply::Killed));
    assert!(rt; machine.idle() == Some(id(0, 1)) && machine.room() == 0);
}

// Room is taken where none is left, and what has been made stays.
#[test]
fn a_sender_waits(rt: HostRuntime) {
    let booted = Machine::boot(rt.alloc(), &[0, 0], 2, 1);
    let mut machine = booted.expect(&rt, "memory for two threads");
    let call = event(id(0, 1), 1, send(id(1, 1), 5, 6));
    let waits = machine.step(call);
    assert!(rt; waits == Ok(Outcome::Waits) && machine.room() == 0);
    machine.reserve().expect(&rt, "memory for an event");
    let message = Message { low: 5, high: 6 };
    assert!(rt; machine.waiting(1).first() == Some(&(id(0, 1), message)));
    let found = machine.status(0);
    let again = machine.step(call);
    assert!(rt; again == Err(Unlawful { found, serial: 1 }));
    assert!(rt; machine.room() == 1 && machine.size() == 2);
    assert!(rt; machine.replies().is_empty());
}
