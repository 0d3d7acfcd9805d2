// Reports of lists that are made by hand: what stands in which line, and which bytes are one piece.
use crate::{RunParts, report};
use k_calls::{CallLine, calls};
use k_carrier::{Link, StepMark, WaitMark, Want};
use k_context::Owner;
use k_ids::{
    Act, Entry, Event, Found, Message, Outcome, Phase, Reply, ReplyLine, Status, ThreadId,
};
use k_locks::Lock;
use k_outside::MemSink;
use std::alloc::Global;
use std::process::Abort;
use std::test::Fail;

/// A run that left waits alone.
fn waiting<'a>(waits: &'a [WaitMark], links: &'a [Link], made: u64) -> RunParts<'a> {
    RunParts {
        history: &[],
        replies: &[],
        steps: &[],
        calls: &[],
        waits,
        links,
        finals: &[],
        made,
    }
}

fn id(number: u8) -> ThreadId {
    ThreadId { number, version: 1 }
}

fn thread(number: u8) -> Owner {
    Owner::Thread(id(number))
}

/// A wait that was got, whose chain begins at this link.
fn wait(
    requester: u8,
    serial: u32,
    wants: Want,
    counts: (u32, u32),
    chain: (u64, u32),
) -> WaitMark {
    WaitMark {
        requester: thread(requester),
        serial,
        wants,
        got: true,
        allowed: counts.0,
        used: counts.1,
        first: chain.0,
        count: chain.1,
    }
}

fn link(mark: u64, owner: u8, wants: Want, left: u32) -> Link {
    Link {
        mark,
        owner: thread(owner),
        serial: 1,
        wants,
        left,
    }
}

fn sink(alloc: Global, fails: &[u32]) -> Result<MemSink, Fail> {
    let room = vec![in alloc; 0u8; 4096]?;
    Ok(MemSink::of(room, Vec::from_slice(alloc, fails)?))
}

fn is_reported(
    rt: &(impl Abort + AllocGlobal),
    end: &RunParts<'_>,
    show: bool,
    text: &str,
) -> Result<(), Fail> {
    let mut sink = sink(rt.alloc(), &[])?;
    assert_eq!(rt; report(end, show, &mut sink), Ok(()));
    assert_eq!(rt; sink.bytes(), text.as_bytes());
    Ok(())
}

/// The lock of a thread that was found owned, a table's lock whose owner waits for a context, and a wait in which two other
/// owners were found, between the links of another wait.
#[test]
fn waits_tell_their_chains(rt: HostRuntime) -> Result<(), Fail> {
    let table = Want::Lock(Lock::Table);
    let context = Want::Context(0);
    let waits = [
        wait(1, 3, Want::Lock(Lock::Thread(1)), (1, 1), (0, 1)),
        wait(3, 1, table, (25, 13), (1, 2)),
        wait(2, 1, context, (5, 2), (2, 1)),
    ];
    let links = [
        link(0, 0, Want::Lock(Lock::Thread(1)), 1),
        link(1, 2, table, 20),
        link(2, 0, context, 5),
        link(1, 0, context, 5),
    ];
    let end = waiting(&waits, &links, 0);
    is_reported(
        &rt,
        &end,
        false,
        "history
replies
waits
wait 1.1 3 thread 1 got allowed 1 used 1 chain 0.1 1 1
wait 3.1 1 table got allowed 25 used 13 chain 2.1 1 20 0.1 1 5
wait 2.1 1 context 0 got allowed 5 used 2 chain 0.1 1 5
total events 0 steps 0 helped 0
",
    )
}

/// A server waits for the lock that each of three clients left owned, one after the other.
#[test]
fn each_wait_has_its_own_chain(rt: HostRuntime) -> Result<(), Fail> {
    let lock = Want::Lock(Lock::Thread(3));
    let waits = [
        wait(3, 3, lock, (1, 1), (0, 1)),
        wait(3, 5, lock, (1, 1), (1, 1)),
        wait(3, 7, lock, (1, 1), (2, 1)),
    ];
    let links = [
        link(0, 0, lock, 1),
        link(1, 1, lock, 1),
        link(2, 2, lock, 1),
    ];
    is_reported(
        &rt,
        &waiting(&waits, &links, 189),
        false,
        "history
replies
waits
wait 3.1 3 thread 3 got allowed 1 used 1 chain 0.1 1 1
wait 3.1 5 thread 3 got allowed 1 used 1 chain 1.1 1 1
wait 3.1 7 thread 3 got allowed 1 used 1 chain 2.1 1 1
total events 0 steps 189 helped 0
",
    )
}

/// A carrier waits for the ready lock until its wait is broken off.
#[test]
fn carriers_wait_too(rt: HostRuntime) -> Result<(), Fail> {
    let ready = Want::Lock(Lock::Ready);
    let waits = [WaitMark {
        requester: Owner::Carrier(1),
        got: false,
        ..wait(0, 7, ready, (4294967295, 3), (0, 1))
    }];
    let links = [Link {
        owner: Owner::Carrier(0),
        serial: 4294967295,
        ..link(0, 0, ready, 9)
    }];
    let end = waiting(&waits, &links, 18446744073709551615);
    is_reported(
        &rt,
        &end,
        false,
        "history
replies
waits
wait c1 7 ready broken allowed 4294967295 used 3 chain c0 4294967295 9
total events 0 steps 18446744073709551615 helped 0
",
    )
}

/// The further links of a chain are pieces of their own.
#[test]
fn a_chain_is_put_link_by_link(rt: HostRuntime) -> Result<(), Fail> {
    let alloc = rt.alloc();
    let table = Want::Lock(Lock::Table);
    let waits = [wait(3, 1, table, (25, 13), (0, 2))];
    let links = [link(0, 2, table, 20), link(0, 0, Want::Context(0), 5)];
    let end = waiting(&waits, &links, 0);
    let mut sink = sink(alloc, &[4])?;
    assert!(rt; report(&end, false, &mut sink).is_err());
    let put = "history\nreplies\nwaits\nwait 3.1 1 table got allowed 25 used 13 chain 2.1 1 20";
    assert_eq!(rt; sink.bytes(), put.as_bytes());
    Ok(())
}

/// A send without a timeout limit.
fn send(to: u8, joined: bool) -> Act {
    let phase = Phase::Send {
        to: id(to),
        message: Message { low: 7, high: 8 },
        zero: false,
        joined,
    };
    Act::Call { phase }
}

fn open_receive() -> Act {
    let phase = Phase::Receive {
        from: None,
        zero: false,
    };
    Act::Call { phase }
}

fn entry(who: u8, serial: u32, act: Act, outcome: Outcome) -> Entry {
    Entry {
        event: Event {
            who: id(who),
            serial,
            act,
        },
        outcome,
    }
}

fn reply(to: u8, serial: u32, reply: Reply) -> ReplyLine {
    ReplyLine {
        id: id(to),
        serial,
        reply,
    }
}

fn got(from: u8) -> Reply {
    Reply::Got {
        from: id(from),
        message: Message { low: 7, high: 8 },
    }
}

/// The marks of a call, all made for its caller.
fn push_marks(marks: &mut Vec<StepMark>, who: u8, serial: u32, steps: u32) -> Result<(), Fail> {
    for number in 0..steps {
        marks.push(StepMark {
            owner: thread(who),
            serial,
            number,
            runner: thread(who),
        })?;
    }
    Ok(())
}

/// A client calls a server, is preempted while it holds the server's lock, and is helped in its last step there.
fn client_and_server(alloc: Global) -> Result<Vec<StepMark>, Fail> {
    let mut marks = Vec::new(alloc);
    push_marks(&mut marks, 1, 1, 7)?;
    push_marks(&mut marks, 0, 1, 10)?;
    push_marks(&mut marks, 1, 2, 6)?;
    push_marks(&mut marks, 1, 3, 2)?;
    marks.push(StepMark {
        owner: thread(0),
        serial: 1,
        number: 10,
        runner: thread(1),
    })?;
    marks.push(StepMark {
        owner: Owner::Carrier(0),
        serial: 4,
        number: 0,
        runner: Owner::Carrier(0),
    })?;
    push_marks(&mut marks, 1, 3, 3)?;
    push_marks(&mut marks, 0, 2, 1)?;
    Ok(marks)
}

const CALLED: &str = "history
1.1 1 wait -> waits
0.1 1 call 1.1 7 8 -> passed
1.1 2 send 0.1 7 8 -> passed
1.1 3 wait -> waits
0.1 2 end
replies
reply 0.1 1 got 1.1 7 8
reply 1.1 1 got 0.1 7 8
reply 1.1 2 sent
calls
call 0.1 1 steps 11 helped 1
call 0.1 2 steps 1 helped 0
call 1.1 1 steps 7 helped 0
call 1.1 2 steps 6 helped 0
call 1.1 3 steps 5 helped 0
waits
wait 1.1 3 thread 1 got allowed 1 used 1 chain 0.1 1 1
end 0.1 ended
end 1.1 receiving any
total events 5 steps 75 helped 1
";

/// Work belongs to no call, and the calls that are there aren't shown unasked.
#[test]
fn work_counts_in_the_total(rt: HostRuntime) -> Result<(), Fail> {
    let history = [entry(0, 1, Act::Call { phase: Phase::End }, Outcome::Ended)];
    let finals = [Found {
        id: id(0),
        status: Status::Ended,
    }];
    let lines = [CallLine {
        id: id(0),
        serial: 1,
        steps: 2,
        helped: 0,
    }];
    let end = RunParts {
        history: &history,
        replies: &[],
        steps: &[],
        calls: &lines,
        waits: &[],
        links: &[],
        finals: &finals,
        made: 4000010,
    };
    is_reported(
        &rt,
        &end,
        false,
        "history
0.1 1 end
replies
waits
end 0.1 ended
total events 1 steps 4000010 helped 0
",
    )
}

#[test]
fn all_parts_stand_in_their_order(rt: HostRuntime) -> Result<(), Fail> {
    let alloc = rt.alloc();
    let marks = client_and_server(alloc)?;
    let lines = calls(alloc, marks.as_slice())?;
    let history = [
        entry(1, 1, open_receive(), Outcome::Waits),
        entry(0, 1, send(1, true), Outcome::Passed),
        entry(1, 2, send(0, false), Outcome::Passed),
        entry(1, 3, open_receive(), Outcome::Waits),
        entry(0, 2, Act::Call { phase: Phase::End }, Outcome::Ended),
    ];
    let replies = [
        reply(0, 1, got(1)),
        reply(1, 1, got(0)),
        reply(1, 2, Reply::Sent),
    ];
    let waits = [wait(1, 3, Want::Lock(Lock::Thread(1)), (1, 1), (0, 1))];
    let links = [link(0, 0, Want::Lock(Lock::Thread(1)), 1)];
    let finals = [
        Found {
            id: id(0),
            status: Status::Ended,
        },
        Found {
            id: id(1),
            status: Status::Receiving { from: None },
        },
    ];
    let end = RunParts {
        history: &history,
        replies: &replies,
        steps: marks.as_slice(),
        calls: lines.as_slice(),
        waits: &waits,
        links: &links,
        finals: &finals,
        made: 75,
    };
    is_reported(&rt, &end, true, CALLED)
}
