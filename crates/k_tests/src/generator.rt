// The generator's script, from a transcription of the generator in another language, and what a client of it does first.
use k_ids::{Message, Phase, Reply, ThreadId};
use k_script::{
    AtLine, AtWhat, Next, Operation, Position, Value, Who, big, next_call, next_phase, phases,
    weight,
};
use std::test::Fail;

// The server, the words and the work of each client of number 1.
const CLIENTS: [(u8, u32, u32, u32); 8] = [
    (10, 153, 196, 7),
    (10, 795, 130, 7),
    (9, 746, 123, 3),
    (8, 400, 34, 13),
    (10, 495, 332, 6),
    (11, 357, 926, 3),
    (9, 328, 4, 1),
    (9, 968, 607, 3),
];

#[test]
fn every_part_is_read(rt: HostRuntime) -> Result<(), Fail> {
    let script = big(rt.alloc(), 1)?;
    let numbers = (script.version(), script.table(), script.carriers());
    assert_eq!(rt; numbers, (1, 16, 1));
    assert!(rt; !script.show_steps() && script.turns().is_empty());
    assert_eq!(rt; script.versions(), [0; 16].as_slice());
    assert!(rt; script.programs() == 9);
    assert_eq!(rt; script.name(8), b"c7".as_slice());
    let priorities = [5, 6, 7, 3, 3, 3, 5, 6, 16, 17, 18, 19];
    for (thread, priority) in script.threads().iter().zip(priorities.iter()) {
        assert_eq!(rt; thread.priority, *priority);
    }
    let last = AtLine {
        step: 23741,
        what: AtWhat::Slice(0),
    };
    assert_eq!(rt; script.at_lines().last().copied(), Some(last));
    assert_eq!(rt; (weight(&script), phases(&script)), (70812, 4016));
    Ok(())
}

#[test]
fn clients_are_drawn_in_their_order(rt: HostRuntime) -> Result<(), Fail> {
    let script = big(rt.alloc(), 1)?;
    assert!(rt; script.programs() == 9);
    for (index, (server, low, high, count)) in CLIENTS.iter().copied().enumerate() {
        let call = Operation::Call {
            to: Who::Number(server),
            low: Value::Number(low),
            high: Value::Number(high),
            zero: false,
        };
        let client = [
            Operation::Repeat { count: 100 },
            call,
            Operation::Work { count },
            Operation::Again,
        ];
        assert_eq!(rt; script.operations(1 + index as u8), client.as_slice());
    }
    Ok(())
}

#[test]
fn a_client_calls_and_works(rt: HostRuntime) -> Result<(), Fail> {
    let script = big(rt.alloc(), 1)?;
    let (number, version) = (10, 1);
    let server = ThreadId { number, version };
    let message = Message {
        low: 153,
        high: 196,
    };
    let call = Phase::Send {
        to: server,
        message,
        zero: false,
        joined: true,
    };
    let got = Reply::Got {
        from: server,
        message,
    };
    let mut position = Position::start(1, server);
    assert_eq!(rt; next_phase(&script, &mut position, None), Next::Phase(call));
    assert_eq!(rt;
        next_phase(&script, &mut position, Some(got)),
        Next::Work(7)
    );
    assert_eq!(rt; next_call(&script, &mut position, None), call);
    Ok(())
}
