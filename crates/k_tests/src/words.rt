// Words and the numbers that spell them, worked out by hand from the layouts.
use k_ids::{ContextWord, LockWord, Message, Result4, State, StateWord, ThreadId};
use std::process::Abort;
use std::test::Fail;

/// Version 1, priority 20.
const SERVER: u64 = 360_287_987_369_508_864;

/// The partner 1.1.
const PARTNER: u64 = 16_640;

fn is_read(rt: &impl Abort, bits: u64, state: State, on: bool) {
    let word = StateWord {
        version: 1,
        priority: 20,
        on,
        state,
    };
    assert_eq!(rt; StateWord::read(bits), Some(word));
}

#[test]
fn states_are_read(rt: HostRuntime) {
    let id = ThreadId {
        number: 1,
        version: 1,
    };
    let joined = true;
    let states = [
        (
            1,
            State::Run {
                result: Result4::Plain,
            },
        ),
        (
            65,
            State::Run {
                result: Result4::Sent,
            },
        ),
        (
            129 + PARTNER,
            State::Run {
                result: Result4::Delivered { from: id },
            },
        ),
        (
            193,
            State::Run {
                result: Result4::Gone,
            },
        ),
        (
            2 + PARTNER,
            State::Sending {
                to: id,
                joined: false,
            },
        ),
        (18 + PARTNER, State::Sending { to: id, joined }),
        (35, State::Receiving { from: None }),
        (3 + PARTNER, State::Receiving { from: Some(id) }),
        (51, State::Picking),
    ];
    for (bits, state) in states {
        is_read(&rt, SERVER + bits, state, false);
        is_read(&rt, SERVER + 8 + bits, state, true);
    }
    is_read(&rt, SERVER + 4, State::Ended, false);
    assert_eq!(rt;
        StateWord::read(17_179_869_184 * 5),
        Some(StateWord::dead(5))
    );
    // Dead, but on; a run with a partner; a partner without a version; a bit above all fields.
    for bits in [
        8,
        SERVER + 1 + PARTNER,
        SERVER + 258,
        SERVER + (1 << 60) + 1,
    ] {
        assert_eq!(rt; StateWord::read(bits), None);
    }
}

#[test]
fn a_server_waits_and_picks(rt: HostRuntime) {
    let run = StateWord::created(1, 20);
    let waits = StateWord { on: false, ..run };
    let waits = waits.with_state(State::Receiving { from: None });
    assert_eq!(rt; waits.bits(), 360_287_987_369_508_899);
    assert_eq!(rt;
        run.with_state(State::Picking).bits(),
        360_287_987_369_508_923
    );
    assert_eq!(rt; waits.woken(Result4::Plain), run);
    assert_eq!(rt; run.ended().bits(), SERVER + 4);
}

#[test]
fn owners_are_read(rt: HostRuntime) {
    assert_eq!(rt; LockWord::read(0), Some(LockWord::Free));
    assert_eq!(rt; LockWord::read(1), Some(LockWord::Owned { context: 0 }));
    assert_eq!(rt; LockWord::read(72), Some(LockWord::Owned { context: 71 }));
    assert_eq!(rt; LockWord::read(73), None);
    assert_eq!(rt; LockWord::Owned { context: 71 }.bits(), 72);
    assert_eq!(rt; LockWord::Owned { context: 72 }.is_lock_word(), false);
}

#[test]
fn slots_are_read(rt: HostRuntime) {
    let (carrier, version) = (1, 1);
    let words = [
        (0, ContextWord::Empty),
        (65, ContextWord::Clean { version }),
        (66, ContextWord::Holds { version }),
        (71, ContextWord::Taken { carrier, version }),
    ];
    for (bits, word) in words {
        assert_eq!(rt; ContextWord::read(bits), Some(word));
    }
    assert_eq!(rt; ContextWord::Taken { carrier, version }.bits(), 71);
    assert_eq!(rt; ContextWord::Clean { version: 0 }.is_context_word(), false);
    // A clean one without a version, with a carrier; one taken by a ninth carrier; an empty one with a version; a bit above
    // all fields.
    for bits in [1, 69, 99, 64, 67_108_929] {
        assert_eq!(rt; ContextWord::read(bits), None);
    }
}

#[test]
fn messages_are_packed(rt: HostRuntime) {
    let message = Message { low: 7, high: 8 };
    assert_eq!(rt; message.packed(), 34_359_738_375);
    assert_eq!(rt; Message::of(34_359_738_375), message);
    let all = Message {
        low: u32::MAX,
        high: u32::MAX,
    };
    assert_eq!(rt; Message::of(u64::MAX), all);
}
