// The place of a thread in its program, and what it does next.
ghost use Rattle.std.specs.Prelude.{◌≡◌, ◌&&◌, true, false};
ghost use Rattle.k_script.specs.Script.{Script};
ghost use Rattle.k_script.specs.Limits.{IsScript};
ghost use Rattle.k_script.specs.Place.{position_in, IsPlace};
ghost use Rattle.k_script.specs.Plays.{start_of, phase_next, moved, next_of, went_on, is_sent, is_reply};

use crate::cursor::Cursor;
use crate::operation::Operation;
use crate::registers::{Next, Registers};
use crate::script::Script;
use k_ids::{Message, Phase, Reply, ThreadId};
use std::marker::Model;

/// The place of a thread in its program. It has a constant size.
#[derive(Clone, Copy)]
pub struct Position {
    registers: Registers,
    replying: bool,
    program: u8,
    cursor: Cursor,
    ended: bool,
}

impl Model for Position {
    ghost use Rattle.k_script.specs.Place.{Place};

    ghost Value = { Place };

    ghost view = { λ p. record { registers = p.registers; replying = p.replying; program = p.program; cursor = p.cursor; ended = p.ended } };

    ghost inverse = { λ p. record { registers = p.registers; replying = p.replying; program = p.program; cursor = p.cursor; ended = p.ended } };
}

impl Position {
    /// The start of a program, for this thread. A number that is no program's has the empty program.
    pub fn start(program: u8, me: ThreadId) -> Position
        ensures start { (script : Script) → IsScript script → position_in script result ≡ start_of script program me }
        ensures placed { (script : Script) → IsScript script → IsPlace script result }
    {
        Position {
            registers: Registers {
                last: me,
                created: me,
                got: Message { low: 0, high: 0 },
            },
            replying: false,
            program,
            cursor: Cursor::start(),
            ended: false,
        }
    }

    /// Whether the open receive of a reply comes next.
    fn waits(&self, last: Option<Reply>) -> bool
        ensures { result ≡ (self.now.replying && is_sent last) }
    {
        self.replying && is_sent(last)
    }
}

fn is_sent(last: Option<Reply>) -> bool
    ensures { result ≡ is_sent last }
{
    match last {
        Some(Reply::Sent) => true,
        _ => false,
    }
}

fn is_reply(operation: Operation) -> bool
    ensures { result ≡ is_reply operation }
{
    match operation {
        Operation::Reply { .. } => true,
        _ => false,
    }
}

/// Takes in the reply to the last phase, None at the start and after work, and answers what comes next: the next operation of
/// the program written out, or the end behind the last.
///
/// It reads eight repeats and agains at most, twice as many as may be open: the agains of the repeats that end behind the last
/// operation, one for the next turn of a repeat, and the repeats that begin before the next operation. Those with nothing in
/// them it passes over all at once, as many as there are, since the script keeps where they end.
///
/// Condition: the position was used with this script alone.
pub fn next_phase(script: &Script, position: &mut Position, last: Option<Reply>) -> Next
    requires { IsPlace script.now position.old }
    ensures next { result ≡ next_of script.now.version (position_in script.now position.old) last }
    ensures went { position_in script.now position.new ≡ went_on (position_in script.now position.old) last }
    ensures placed { IsPlace script.now position.new }
{
    if position.ended {
        return Next::Phase(Phase::End);
    }
    let waits = position.waits(last);
    position.registers = position.registers.filled(last);
    position.replying = false;
    if waits {
        return Next::Phase(Phase::Receive {
            from: None,
            zero: false,
        });
    }
    let program = position.program;
    let Some(operation) = position
        .cursor
        .next(script.listed(program), script.skips(program))
    else {
        position.ended = true;
        return Next::Phase(Phase::End);
    };
    position.replying = is_reply(operation);
    position.registers.next(script.version(), operation)
}

/// Takes in the reply to the last phase, None at the start, and answers the next phase. Work is passed over.
///
/// Condition: the position was used with this script alone.
pub fn next_call(script: &Script, position: &mut Position, last: Option<Reply>) -> Phase
    requires { IsPlace script.now position.old }
    ensures phase { result ≡ phase_next script.now.version (position_in script.now position.old) last }
    ensures moved { position_in script.now position.new ≡ moved (position_in script.now position.old) last }
    ensures placed { IsPlace script.now position.new }
{
    let mut reply = last;
    loop {
        match next_phase(script, position, reply) {
            Next::Phase(phase) => return phase,
            Next::Work(_) => reply = None,
        }
    }
}
