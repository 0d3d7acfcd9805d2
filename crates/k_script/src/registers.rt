// The registers of a thread, and the calls that are made of them.
ghost use Rattle.std.specs.Prelude.{◌≡◌, option_map};
ghost use Rattle.k_ids.specs.declared.calls.Phase.TheVariants as phase;
ghost use Rattle.k_script.specs.Plays.{reply_phase, filled, id_of, value_of, message_of, phase_of, next_for};

use crate::operation::{Operation, Value, Who};
use k_ids::{Message, Phase, Reply, ThreadId};

/// What a thread does next.
#[derive(Clone, Copy, Debug, PartialEq, Eq)]
pub enum Next {
    /// Its next call.
    Phase(Phase),
    /// So many loads of its own state word, and no call: 1 to 4,294,967,295.
    Work(u32),
}

/// The registers of a thread, which are filled from the replies to its calls.
#[derive(Clone, Copy, Debug, PartialEq, Eq)]
pub struct Registers {
    /// The sender of the message last got.
    pub last: ThreadId,
    /// The thread last made.
    pub created: ThreadId,
    /// The message last got.
    pub got: Message,
}

impl Registers {
    pub(crate) fn filled(self, last: Option<Reply>) -> Registers
        ensures { result ≡ filled self last }
    {
        match last {
            Some(Reply::Got { from, message }) => Registers {
                last: from,
                got: message,
                ..self
            },
            Some(Reply::Made { id }) => Registers {
                created: id,
                ..self
            },
            _ => self,
        }
    }

    fn id(self, who: Who) -> ThreadId
        ensures { result ≡ id_of self who }
    {
        match who {
            Who::Number(number) => ThreadId { number, version: 1 },
            Who::Last => self.last,
            Who::Made => self.created,
        }
    }

    fn value(self, value: Value) -> u32
        ensures { result ≡ value_of self value }
    {
        match value {
            Value::Number(number) => number,
            Value::Got0 => self.got.low,
            Value::Got1 => self.got.high,
        }
    }

    fn message(self, low: Value, high: Value) -> Message
        ensures { result ≡ message_of self low high }
    {
        Message {
            low: self.value(low),
            high: self.value(high),
        }
    }

    fn reply_phase(self, version: u8, message: Message, zero: bool) -> Phase
        ensures { result ≡ reply_phase version self.last message zero }
    {
        let to = self.last;
        if version == 2 {
            Phase::Reply { to, message, zero }
        } else {
            Phase::Send {
                to,
                message,
                zero,
                joined: false,
            }
        }
    }

    fn send_phase(self, to: Who, message: Message, zero: bool, joined: bool) -> Phase
        ensures { result ≡ phase.Send (id_of self to) message zero joined }
    {
        let to = self.id(to);
        Phase::Send {
            to,
            message,
            zero,
            joined,
        }
    }

    fn sender(self, from: Option<Who>) -> Option<ThreadId>
        ensures { result ≡ option_map (id_of self) from }
    {
        match from {
            None => None,
            Some(from) => Some(self.id(from)),
        }
    }

    fn phase(self, version: u8, operation: Operation) -> Phase
        ensures { result ≡ phase_of version self operation }
    {
        match operation {
            Operation::Send {
                to,
                low,
                high,
                zero,
            } => self.send_phase(to, self.message(low, high), zero, false),
            Operation::Receive { from, zero } => Phase::Receive {
                from: self.sender(from),
                zero,
            },
            Operation::Call {
                to,
                low,
                high,
                zero,
            } => self.send_phase(to, self.message(low, high), zero, true),
            Operation::Reply { low, high, zero } => {
                self.reply_phase(version, self.message(low, high), zero)
            }
            Operation::Create { program, priority } => Phase::Create { program, priority },
            Operation::Destroy { who } => Phase::Destroy { who: self.id(who) },
            Operation::Work { .. } | Operation::Repeat { .. } | Operation::Again => Phase::End,
        }
    }

    pub(crate) fn next(self, version: u8, operation: Operation) -> Next
        ensures { result ≡ next_for version self operation }
    {
        match operation {
            Operation::Work { count } => Next::Work(count),
            operation => Next::Phase(self.phase(version, operation)),
        }
    }
}
