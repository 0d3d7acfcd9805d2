// The replies so far, and beside them each number's last call, whose reply is found without a search.
ghost use Rattle.k_machine.specs.Replies.{AreKept, AreSameCalls, no_call};
ghost use Rattle.k_model.specs.Answered.{reply_to};
ghost use Rattle.std.specs.List.{All};
ghost use Rattle.std.specs.Prelude.{None, OnOk, length, set, slice_index_or, vec_capacity, vec_len, ℕ, [], ◌∷◌, ◌++◌, ◌+◌, ◌-◌, ◌<◌, ◌≡◌, ◌≤◌};

use crate::ids::is_same;
use crate::last_call::LastCall;
use k_ids::{Reply, ReplyLine, ThreadId};
use std::alloc::AllocError;
use std::marker::Model;

/// The replies, in the order in which they came, with room for more.
#[derive(Drop)]
pub struct Replies {
    lines: Vec<ReplyLine>,
    calls: Vec<LastCall>,
}

impl Model for Replies {
    ghost use Rattle.k_machine.specs.Replies.{AreKept, Log};
    ghost use Rattle.std.specs.Prelude.{vec_capacity, vec_len, ◌-◌};

    ghost Value = { Log };

    ghost view = { λ r. record { lines = r.lines.items; calls = r.calls.items; spare = vec_capacity r.lines - vec_len r.lines } };

    ghost invariant = { λ r. AreKept r.lines.items r.calls.items };
}

impl Replies {
    /// No replies yet, and each number's thread as it is at first.
    pub fn of(lines: Vec<ReplyLine>, calls: Vec<LastCall>) -> Replies
        requires empty { lines.items ≡ [] }
        requires unanswered { (n : ℕ) → n < length calls.items → (slice_index_or calls.items n no_call).reply ≡ None }
        ensures lines { result.lines ≡ [] }
        ensures calls { result.calls ≡ calls.items }
        ensures spare { result.spare ≡ vec_capacity lines }
    {
        Replies { lines, calls }
    }

    pub fn lines(&self) -> &[ReplyLine]
        ensures { result.now ≡ self.now.lines }
    {
        &self.lines
    }

    /// Takes room for so many more replies. Where there is none, nothing has changed.
    pub fn reserve(&mut self, count: usize) -> Result<(), AllocError>
        ensures lines { self.new.lines ≡ self.old.lines }
        ensures calls { self.new.calls ≡ self.old.calls }
        ensures room { OnOk result (count ≤ self.new.spare) }
        ensures spare { self.old.spare ≤ self.new.spare }
    {
        self.lines.reserve(count)
    }

    /// One more reply.
    pub fn push(&mut self, id: ThreadId, serial: u32, reply: Reply)
        requires { 0 < self.old.spare }
        ensures lines { self.new.lines ≡ self.old.lines ++ record { id = id; serial = serial; reply = reply } ∷ [] }
        ensures calls { AreSameCalls self.old.calls self.new.calls }
        ensures spare { self.new.spare + 1 ≡ self.old.spare }
    {
        self.lines.push_reserved(ReplyLine { id, serial, reply });
        let number = id.number as usize;
        if number < self.calls.len() {
            self.calls[number].note(id.version, serial, reply);
        }
    }

    /// A thread makes a call, which is now the last one of its number.
    pub fn expect(&mut self, id: ThreadId, serial: u32)
        requires inside { id.number < length self.old.calls }
        requires unanswered { reply_to self.old.lines id serial ≡ None }
        ensures { self.new ≡ record self.old { calls = set self.old.calls id.number (record { version = id.version; serial = serial; reply = None }) } }
    {
        self.calls[id.number as usize] = LastCall {
            version: id.version,
            serial,
            reply: None,
        };
    }

    /// The reply to the last call of a number, if it has one yet. This is a look-up.
    pub fn last(&self, number: u8) -> Option<Reply>
        requires { number < length self.now.calls }
        ensures { result ≡ reply_to self.now.lines (record { number = number; version = (slice_index_or self.now.calls number no_call).version }) (slice_index_or self.now.calls number no_call).serial }
    {
        self.calls[number as usize].reply
    }

    /// The reply to any call, if it has one yet. This is a search in all replies.
    pub fn search(&self, id: ThreadId, serial: u32) -> Option<Reply>
        ensures { result ≡ reply_to self.now.lines id serial }
    {
        let line = self
            .lines
            .iter()
            .find(|line| is_same(line.id, id) && line.serial == serial)?;
        Some(line.reply)
    }
}
