// The numbers and the replies, with room for replies: what can be read of them, and each single change.
ghost use Rattle.k_machine.specs.Machine.{state_of};
ghost use Rattle.k_ids.specs.declared.threads.ThreadId.{ThreadId};
ghost use Rattle.k_machine.specs.Replies.{AreLast};
ghost use Rattle.k_model.specs.Answered.{reply_to};
ghost use Rattle.k_model.specs.Maps.{count, lowest};
ghost use Rattle.k_model.specs.State.{answered, found_of, id_of, is_present, takes_from, waits_for_absent, with_place, with_status};
ghost use Rattle.k_ids.specs.declared.threads.Status.TheVariants as status;
ghost use Rattle.k_model.specs.Step.{alive, called, entry_at, is_free, killed, left_everywhere, match_at, queued, renewed, without, worn};
ghost use Rattle.std.specs.Prelude.{None, OnOk, false, length, vec_capacity, vec_len, ℕ, [], ◌∷◌, ◌++◌, ◌+◌, ◌-◌, ◌<◌, ◌≡◌, ◌≤◌, true};

use crate::ids::{admits, first_admitted};
use crate::replies::Replies;
use crate::seat::Seat;
use k_ids::{Found, Message, Reply, ReplyLine, Status, ThreadId};
use std::alloc::AllocError;
use std::marker::Model;

#[derive(Drop)]
pub struct Table {
    seats: Vec<Seat>,
    replies: Replies,
}

impl Model for Table {
    ghost use Rattle.k_machine.specs.Machine.{KernelTable};
    ghost use Rattle.k_machine.specs.Replies.{AreLast};

    ghost Value = { KernelTable };

    ghost view = { λ t. record { lists = record { places = t.seats.items; replies = t.replies.lines }; spare = t.replies.spare } };

    ghost invariant = { λ t. AreLast t.seats.items t.replies.calls };
}

impl Table {
    pub fn of(seats: Vec<Seat>, replies: Replies) -> Table
        requires { AreLast seats.items replies.calls }
        ensures lists { result.lists ≡ record { places = seats.items; replies = replies.lines } }
        ensures spare { result.spare ≡ replies.spare }
    {
        Table { seats, replies }
    }

    /// Takes room for so many more replies. Where there is none, nothing has changed.
    pub fn reserve(&mut self, count: usize) -> Result<(), AllocError>
        ensures lists { self.new.lists ≡ self.old.lists }
        ensures room { OnOk result (count ≤ self.new.spare) }
        ensures spare { self.old.spare ≤ self.new.spare }
    {
        self.replies.reserve(count)
    }

    #[tactic(auto, unfolding(crate::specs::Machine::state_of))]
    pub fn size(&self) -> usize
        ensures { result ≡ (state_of self.now.lists).size }
    {
        self.seats.len()
    }

    #[tactic(auto, unfolding(crate::specs::Machine::state_of))]
    pub fn replies(&self) -> &[ReplyLine]
        ensures { result.now ≡ (state_of self.now.lists).replies }
    {
        self.replies.lines()
    }

    /// The reply to the last call of the thread that a number shows, if it has one yet. This is a look-up.
    #[tactic(auto, unfolding(crate::specs::Machine::state_of, crate::specs::Machine::seen))]
    pub fn last_reply(&self, number: u8) -> Option<Reply>
        requires { number < (state_of self.now.lists).size }
        ensures { result ≡ reply_to (state_of self.now.lists).replies (id_of (state_of self.now.lists) number) ((state_of self.now.lists).place number).serial }
    {
        self.replies.last(number)
    }

    #[tactic(auto, unfolding(crate::specs::Machine::state_of))]
    fn search(&self, id: ThreadId, serial: u32) -> Option<Reply>
        ensures { result ≡ reply_to (state_of self.now.lists).replies id serial }
    {
        self.replies.search(id, serial)
    }

    /// The reply to a call, if it has one yet. Where the call is the last one of the id that its number shows, this is a
    /// look-up.
    pub fn reply(&self, id: ThreadId, serial: u32) -> Option<Reply>
        ensures { result ≡ reply_to (state_of self.now.lists).replies id serial }
    {
        let number = id.number;
        if (number as usize) < self.size()
            && self.version(number) == id.version
            && self.serial(number) == serial
        {
            self.last_reply(number)
        } else {
            self.search(id, serial)
        }
    }

    #[tactic(auto, unfolding(crate::specs::Machine::state_of, crate::specs::Machine::seen))]
    pub fn version(&self, number: u8) -> u32
        requires { number < (state_of self.now.lists).size }
        ensures { result ≡ ((state_of self.now.lists).place number).version }
    {
        self.seats[number as usize].version()
    }

    #[tactic(auto, unfolding(crate::specs::Machine::state_of, crate::specs::Machine::seen))]
    pub fn status(&self, number: u8) -> Status
        requires { number < (state_of self.now.lists).size }
        ensures { result ≡ ((state_of self.now.lists).place number).status }
    {
        self.seats[number as usize].status()
    }

    #[tactic(auto, unfolding(crate::specs::Machine::state_of, crate::specs::Machine::seen))]
    pub fn joined(&self, number: u8) -> bool
        requires { number < (state_of self.now.lists).size }
        ensures { result ≡ ((state_of self.now.lists).place number).joined }
    {
        self.seats[number as usize].joined()
    }

    #[tactic(auto, unfolding(crate::specs::Machine::state_of, crate::specs::Machine::seen))]
    pub fn serial(&self, number: u8) -> u32
        requires { number < (state_of self.now.lists).size }
        ensures { result ≡ ((state_of self.now.lists).place number).serial }
    {
        self.seats[number as usize].serial()
    }

    #[tactic(auto, unfolding(crate::specs::Machine::state_of, crate::specs::Machine::seen))]
    pub fn waiting(&self, number: u8) -> &[(ThreadId, Message)]
        requires { number < (state_of self.now.lists).size }
        ensures { result.now ≡ ((state_of self.now.lists).place number).waiting }
    {
        self.seats[number as usize].waiting()
    }

    pub fn found(&self, number: u8) -> Found
        requires { number < (state_of self.now.lists).size }
        ensures { result ≡ found_of (state_of self.now.lists) number }
    {
        Found {
            id: ThreadId {
                number,
                version: self.version(number),
            },
            status: self.status(number),
        }
    }

    #[tactic(auto, unfolding(crate::specs::Machine::state_of, crate::specs::Machine::seen))]
    pub fn is_present(&self, id: ThreadId) -> bool
        ensures { result ≡ is_present (state_of self.now.lists) id }
    {
        let number = id.number as usize;
        if number < self.seats.len() {
            let seat = &self.seats[number];
            seat.version() == id.version && seat.status() != Status::Dead
        } else {
            false
        }
    }

    /// Whether a number's thread takes a message of this sender at once.
    pub fn takes_from(&self, number: u8, who: ThreadId, zero: bool) -> bool
        requires { number < (state_of self.now.lists).size }
        ensures { result ≡ takes_from ((state_of self.now.lists).place number).status who zero }
    {
        match self.status(number) {
            Status::Receiving { from } => admits(from, who),
            Status::Picking => zero,
            _ => false,
        }
    }

    /// Whether a thread of this status waits for one id that isn't present.
    pub fn waits_for_absent(&self, status: Status) -> bool
        ensures { result ≡ waits_for_absent (state_of self.now.lists) status }
    {
        match status {
            Status::Sending { to } => !self.is_present(to),
            Status::Receiving { from: Some(from) } => !self.is_present(from),
            _ => false,
        }
    }

    /// Where the first sender stands that the receiver wants.
    #[tactic(auto, unfolding(crate::specs::Machine::state_of, crate::specs::Machine::seen))]
    pub fn first(&self, me: ThreadId, from: Option<ThreadId>) -> Option<usize>
        requires { me.number < (state_of self.now.lists).size }
        ensures { result ≡ match_at (state_of self.now.lists) me from }
    {
        let seat = &self.seats[me.number as usize];
        first_admitted(seat.waiting(), from)
    }

    #[tactic(auto, unfolding(crate::specs::Machine::state_of, crate::specs::Machine::seen))]
    pub fn entry(&self, number: u8, at: usize) -> (ThreadId, Message)
        requires inside { number < (state_of self.now.lists).size }
        requires entry { at < length ((state_of self.now.lists).place number).waiting }
        ensures { result ≡ entry_at (state_of self.now.lists) number at }
    {
        self.seats[number as usize].waiting()[at]
    }

    /// Whether a new thread may get the number.
    pub fn is_free(&self, number: u8) -> bool
        requires { number < (state_of self.now.lists).size }
        ensures { result ≡ is_free ((state_of self.now.lists).place number) }
    {
        self.status(number) == Status::Dead && self.version(number) < 1_048_575
    }

    #[tactic(auto, using(crate::proofs::Seen::state_set, crate::proofs::Lasts::last_set), unfolding(crate::specs::Machine::state_of, crate::specs::Machine::seen))]
    pub fn set_status(&mut self, number: u8, status: Status)
        requires { number < (state_of self.old.lists).size }
        ensures state { state_of self.new.lists ≡ with_status (state_of self.old.lists) number status }
        ensures spare { self.new.spare ≡ self.old.spare }
    {
        self.seats[number as usize].set_status(status);
    }

    /// The caller takes the serial of its call.
    #[tactic(auto, using(crate::proofs::Seen::state_set, crate::proofs::Lasts::last_set), unfolding(crate::specs::Machine::state_of, crate::specs::Machine::seen))]
    pub fn call(&mut self, who: ThreadId, serial: u32)
        requires caller { who.number < (state_of self.old.lists).size }
        requires version { ((state_of self.old.lists).place who.number).version ≡ who.version }
        requires unanswered { reply_to (state_of self.old.lists).replies who serial ≡ None }
        ensures state { state_of self.new.lists ≡ called (state_of self.old.lists) who serial }
        ensures spare { self.new.spare ≡ self.old.spare }
    {
        self.seats[who.number as usize].set_serial(serial);
        self.replies.expect(who, serial);
    }

    #[tactic(auto, unfolding(crate::specs::Machine::state_of))]
    pub fn answer(&mut self, id: ThreadId, serial: u32, reply: Reply)
        requires { 0 < self.old.spare }
        ensures state { state_of self.new.lists ≡ answered (state_of self.old.lists) id serial reply }
        ensures spare { self.new.spare + 1 ≡ self.old.spare }
    {
        self.replies.push(id, serial, reply);
    }

    /// The caller waits to send.
    #[tactic(auto, using(crate::proofs::Seen::state_set, crate::proofs::Lasts::last_set), unfolding(crate::specs::Machine::state_of, crate::specs::Machine::seen))]
    fn set_sending(&mut self, number: u8, to: ThreadId, joined: bool)
        requires { number < (state_of self.old.lists).size }
        ensures state { state_of self.new.lists ≡ with_place (state_of self.old.lists) number (record ((state_of self.old.lists).place number) { status = status.Sending to; joined = joined }) }
        ensures spare { self.new.spare ≡ self.old.spare }
    {
        self.seats[number as usize].send(to, joined);
    }

    /// A sender is the last in a number's list.
    #[tactic(auto, using(crate::proofs::Seen::state_set, crate::proofs::Lasts::last_set), unfolding(crate::specs::Machine::state_of, crate::specs::Machine::seen))]
    fn append(&mut self, number: u8, who: ThreadId, message: Message)
        requires inside { number < (state_of self.old.lists).size }
        requires room { length ((state_of self.old.lists).place number).waiting < 64 }
        ensures state { state_of self.new.lists ≡ with_place (state_of self.old.lists) number (record ((state_of self.old.lists).place number) { waiting = ((state_of self.old.lists).place number).waiting ++ (who, message) ∷ [] }) }
        ensures spare { self.new.spare ≡ self.old.spare }
    {
        self.seats[number as usize].push(who, message);
    }

    /// The sender waits in its partner's list.
    #[tactic(auto, unfolding(k_model::specs::Step::queued))]
    pub fn queue(&mut self, me: ThreadId, to: ThreadId, message: Message, joined: bool)
        requires caller { me.number < (state_of self.old.lists).size }
        requires partner { to.number < (state_of self.old.lists).size }
        requires room { (t : ℕ) → length ((state_of self.old.lists).place t).waiting < 64 }
        ensures state { state_of self.new.lists ≡ queued (state_of self.old.lists) me to message joined }
        ensures spare { self.new.spare ≡ self.old.spare }
    {
        self.set_sending(me.number, to, joined);
        self.append(to.number, me, message);
    }

    /// Takes an entry out of a number's list.
    #[tactic(auto, using(crate::proofs::Seen::state_set, crate::proofs::Lasts::last_set), unfolding(crate::specs::Machine::state_of, crate::specs::Machine::seen))]
    pub fn unqueue(&mut self, number: u8, at: usize)
        requires inside { number < (state_of self.old.lists).size }
        requires entry { at < length ((state_of self.old.lists).place number).waiting }
        ensures state { state_of self.new.lists ≡ without (state_of self.old.lists) number at }
        ensures spare { self.new.spare ≡ self.old.spare }
    {
        self.seats[number as usize].remove(at);
    }

    /// The number gets a new thread.
    #[tactic(auto, using(crate::proofs::Seen::state_set, crate::proofs::Lasts::last_set), unfolding(crate::specs::Machine::state_of, crate::specs::Machine::seen))]
    pub fn renew(&mut self, number: u8)
        requires inside { number < (state_of self.old.lists).size }
        requires free { ((state_of self.old.lists).place number).version < 1048575 }
        requires unanswered { (id : ThreadId) → reply_to (state_of self.old.lists).replies id 0 ≡ None }
        ensures state { state_of self.new.lists ≡ renewed (state_of self.old.lists) number }
        ensures spare { self.new.spare ≡ self.old.spare }
    {
        self.seats[number as usize].renew();
        let version = self.seats[number as usize].version();
        self.replies.expect(ThreadId { number, version }, 0);
    }

    /// A thread leaves every list.
    fn leave(&mut self, who: ThreadId)
        ensures state { state_of self.new.lists ≡ left_everywhere (state_of self.old.lists) who }
        ensures spare { self.new.spare ≡ self.old.spare }
    {
        for seat in self.seats.iter_mut() {
            seat.leave(who);
        }
    }

    #[tactic(auto, using(crate::proofs::Seen::state_set, crate::proofs::Lasts::last_set), unfolding(crate::specs::Machine::state_of, crate::specs::Machine::seen))]
    fn end(&mut self, number: u8)
        requires { number < (state_of self.old.lists).size }
        ensures state { state_of self.new.lists ≡ with_place (state_of self.old.lists) number (record ((state_of self.old.lists).place number) { status = status.Dead; joined = false; waiting = [] }) }
        ensures spare { self.new.spare ≡ self.old.spare }
    {
        self.seats[number as usize].end();
    }

    /// The thread is dead, and waits nowhere.
    #[tactic(auto, unfolding(k_model::specs::Step::killed))]
    pub fn kill(&mut self, who: ThreadId)
        requires { who.number < (state_of self.old.lists).size }
        ensures state { state_of self.new.lists ≡ killed (state_of self.old.lists) who }
        ensures spare { self.new.spare ≡ self.old.spare }
    {
        self.leave(who);
        self.end(who.number);
    }
}
