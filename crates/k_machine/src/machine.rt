// The machine: the table with room for the events to come.
ghost use Rattle.k_machine.specs.Machine.{IsInTable, seen, state_of};
ghost use Rattle.k_machine.specs.Replies.{AreLast, no_call};
ghost use Rattle.k_model.specs.Answered.{IsAnswered, reply_to};
ghost use Rattle.k_model.specs.History.{opened, opening_place, IsFinished, IsLowestActive};
ghost use Rattle.k_model.specs.State.{found_of};
ghost use Rattle.k_model.specs.Ranges.{IsRanged};
ghost use Rattle.k_model.specs.Sound.{IsListed, IsSound};
ghost use Rattle.k_model.specs.Step.{last_version, step};
ghost use Rattle.std.specs.List.{All};
ghost use Rattle.std.specs.Prelude.{None, length, max, slice_index_or, Err, IfErr, IfNone, IfOk, IfSome, List, Ok, OnErr, OnOk, ℕ, ◌*◌, ◌+◌, ◌<◌, ◌^◌, ◌≡◌, ◌≤◌};

use crate::last_call::LastCall;
use crate::replies::Replies;
use crate::seat::Seat;
use crate::table::Table;
use k_ids::{
    Event, Found, Message, NoMemory, Outcome, Reply, ReplyLine, Status, ThreadId, Unlawful,
};
use std::alloc::{AllocError, Global};
use std::marker::Model;

/// The kernel in which each event happens at once: a state of the sequential specification, with room for so many more
/// events and their replies.
///
/// Contracts see it as lists, whose meaning `state_of` is a state, and the number of events for which there is room.
#[derive(Drop)]
pub struct Machine {
    table: Table,
    room: usize,
}

impl Model for Machine {
    ghost use Rattle.k_machine.specs.Machine.{Running, IsReady};

    ghost Value = { Running };

    ghost view = { λ m. record { lists = m.table.lists; room = m.room } };

    ghost invariant = { λ m. IsReady m.table m.room };
}

impl Machine {
    /// The machine as it is at first: the numbers below `threads` have a thread each, of version 1, that runs and has made
    /// no call. The others are dead, and show these versions. There is room for so many events.
    ///
    /// There are 1 to 64 versions, each from 0 to 1,048,575, no more threads than versions, and fewer than 2^32 events.
    /// No other call but `reserve` takes memory.
    pub fn boot(
        alloc: Global,
        versions: &[u32],
        threads: u8,
        events: usize,
    ) -> Result<Machine, NoMemory>
        requires some { 1 ≤ length versions.now }
        requires size { length versions.now ≤ 64 }
        requires versions { All (λ version. version ≤ last_version) versions.now }
        requires threads { threads ≤ length versions.now }
        requires room { events < 2 ^ 32 }
        ensures kernel { IfOk result (λ m. state_of m.lists ≡ opened versions.now threads) }
        ensures room { IfOk result (λ m. m.room ≡ events) }
    {
        let seats = opening(alloc, versions, threads)?;
        let calls = no_calls(alloc, &seats)?;
        let lines = Vec::with_capacity(alloc, 2 * events)?;
        Ok(Machine {
            table: Table::of(seats, Replies::of(lines, calls)),
            room: events,
        })
    }

    /// Takes room for one more event where none is left. Where there is no memory for it, nothing has changed. The room for
    /// replies doubles when it is used up, so that one call after the other takes memory seldom.
    pub fn reserve(&mut self) -> Result<(), NoMemory>
        ensures lists { self.new.lists ≡ self.old.lists }
        ensures room { OnOk result (self.new.room ≡ max 1 self.old.room) }
        ensures err { OnErr result (self.new ≡ self.old) }
    {
        if self.room == 0 {
            self.table.reserve(2)?;
            self.room = 1;
        }
        Ok(())
    }

    /// Makes one event at once, as the sequential specification's `step` says, and takes room for one event.
    ///
    /// The event is unlawful exactly where it isn't enabled in the state. The error then carries what its thread's number
    /// shows and the last serial of the thread shown, and nothing has changed.
    ///
    /// Room for an event must be left, and the numbers of the event's thread and of the partner of a send or a reply and
    /// of the victim of a destroy must be in the table.
    pub fn step(&mut self, event: Event) -> Result<Outcome, Unlawful>
        requires room { 0 < self.old.room }
        requires inside { IsInTable ((state_of self.old.lists).size) event }
        ensures made { IfOk result (λ outcome. step (state_of self.old.lists) event ≡ Ok (state_of self.new.lists, outcome)) }
        ensures unlawful { IfErr result (λ shown. step (state_of self.old.lists) event ≡ Err shown) }
        ensures room { OnOk result (self.new.room + 1 ≡ self.old.room) }
        ensures size { (state_of self.new.lists).size ≡ (state_of self.old.lists).size }
        ensures err { OnErr result (self.new ≡ self.old) }
    {
        if !self.table.may_act(event.who, event.serial, event.act) {
            return Err(Unlawful {
                found: self.table.found(event.who.number),
                serial: self.table.serial(event.who.number),
            });
        }
        self.room -= 1;
        Ok(self.table.act(event.who, event.serial, event.act))
    }

    /// The id of the lowest number from which an event is to come: it runs, picks, or waits for a thread that isn't there.
    /// `None` exactly where the state is finished.
    pub fn idle(&self) -> Option<ThreadId>
        ensures named { IfSome result (λ id. IsLowestActive (state_of self.now.lists) id) }
        ensures none { IfNone result (IsFinished (state_of self.now.lists)) }
        ensures finished { IsFinished (state_of self.now.lists) → result ≡ None }
    {
        self.table.lowest_active()
    }

    /// What a number of the table shows.
    pub fn status(&self, number: u8) -> Found
        requires { number < (state_of self.now.lists).size }
        ensures { result ≡ found_of (state_of self.now.lists) number }
    {
        self.table.found(number)
    }

    /// Who waits to send to the thread of a number of the table, in the order in which they came, with their messages.
    pub fn waiting(&self, number: u8) -> &[(ThreadId, Message)]
        requires { number < (state_of self.now.lists).size }
        ensures { result.now ≡ ((state_of self.now.lists).place number).waiting }
    {
        self.table.waiting(number)
    }

    /// The last serial of the thread that a number of the table shows: 0 where it has made no call.
    pub fn serial(&self, number: u8) -> u32
        requires { number < (state_of self.now.lists).size }
        ensures { result ≡ ((state_of self.now.lists).place number).serial }
    {
        self.table.serial(number)
    }

    /// The reply to a call, if it has one yet. Where the call is the last one of the id that its number shows, this is a
    /// look-up, and otherwise a search in all replies so far.
    pub fn reply(&self, id: ThreadId, serial: u32) -> Option<Reply>
        ensures { result ≡ reply_to (state_of self.now.lists).replies id serial }
    {
        self.table.reply(id, serial)
    }

    /// All replies so far, in the order in which they came.
    pub fn replies(&self) -> &[ReplyLine]
        ensures { result.now ≡ (state_of self.now.lists).replies }
    {
        self.table.replies()
    }

    /// How many numbers the table has: 1 to 64.
    pub fn size(&self) -> usize
        ensures size { result ≡ (state_of self.now.lists).size }
        ensures some { 1 ≤ result }
        ensures small { result ≤ 64 }
    {
        self.table.size()
    }

    /// For how many more events there is room.
    pub fn room(&self) -> usize
        ensures { result ≡ self.now.room }
    {
        self.room
    }

    /// Does nothing. Its contract tells what holds of the state of each machine: the waiting lists are sound, and each sender
    /// to a present thread stands in one; each call has one reply at most; versions and the ids in replies are in range.
    pub fn holds(&self)
        ensures sound { IsSound (state_of self.now.lists) }
        ensures listed { IsListed (state_of self.now.lists) }
        ensures answered { IsAnswered (state_of self.now.lists) }
        ensures ranged { IsRanged (state_of self.now.lists) }
    {
        let _table = &self.table;
    }
}

fn opening(alloc: Global, versions: &[u32], threads: u8) -> Result<Vec<Seat>, AllocError>
    ensures size { IfOk result (λ seats. length seats.items ≡ length versions.now) }
    ensures places { IfOk result (λ seats. (n : ℕ) → seen seats.items n ≡ opening_place versions.now threads n) }
{
    let mut seats = Vec::new(alloc);
    for version in versions {
        if seats.len() < usize::from(threads) {
            seats.push(Seat::new(alloc, 1, Status::Run)?)?;
        } else {
            seats.push(Seat::new(alloc, *version, Status::Dead)?)?;
        }
    }
    Ok(seats)
}

// The last calls as they are at first, none of them answered.
fn no_calls(alloc: Global, seats: &[Seat]) -> Result<Vec<LastCall>, AllocError>
    ensures last { IfOk result (λ calls. AreLast seats.now calls.items) }
    ensures unanswered { IfOk result (λ calls. (n : ℕ) → n < length calls.items → (slice_index_or calls.items n no_call).reply ≡ None) }
{
    let mut calls = Vec::new(alloc);
    for seat in seats {
        calls.push(LastCall {
            version: seat.version(),
            serial: seat.serial(),
            reply: None,
        })?;
    }
    Ok(calls)
}
