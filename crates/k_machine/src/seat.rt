// A number of the table, with room for all that may wait to send to it.
ghost use Rattle.std.specs.Prelude.{◌≡◌, ◌+◌, ◌<◌, ◌++◌, ◌∷◌, [], length, remove, slice_index_or, IfOk, false};
ghost use Rattle.k_model.specs.Step.{no_one, left_by};
ghost use Rattle.k_ids.specs.declared.threads.Status.TheVariants as status;

use crate::ids::is_same;
use k_ids::{Message, Status, ThreadId};
use std::alloc::{AllocError, Global};
use std::marker::Model;

pub const MOST_THREADS: usize = 64;

#[derive(Drop)]
pub struct Seat {
    version: u32,
    status: Status,
    joined: bool,
    serial: u32,
    waiting: Vec<(ThreadId, Message)>,
}

impl Model for Seat {
    ghost use Rattle.std.specs.Prelude.{◌≤◌, vec_capacity};
    ghost use Rattle.k_model.specs.State.{Place};

    ghost Value = { Place };

    ghost view = { λ s. record { version = s.version; status = s.status; joined = s.joined; serial = s.serial; waiting = s.waiting.items } };

    ghost invariant = { λ s. 64 ≤ vec_capacity s.waiting };
}

impl Seat {
    /// A number with this version and status, for which no phase was made.
    pub fn new(alloc: Global, version: u32, status: Status) -> Result<Seat, AllocError>
        ensures { IfOk result (λ s. s ≡ record { version = version; status = status; joined = false; serial = 0; waiting = [] }) }
    {
        let waiting = Vec::with_capacity(alloc, MOST_THREADS)?;
        Ok(Seat {
            version,
            status,
            joined: false,
            serial: 0,
            waiting,
        })
    }

    pub fn version(&self) -> u32
        ensures { result ≡ self.now.version }
    {
        self.version
    }

    pub fn status(&self) -> Status
        ensures { result ≡ self.now.status }
    {
        self.status
    }

    pub fn joined(&self) -> bool
        ensures { result ≡ self.now.joined }
    {
        self.joined
    }

    pub fn serial(&self) -> u32
        ensures { result ≡ self.now.serial }
    {
        self.serial
    }

    pub fn waiting(&self) -> &[(ThreadId, Message)]
        ensures { result.now ≡ self.now.waiting }
    {
        &self.waiting
    }

    pub fn set_status(&mut self, status: Status)
        ensures { self.new ≡ record self.old { status = status; joined = false } }
    {
        self.status = status;
        self.joined = false;
    }

    pub fn set_serial(&mut self, serial: u32)
        ensures { self.new ≡ record self.old { serial = serial } }
    {
        self.serial = serial;
    }

    /// The thread waits to send.
    pub fn send(&mut self, to: ThreadId, joined: bool)
        ensures { self.new ≡ record self.old { status = status.Sending to; joined = joined } }
    {
        self.status = Status::Sending { to };
        self.joined = joined;
    }

    pub fn push(&mut self, who: ThreadId, message: Message)
        requires { length self.old.waiting < 64 }
        ensures { self.new ≡ record self.old { waiting = self.old.waiting ++ (who, message) ∷ [] } }
    {
        self.waiting.push_reserved((who, message));
    }

    pub fn remove(&mut self, at: usize) -> (ThreadId, Message)
        requires { at < length self.old.waiting }
        ensures entry { result ≡ slice_index_or self.old.waiting at no_one }
        ensures rest { self.new ≡ record self.old { waiting = remove self.old.waiting at } }
    {
        self.waiting.remove(at)
    }

    /// A thread leaves the list.
    pub fn leave(&mut self, who: ThreadId)
        ensures { self.new ≡ left_by who self.old }
    {
        self.waiting.retain(|w| !is_same(w.0, who));
    }

    /// The thread is dead, and nobody waits for it.
    pub fn end(&mut self)
        ensures { self.new ≡ record self.old { status = status.Dead; joined = false; waiting = [] } }
    {
        self.joined = false;
        self.status = Status::Dead;
        self.waiting.clear();
    }

    /// The number gets a new thread.
    pub fn renew(&mut self)
        requires { self.old.version < 1048575 }
        ensures { self.new ≡ record self.old { version = self.old.version + 1; status = status.Run; joined = false; serial = 0 } }
    {
        self.joined = false;
        self.version += 1;
        self.status = Status::Run;
        self.serial = 0;
    }
}
