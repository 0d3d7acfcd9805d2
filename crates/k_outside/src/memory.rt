// A source and a sink in memory, which fail at given calls. Neither takes memory.
ghost use Rattle.std.specs.Prelude.{◌≡◌, ◌≤◌, ◌<◌, Some, List, length, vec_len, IfOk, is_err};
ghost use Rattle.k_outside.specs.Outside.{HasCause, Puts, Takes};
ghost use Rattle.k_outside.specs.Memory.{after_put, after_take, filled, new_sink, new_source, put_count, put_fails, take_count, take_fails};

use crate::source::{Failed, Sink, Source};
use std::marker::Model;

/// A source of given bytes, whose calls of given numbers fail.
#[derive(Drop)]
pub struct MemSource {
    bytes: Vec<u8>,
    /// How many bytes were taken.
    at: usize,
    fails: Vec<u32>,
    calls: u32,
    faults: u64,
}

impl Model for MemSource {
    ghost use Rattle.std.specs.Prelude.{◌≤◌, drop, vec_len};
    ghost use Rattle.k_outside.specs.Memory.{SourceState};

    ghost Value = { SourceState };

    ghost view = { λ s. record { left = drop s.at s.bytes.items; fails = s.fails.items; calls = s.calls; faults = s.faults } };

    ghost invariant = { λ s. s.at ≤ vec_len s.bytes };
}

impl MemSource {
    /// A source of these bytes. Its calls are counted from 0, and those whose numbers stand in `fails` fail. The number of
    /// a call stands still at 4,294,967,295.
    pub fn of(bytes: Vec<u8>, fails: Vec<u32>) -> MemSource
        ensures { result ≡ new_source bytes.items fails.items }
    {
        MemSource {
            bytes,
            at: 0,
            fails,
            calls: 0,
            faults: 0,
        }
    }

    /// How many calls have failed. The count stands still at 18,446,744,073,709,551,615.
    pub fn faults(&self) -> u64
        ensures { result ≡ self.now.faults }
    {
        self.faults
    }
}

impl Source for MemSource {
    ghost left = { λ s. Some s.left };

    ghost faults = { λ s. s.faults };

    /// Takes as many bytes as the buffer has room for and as are left, or fails, exactly where the number of this call is
    /// one of those that fail. The rest of the buffer stays as it was.
    fn take(&mut self, into: &mut [u8]) -> Result<usize, Failed>
        requires { 0 < length into.old }
        ensures bound { IfOk result (λ k. k ≤ length into.old) }
        ensures bytes { Takes (Some self.old.left) (Some self.new.left) result into.new }
        ensures cause { HasCause self.old.faults self.new.faults result }
        ensures failing { is_err result ≡ take_fails self.old }
        ensures count { IfOk result (λ k. k ≡ take_count self.old into.old) }
        ensures state { self.new ≡ after_take self.old into.old }
        ensures buffer { into.new ≡ filled self.old into.old }
    {
        let call = self.calls;
        self.calls = call.saturating_add(1);
        if self.fails.contains(&call) {
            self.faults = self.faults.saturating_add(1);
            return Err(Failed);
        }
        let count = into.len().min(self.bytes.len() - self.at);
        let end = self.at + count;
        into[..count].copy_from_slice(&self.bytes[self.at..end]);
        self.at = end;
        Ok(count)
    }
}

/// A sink with room for so many bytes, whose calls of given numbers fail.
#[derive(Drop)]
pub struct MemSink {
    room: Vec<u8>,
    /// How many bytes it holds, in the front of its room.
    len: usize,
    fails: Vec<u32>,
    calls: u32,
    faults: u64,
}

impl Model for MemSink {
    ghost use Rattle.std.specs.Prelude.{◌≤◌, take, vec_len};
    ghost use Rattle.k_outside.specs.Memory.{SinkState};

    ghost Value = { SinkState };

    ghost view = { λ s. record { held = take s.len s.room.items; room = vec_len s.room; fails = s.fails.items; calls = s.calls; faults = s.faults } };

    ghost invariant = { λ s. s.len ≤ vec_len s.room };
}

impl MemSink {
    /// An empty sink, which holds at most as many bytes as stand in `room`. Its calls are counted from 0, and those whose
    /// numbers stand in `fails` fail. The number of a call stands still at 4,294,967,295.
    pub fn of(room: Vec<u8>, fails: Vec<u32>) -> MemSink
        ensures { result ≡ new_sink (length room.items) fails.items }
    {
        MemSink {
            room,
            len: 0,
            fails,
            calls: 0,
            faults: 0,
        }
    }

    /// The bytes that it holds.
    pub fn bytes(&self) -> &[u8]
        ensures { result.now ≡ self.now.held }
    {
        &self.room[..self.len]
    }

    /// How many calls have failed. The count stands still at 18,446,744,073,709,551,615.
    pub fn faults(&self) -> u64
        ensures { result ≡ self.now.faults }
    {
        self.faults
    }
}

impl Sink for MemSink {
    ghost held = { λ s. Some s.held };

    ghost faults = { λ s. s.faults };

    /// Appends as many bytes as the piece has and as there is room for, or fails, exactly where the number of this call is
    /// one of those that fail or no room is left.
    fn put(&mut self, piece: &[u8]) -> Result<usize, Failed>
        requires { 0 < length piece.now }
        ensures some { IfOk result (λ k. 0 < k) }
        ensures bound { IfOk result (λ k. k ≤ length piece.now) }
        ensures bytes { Puts (Some self.old.held) (Some self.new.held) result piece.now }
        ensures cause { HasCause self.old.faults self.new.faults result }
        ensures failing { is_err result ≡ put_fails self.old }
        ensures count { IfOk result (λ k. k ≡ put_count self.old piece.now) }
        ensures state { self.new ≡ after_put self.old piece.now }
    {
        let call = self.calls;
        self.calls = call.saturating_add(1);
        if self.fails.contains(&call) || self.len == self.room.len() {
            self.faults = self.faults.saturating_add(1);
            return Err(Failed);
        }
        let count = piece.len().min(self.room.len() - self.len);
        let end = self.len + count;
        self.room[self.len..end].copy_from_slice(&piece[..count]);
        self.len = end;
        Ok(count)
    }
}
