// Standard input and output as a source and a sink.
//
// They are the trusted edge: nothing is claimed of what the system's streams give or take. What is proved is that the
// adapters themselves lose, change or add nothing, over any reader and writer.
ghost use Rattle.std.specs.Prelude.{◌≡◌, ◌≤◌, ◌<◌, [], length, IfOk, is_err, if◌then◌else◌};
ghost use Rattle.k_outside.specs.Outside.{Appends, HasCause, Puts, Takes};
ghost use Rattle.k_outside.specs.Memory.{one_more};

use crate::source::{Failed, Sink, Source};
use std::io::{Read, Write};

/// A reader as a source: standard input by `StdSource::of(rt.reader())`, which tells no bytes.
#[derive(Drop)]
pub struct StdSource<R> {
    reader: R,
    faults: u64,
}

impl<R: Read> StdSource<R> {
    pub fn of(reader: R) -> StdSource<R>
        ensures reader { result.reader ≡ reader }
        ensures none { result.faults ≡ 0 }
    {
        StdSource { reader, faults: 0 }
    }
}

impl<R: Read> Source for StdSource<R> {
    ghost left = { λ s. R.remaining s.reader };

    ghost faults = { λ s. s.faults };

    /// Reads once, and fails exactly where the reader does, an interrupted read among them. No clause says these two, since a
    /// reader tells nothing of its calls. Each failure is counted; the count stands still at 18,446,744,073,709,551,615.
    fn take(&mut self, into: &mut [u8]) -> Result<usize, Failed>
        requires { 0 < length into.old }
        ensures bound { IfOk result (λ k. k ≤ length into.old) }
        ensures bytes { Takes (R.remaining self.old.reader) (R.remaining self.new.reader) result into.new }
        ensures cause { HasCause self.old.faults self.new.faults result }
        ensures count { self.new.faults ≡ (if is_err result then one_more 64 self.old.faults else self.old.faults) }
    {
        match self.reader.read(into) {
            Ok(count) => Ok(count),
            Err(_) => {
                self.faults = self.faults.saturating_add(1);
                Err(Failed)
            }
        }
    }
}

/// A writer as a sink: standard output by `StdSink::of(io::writer(&rt))`, which tells no bytes.
#[derive(Drop)]
pub struct StdSink<W> {
    writer: W,
    faults: u64,
}

impl<W: Write> StdSink<W> {
    pub fn of(writer: W) -> StdSink<W>
        ensures writer { result.writer ≡ writer }
        ensures none { result.faults ≡ 0 }
    {
        StdSink { writer, faults: 0 }
    }

    /// Sends on what the writer has held back, and fails exactly where the writer can't. No clause says this, since a writer
    /// tells nothing of its calls. No byte is appended, and a failure is counted.
    pub fn flush(&mut self) -> Result<(), Failed>
        ensures bytes { Appends (W.contents self.old.writer) (W.contents self.new.writer) [] }
        ensures cause { HasCause self.old.faults self.new.faults result }
        ensures count { self.new.faults ≡ (if is_err result then one_more 64 self.old.faults else self.old.faults) }
    {
        match self.writer.flush() {
            Ok(()) => Ok(()),
            Err(_) => {
                self.faults = self.faults.saturating_add(1);
                Err(Failed)
            }
        }
    }
}

impl<W: Write> Sink for StdSink<W> {
    ghost held = { λ s. W.contents s.writer };

    ghost faults = { λ s. s.faults };

    /// Writes once, and fails exactly where the writer does or takes no byte. No clause says these two, since a writer tells
    /// nothing of its calls. Each failure is counted; the count stands still at 18,446,744,073,709,551,615.
    fn put(&mut self, piece: &[u8]) -> Result<usize, Failed>
        requires { 0 < length piece.now }
        ensures some { IfOk result (λ k. 0 < k) }
        ensures bound { IfOk result (λ k. k ≤ length piece.now) }
        ensures bytes { Puts (W.contents self.old.writer) (W.contents self.new.writer) result piece.now }
        ensures cause { HasCause self.old.faults self.new.faults result }
        ensures count { self.new.faults ≡ (if is_err result then one_more 64 self.old.faults else self.old.faults) }
    {
        match self.writer.write(piece) {
            Ok(count) if count > 0 => Ok(count),
            Ok(_) | Err(_) => {
                self.faults = self.faults.saturating_add(1);
                Err(Failed)
            }
        }
    }
}
