//! The outside: a source of bytes and a sink for them, each with a count of its faults.
//!
//! Whatever the program reads or writes goes through these two traits, so its own contracts can say what it does with the
//! bytes and when it may answer that the outside failed.
//!
//! - A source may tell the bytes that it has left, and a sink the bytes that it holds. Where they tell them, each call says
//!   which bytes came or were appended; where they don't, nothing is claimed of bytes.
//! - Each has a count of its faults. It never falls. A call answers [`Failed`] only where it rose, so a refusal that blames
//!   the outside has its cause there; and where a call answers `Ok`, the count stands as it was, so no fault is passed over.
//!   A call that failed took or appended nothing.
//! - [`MemSource`] and [`MemSink`] are in memory, and their contracts give each call's exact result and new state.
//! - [`StdSource`] and [`StdSink`] adapt standard input and output. What these give and take is the trusted edge. Where a
//!   writer holds bytes back, [`StdSink::flush`] sends them on.
//! - [`put_all`] puts a whole piece, however little each put takes.
//!
//! Counts of faults are 64 bits wide and stand still at their end, where they count as risen.
#![tactic(auto)]

mod memory;
mod put;
mod source;
mod streams;

pub use memory::{MemSink, MemSource};
pub use put::put_all;
pub use source::{Failed, Sink, Source};
pub use streams::{StdSink, StdSource};
