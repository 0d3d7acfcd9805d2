//! What a script says: its programs, its threads and its schedule; how long it is; and which calls a thread of it makes, one
//! after the other.
//!
//! A script is what a run starts from. Its operations are the IPC operations of L4 (Liedtke, *L4 Reference Manual 2.0*), the
//! two thread calls, work, and repeats. The language is this project's own, and so are the limits and weights. The text of a
//! script is no matter of this crate.
//!
//! # What a script is
//!
//! - Numbers of threads: 1 to 64. Each number has a version that it had last, 0 where it had none, at most 1,048,575.
//! - Programs: at most 255, numbered from 0. A name is 1 to 16 of `a` to `z`, `0` to `9` and `_`, and is given once. At most
//!   4,096 operations each; repeats are closed, and at most four deep.
//! - Threads: at least one, the first of the numbers from 0, on numbers that had no thread before.
//! - A schedule: at most 10,000 events, in the order of their steps, each thread started once at most; and for two carriers or
//!   more at most 10,000 turns of 1,000,000 steps in sum.
//!
//! `IsScript` (specs/Limits.antt) is all of this, and holds of every [`Script`].
//!
//! # What it does
//!
//! A program is its operations one after another, what a repeat repeats as often as it says (`flat`, specs/Flat.antt, and the
//! law [`a_program_is_written_out`]). It goes on with its next operation whatever the reply to the last call was. The
//! registers `last`, `made` and `got` are filled from the replies to the thread's own calls. A reply is a send, and in version
//! 2 of the language a call of its own; one that was sent is followed by an open receive. Work is loads of the thread's own
//! state word, between two calls.
//!
//! # What is promised
//!
//! - [`Script::of`] is the script of its parts, and the calls that read a [`Script`] give its parts.
//! - [`next_phase`] gives exactly the next operation of the program written out, as a call with the registers filled or as
//!   work, or the end (`next_of`, `went_on`, specs/Plays.antt); [`next_call`] the next call, with the work passed over
//!   (`phase_next`, `moved`). The ids that it names are in range ([`a_phase_is_in_range`]).
//! - [`weight`] and [`phases`] are exactly the sums of specs/Weight.antt, standing still at the end of u64; a script makes as
//!   many calls as a quarter of its weight, at most ([`calls_weigh_four`]), and each call takes from what its program counts
//!   ([`a_program_goes_on`], [`a_start_is_counted`]).
//! - [`big`] is exactly the generator's script (specs/Big.antt).
//! - `IsHistory` (specs/Plays.antt) says what a whole run shows: a legal history, in which every thread's calls are the phases
//!   of its program, and which leaves a finished state.
//!
//! A position has a constant size. A next phase reads eight repeats and agains at most, twice as many as may be open: repeats
//! with nothing in them, however many stand in a row and whatever turns they have, are passed over at once. A script reads each
//! operation once when it is made, and so do weight and phases; none of them takes memory.
#![tactic(auto)]

mod cursor;
mod generator;
mod laws;
mod lines;
mod listing;
mod name;
mod operation;
mod position;
mod registers;
mod scale;
mod script;
mod skips;

pub use generator::big;
pub use laws::{
    a_phase_is_in_range, a_program_goes_on, a_program_is_counted, a_program_is_written_out,
    a_start_is_counted, calls_weigh_four, work_is_passed_over,
};
pub use lines::{AtLine, AtWhat, Item, ThreadLine};
pub use listing::Listing;
pub use name::Name;
pub use operation::{Operation, Value, Who};
pub use position::{Position, next_call, next_phase};
pub use registers::{Next, Registers};
pub use scale::{phases, weight};
pub use script::{Parts, Script};
