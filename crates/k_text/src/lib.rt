//! The printed words of a run, written without memory.
//!
//! A [`Line`] holds one line of at most 128 bytes. It is written word by word: each method appends its words, each behind a
//! space, and promises exactly these words and how many bytes they take at most, so that no line can outgrow its room.
//!
//! The words are those of ids, statuses, calls, outcomes and replies. [`Printed`] is what has a line of its own: an entry of
//! a history, a reply, and what a number shows at the end. [`put_each`] puts the lines of a list into a sink, one piece each.
//!
//! [`read_number`] reads a number's word back.
//!
//! The words themselves are this project's own.
#![tactic(auto)]

mod laws;
mod line;
mod numbers;
mod printed;
mod words;

pub use laws::a_number_is_spelled;
pub use line::Line;
pub use numbers::{read_byte, read_number};
pub use printed::{Printed, put_each, put_line};
