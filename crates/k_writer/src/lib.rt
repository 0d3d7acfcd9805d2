//! Scripts are written as text: the shortest that says a script.
//!
//! # What is written
//!
//! The lines of a script stand in the order of the language; the language is this project's own, and `k_reader` reads it. A
//! text may have comments, empty lines, more blanks than it needs, a line `carriers 1`, the `aged` lines in any order and the
//! turns in several lines. What is written has none of these: one space between two words, one line feed between two lines and
//! none behind the last, the `aged` lines in the order of their numbers, and all turns in one line (`text_of`,
//! specs/Canonical.antt).
//!
//! # What is promised
//!
//! - [`text_of`] gives exactly these bytes. They are a text of the script, and no text of the script has fewer bytes.
//! - What is written says the same script, and `k_reader` reads it as this one if it has at most 1,048,576 bytes and the script
//!   weighs at most 4,000,000: so each script that was read is read again ([`a_written_text_is_the_shortest`]).
//!
//! Want of memory is an answer. Each operation, thread and event is visited once, and its line stands in 128 bytes of its own
//! before it is appended.
#![tactic(auto)]

mod laws;
mod lines;
mod writer;

pub use laws::a_written_text_is_the_shortest;
pub use writer::text_of;
