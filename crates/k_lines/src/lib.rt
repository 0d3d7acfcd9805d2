//! The lines of a script's text: which words a line has, and what they say.
//!
//! A line ends with a line feed, which the last may lack. A `;` and what follows it in its line is a comment. Spaces, tabs
//! and carriage returns part words. Outside comments other bytes than these and 33 to 126 are bad.
//!
//! What a line says is read from its words alone: the first word and the count of words say which kind of line it is, and
//! each word has the form of its place. Numbers keep their faults here, a leading zero and a value out of range: what stands
//! around the line says which reason counts.
//!
//! # What is promised
//!
//! - [`first_line`] and [`line_words`] give the lines of an input and the words of a line (specs/Words.antt).
//! - [`line_of`] reads exactly what a line spells: see the laws [`a_line_is_spelled`], [`items_are_spelled`] and
//!   [`a_number_is_spelled`] (specs/Lines.antt: `spelled`).
#![tactic(auto)]

mod forms;
mod kinds;
mod laws;
mod line;
mod numeral;
mod operations;
mod words;

pub use forms::is_word;
pub use kinds::{items_of, line_of};
pub use laws::{a_line_is_spelled, a_number_is_spelled, items_are_spelled};
pub use line::{ItemWord, Line, OperationLine, ValueWord, WhoWord};
pub use numeral::{Numeral, numeral_of};
pub use words::{first_line, has_words, is_plain, line_words};
