//! Histories as text, and the judgement of a history.
//!
//! A history is the sequence of a run's events with their outcomes, one at a time, in an order that every thread agrees
//! with (Herlihy and Wing, *Linearizability*). [`event_line`] writes one of its lines, and [`read_line`] reads it back: it
//! answers exactly the entry that a line spells (specs/Fits.antt: `Spells`), and no line spells two.
//!
//! [`check`] judges a history of a script, from wherever it comes. It says [`Verdict::Legal`] exactly where the lines are a
//! legal history, in which every thread's calls are those of its program, and behind which nothing is to come. Any other
//! [`Verdict`] names the first line at fault, with the first reason that holds there, or the thread that would go on
//! (specs/Verdicts.antt: `IsVerdict`; a history has one verdict). It makes each event on the machine of the sequential
//! specification, and keeps one position for each number of the table. Its time is linear in the bytes and in the script's
//! weight.
//!
//! The texts are this project's own.
#![tactic(auto)]

mod inside;
mod judging;
mod laws;
mod lines;
mod reading;
mod verdict;
mod words;

pub use judging::check;
pub use laws::{a_history_has_one_verdict, a_line_spells_one_entry};
pub use lines::{event_line, read_line};
pub use verdict::Verdict;
