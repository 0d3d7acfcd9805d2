//! Where a history leaves the programs of all threads: for each number of the table the position of its thread.
//!
//! A run of a script and the judgement of a history keep the same positions. At first each thread of the script stands at the
//! start of its program ([`starts`]). An entry takes its caller's position on where it is a call, and a thread that it made
//! stands at the start of the program that its create named ([`move_on`]). No other position changes (specs/Positions.antt).
//!
//! The lemmas on histories that play a script stand here too (proofs/Going.antt): one goes on with an entry whose event may be
//! made, has the outcome that comes of it, and, if it is a call, is the next one of its thread's program.
#![tactic(auto)]

mod positions;

pub use positions::{move_on, starts};
