//! A move of a carrier is on a word that there is, and the entry that it makes is of numbers of the table; and it
//! runs no thread that isn't made yet. So each move that it can be asked for can be made.
//!
//! It has no code. `specs/Asks` says of which numbers a context's step is.
//!
//! The functions do nothing: each has a law as its contract.
#![tactic(auto)]

mod laws;

pub use laws::{a_carrier_runs_made_threads, a_move_can_be_made, a_step_is_within};
