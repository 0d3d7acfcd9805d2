//! The measure of a burst on the raw world: how much work the running kernel has for a carrier.
//!
//! It has no code. `specs/Shown` has the board and the carriers that a raw world shows, as functions of that world;
//! `specs/Lowered` the work of a carrier in its parts, by the measure that k_work has on boards. The law: whatever board the world
//! shows, and whatever carriers it has there, the work is the same.
//!
//! The functions do nothing: each has a law as its contract.
#![tactic(auto)]

mod laws;

pub use laws::the_work_is_that_of_the_board;
