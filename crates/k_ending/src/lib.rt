//! How the run of a script ends, on the running kernel.
//!
//! It has no code. While one carrier makes its steps and all others are settled, its switch ends with a thread that it has taken,
//! or with Idle; so the carrier that comes to be settled last is told Idle. Where a step is told Idle, all carriers are settled
//! and no start is to come, no thread can go on, and the history is one of the script's, whole. A schedule (k_schedule) asks for
//! these.
//!
//! The functions do nothing: each has a law as its contract.
#![tactic(auto)]

mod laws;

pub use laws::{
    a_lone_step_leaves_it_fresh, idle_is_the_end, what_comes_from_outside_leaves_who_is_fresh,
    who_ends_last_is_told_idle, who_is_settled_is_fresh,
};
