//! The running kernel: what holds of the raw world, of the board that it shows and of its carriers holds after each move of any carrier.
//!
//! It has no code. A step of a thread's context in the raw world is a turn of the board, or two where its next call begins; each is the
//! step of its carrier that its location grants. So all of the whole (k_whole) holds again, and the carriers are as the world has them.
//!
//! The functions do nothing: each has a law as its contract.
#![tactic(auto)]

mod laws;

pub use laws::{
    a_carrier_can_step, a_threads_step_keeps_the_kernel, every_run_keeps_the_kernel,
    every_step_keeps_the_kernel, the_kernel_holds_at_the_start, what_comes_from_outside_keeps_all,
    what_the_kernel_has_logged,
};
