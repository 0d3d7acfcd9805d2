//! No step of a call is made twice in the running world, and the steps of each call are numbered in the order
//! in which they were made.
//!
//! It has no code. `specs/Marks` says what holds of the world's contexts and of its log of steps. What a
//! context counts stands in k_marks, which takes for granted that contexts stand where their words tell, and
//! that a number gets no version twice. Here that is shown of the running world.
//!
//! The functions do nothing: each has a law as its contract.
#![tactic(auto)]

mod laws;

pub use laws::{
    every_step_is_counted, no_run_makes_a_step_twice, the_marks_hold_at_the_start,
    the_steps_of_each_call_are_in_order, what_comes_from_outside_keeps_the_marks,
};
