//! A step of the one carrier that goes on: the mark that stands then has room for the step, and is tied to a board again.
//!
//! It has no code. `specs/Stepping` says what is known of a step: the kernel before it and after it. A step that goes on is a
//! step of k_bound's carrier, by k_sections' ten laws. k_courses has the other courses of a step.
//!
//! The functions do nothing: each has a law as its contract.
#![tactic(auto)]

mod laws;

pub use laws::a_step_that_is_counted_has_room;
