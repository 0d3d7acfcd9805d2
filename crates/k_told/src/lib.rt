//! What a step of the running kernel tells of missed contexts, and what it makes of the history.
//!
//! It has no code. Of any world in which all of the kernel holds (k_running): with one carrier no step is told that a context is in
//! another carrier's hand; and a step makes one event of the sequential specification at most, with the outcome that the event has
//! there, and the state that the world shows is that of the history's replay.
//!
//! The functions do nothing: each has a law as its contract.
#![tactic(auto)]

mod laws;

pub use laws::{
    a_step_can_be_made, each_step_makes_one_event_at_most, no_step_misses_with_one_carrier,
};
