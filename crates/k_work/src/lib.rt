//! The measure of a burst of one carrier of the kernel: each of its steps lowers it, while no other carrier moves.
//!
//! It has no code. `specs/Work` adds to what the contexts of a board owe (k_owed) what carriers have: the threads beside the
//! ready lists, and the switches that the carrier may still begin. The laws are on a board and the carriers that make its steps
//! (k_whole). `specs/Near` counts how near the carrier is to its next step of a section, while it looks at contexts, takes and
//! gives them, and asks in vain for what is held.
//!
//! The functions do nothing: each has a law as its contract.
#![tactic(auto)]

mod laws;

pub use laws::{
    a_step_of_a_section_lowers_the_work, each_step_of_a_lone_carrier_lowers_its_work,
    who_falls_asleep_is_on,
};
