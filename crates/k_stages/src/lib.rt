//! A carrier's own turns on a board: a switch, location by location, and the waking of a thread.
//!
//! It has no code. Each location of a switch is a stage of who is on (k_switching): `specs/Stages` says what a location knows
//! of its switch, and that the words loaded of the goal and of the thread to be started have told the stage the same. So a turn
//! of a switch is the step of its stage, up to the release, which makes the same of the ready lists as a map by priority, and
//! of `running`.
//!
//! The functions do nothing: each has a law as its contract.
#![tactic(auto)]

mod laws;

pub use laws::{
    a_switch_begins, a_switch_ends, a_thread_is_woken, board_and_world_begin_alike,
    each_switch_turn_is_a_stage, each_turn_leaves_stages,
};
