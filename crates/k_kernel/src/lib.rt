//! The invariant of the running world: a world shows a board of which all of the invariant holds, and every move of a carrier
//! keeps it.
//!
//! It has no code. `specs/Worlds` says what holds of the world, `specs/Moves` what a move needs besides.
//!
//! The functions do nothing: each has a law as its contract.
#![tactic(auto)]

mod laws;

pub use laws::{
    a_thread_is_given_the_specifications_reply, every_move_keeps_the_world,
    every_run_of_the_world_is_linearizable, the_first_world_holds,
    what_comes_from_outside_keeps_the_world,
};
