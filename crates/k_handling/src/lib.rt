//! Moves of carriers that are no step of a thread's context: looks, takes and gives of contexts, and the steps of switches.
//!
//! It has no code. A world that shows a board, and whose carriers are those of the good world, does so again after such a move,
//! and all that holds of the whole holds again. So it is after a start, the end of a slice and a park.
//!
//! The functions do nothing: each has a law as its contract.
#![tactic(auto)]

mod laws;

pub use laws::{
    a_kernel_is_handled_soundly, every_other_move_keeps_the_kernel,
    what_comes_from_outside_keeps_the_kernel,
};
