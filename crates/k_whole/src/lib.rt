//! The invariant, whole: a board, the history that was made on the way to it, and the carriers that make the steps.
//!
//! It has no code. What holds of boards and histories (k_invariant) and what holds of a board and its carriers (k_paired) hold
//! together from the start, and after every step of every carrier.
//!
//! The functions do nothing: each has a law as its contract.
#![tactic(auto)]

mod laws;

pub use laws::{
    a_place_is_empty, a_queue_has_room, every_carrier_has_a_step,
    every_step_of_every_carrier_keeps_the_whole, exchanges_that_are_never_lost,
    idle_means_finished, no_step_finds_a_taken_context_with_one_carrier,
    the_whole_holds_at_the_start, who_is_asked_can_step, who_is_pushed_stands_in_no_list,
};
