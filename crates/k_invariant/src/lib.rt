//! The invariant of the kernel on boards, put together of its parts, and what follows from it.
//!
//! It has no code. `specs/Invariant` says what holds of every board that can be reached from the start of a script, by turns of
//! any contexts in any order, and of the history that was made on the way.
//!
//! The functions do nothing: each has a law as its contract.
#![tactic(auto)]

mod laws;

pub use laws::{
    a_reply_is_the_specifications, each_wait_is_bounded, every_run_is_linearizable,
    every_turn_keeps_the_board, the_board_holds_at_the_start,
    where_all_rest_the_history_is_finished,
};
