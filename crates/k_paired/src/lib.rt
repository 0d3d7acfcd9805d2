//! A board and the good world, step by step.
//!
//! It has no code. A board (k_board) has the words, the locks and where each context stands; a world (k_tokens) has who is on,
//! and the carriers. Here both are taken together: they begin as a pair, and each step of a carrier that is a turn leads to a
//! pair again. So what is proved of boards holds of each board that a kernel comes to, with what each push and each switch
//! rests on, and what is proved of who is on holds of it too.
//!
//! The functions do nothing: each has a law as its contract.
#![tactic(auto)]

mod laws;

pub use laws::{
    a_pair_begins, a_switch_begins_in_a_pair, a_switch_ends_in_a_pair,
    a_switch_turn_keeps_the_pair, a_thread_turn_keeps_the_pair, a_thread_wakes_in_a_pair,
    what_is_no_turn_keeps_the_pair,
};
