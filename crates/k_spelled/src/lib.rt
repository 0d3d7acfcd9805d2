//! Every state word that a board has, or that a context knows, has a spelling; and so has each that a step
//! writes or expects.
//!
//! It has no code. `specs/Words` says which words have spellings: those of numbers, the contexts' own, and
//! those that were loaded on the way to a location. `specs/Asks` says what a context asks for next, by where
//! it stands.
//!
//! The functions do nothing: each has a law as its contract.
#![tactic(auto)]

mod laws;

pub use laws::{a_step_is_spelled, every_turn_keeps_the_words, words_hold_at_the_start};
