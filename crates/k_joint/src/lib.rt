//! The raw world and the board: each move of a carrier is a turn of the board that its world shows, or two, or none.
//!
//! It has no code. `specs/Ready` says what a board has to give for that, and what a carrier sees to; `specs/Runs` that a
//! world shows a board to which some turns lead.
//!
//! The functions do nothing: each has a law as its contract. What a world shows stands in k_places, the steps of threads in
//! k_turns.
#![tactic(auto)]

mod laws;

pub use laws::{every_move_is_turns_of_the_board, what_comes_from_outside_shows_the_same_board};
