//! Where everything is in the raw world, and the board that it shows.
//!
//! It has no code. `specs/Memory` has the raw world as maps: words by name, slots by what lies there, and what carriers have
//! in hand; `specs/Contexts` what a context shows on the board, and what it has in hand there; `specs/Shows` that a world
//! shows a board: its words are the board's, each context is where its word tells, and what a lock guards is at home or in
//! the hand of its owner; `specs/Asks` and `specs/Answers` what a step has to be, and what comes of it; `specs/Fits` what a
//! move has to be so that there is a place for all that it changes; and `specs/Boots` the board of the first world.
//!
//! The functions do nothing: each has a law as its contract. Lists and indices occur in one file of proofs alone, `proofs/Raw`.
#![tactic(auto)]

mod laws;

pub use laws::{
    a_move_changes_the_maps, a_step_finds_what_the_board_has, the_first_world_shows_the_first_board,
};
