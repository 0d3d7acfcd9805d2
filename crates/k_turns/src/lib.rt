//! The step of a thread's context in the raw world is a turn of the board that the world shows.
//!
//! It has no code. `specs/Sections` has one step of a context on the maps of the raw world, and the turns that it comes to;
//! `specs/Spelled` what a context asks for, and that it can be spelled; `specs/Needs` what some steps need of the board.
//!
//! The functions do nothing: each has a law as its contract. What a step makes of words, owners, places and goods is proved once
//! (k_places); here each location shows that where it leads, its own word and what it has in hand are those of the board.
#![tactic(auto)]

mod laws;

pub use laws::{a_step_of_a_thread_is_a_turn, the_facts_of_a_location_meet_what_its_step_needs};
