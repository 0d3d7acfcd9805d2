//! The ground of the kernel's invariant: a board, on which any context may make its next step at any moment.
//!
//! It has no code. `specs/Words` has what is seen of a thread number, its ledger with it; `specs/Boards` the board: all words, all that
//! the locks guard, and where each context stands; `specs/Steps` one step of it, by the published table of each section. `specs/Facts`
//! has what the step of a location rests on, as data, and what each fact says; `specs/Places` the facts of each location;
//! `specs/Moves` the kinds of change that a step may make of what others see.
//!
//! The functions do nothing: each has a law as its contract. A location is proved once: its step, from a board on which its own facts
//! hold, makes permitted changes alone, and the facts of the next location hold after it. A kind of change is proved once for each
//! fact: the fact lasts over it. So no law speaks of two locations (rely and guarantee: Jones, *Tentative steps toward a development
//! method for interfering programs*).
#![tactic(auto)]

mod laws;

pub use laws::{
    a_fact_lasts_over_the_steps_of_others, every_turn_keeps_the_facts, the_facts_hold_at_the_start,
};
