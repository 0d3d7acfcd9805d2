//! The threads that sections have turned on, until they are in a ready list.
//!
//! It has no code. What a location says of the thread that it pushes stands in k_grants (`specs/Pushes`), and what a turn is
//! there too: one step that its location grants. Here it is proved that all of this holds from the start, and after any turn. A
//! thread that is pushed makes no step meanwhile (k_tokens), so its word changes only where it is destroyed; and what a load
//! told of one that was destroyed lasts as long as the ready lock is held.
//!
//! The functions do nothing: each has a law as its contract.
#![tactic(auto)]

mod laws;

pub use laws::{
    a_carriers_turn_keeps_pushes, each_turn_keeps_pushes, pushes_hold_at_the_start,
    who_is_pushed_makes_no_step,
};
