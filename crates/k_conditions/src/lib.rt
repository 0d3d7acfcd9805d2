//! What the code of one carrier's step asks for is met in the running kernel.
//!
//! It has no code. A carrier (k_carrier) asks for its next move under conditions on itself, and goes on by the answer under
//! conditions on the answer; and shared words and slots (k_store) make the move under conditions on what lies there. All of these
//! follow from what holds of the raw world, of the board that it shows, and of its carriers as the good world has them.
//!
//! The functions do nothing: each has a law as its contract. What they name is in the `requires` of `Carrier::next`,
//! `Carrier::resume`, `Carrier::point`, `Store::perform` and `Store::state`.
#![tactic(auto)]

mod laws;

pub use laws::{
    a_carrier_can_ask, a_carrier_can_be_told, a_store_can_perform, the_callers_word_is_spelled,
    what_is_sound_stays_sound,
};
