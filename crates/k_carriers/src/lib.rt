//! What a schedule asks of the carriers one by one: whose hand, and who is settled, a step or an event changes.
//!
//! It has no code. A step of a carrier, a start, the end of a slice and a park (k_world) change that carrier alone; who is
//! settled has no hand; and who is parked gives its hand at its next step. So a schedule (k_schedule) may speak of each carrier
//! for itself.
//!
//! The functions do nothing: each has a law as its contract.
#![tactic(auto)]

mod laws;

pub use laws::{
    a_hand_is_changed_by_steps_alone, other_carriers_are_as_they_were,
    who_is_parked_gives_its_hand, who_is_settled_has_no_hand,
};
