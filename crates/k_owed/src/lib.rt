//! How many steps the contexts of a board still make at most while no state word changes.
//!
//! It has no code. `specs/Owes` has a number for each location; `specs/Owed` sums them up, and counts the exchanges that are still
//! to come without an entry of the history. The law: each turn that makes a step and has no linearization point lowers these
//! parts of the measure of a burst (k_schedule).
//!
//! The functions do nothing: each has a law as its contract.
#![tactic(auto)]

mod laws;

pub use laws::{
    a_switch_turn_lowers_what_is_owed, a_thread_turn_lowers_what_is_owed,
    programs_count_their_work, who_waits_for_a_lock_owes_the_same,
};
