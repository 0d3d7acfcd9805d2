//! Histories that follow a script, and how much room they take.
//!
//! It has no code. `specs/Histories` says that a history follows its script, and where that leads the programs of all threads;
//! `specs/Room` says how much is still to come. A legal history that plays its script has twice the script's phases of entries
//! at most, whatever made it: so who records one as it is made needs no more room at any moment.
//!
//! The functions do nothing: each has a law as its contract.
#![tactic(auto)]

mod laws;

pub use laws::{
    a_followed_history_is_good, a_history_follows_on, a_history_takes_its_room,
    a_program_stays_within_its_script,
};
