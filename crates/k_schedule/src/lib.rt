//! In which order carriers make their steps, and that it comes to an end.
//!
//! A script has a schedule: its events, each with the number of steps before it, and its turns. What is left after the turns is
//! done in bursts, carrier after carrier, until nothing is left to do. Here stands what that order is, over any world in which
//! carriers make steps, and what follows from laws of such a world.
//!
//! It has no code. `specs/Carriers` has what the schedule uses of a world, and the laws that it asks of it; `specs/Schedule` the
//! schedule, rule by rule, as functions and relations; `specs/Turn` the single turns of which a run is made; `specs/Bursts` what
//! holds within a burst and between two of them, and how many bursts are still to come; `specs/Near` how far a carrier is from
//! its next step of a section, and `specs/Parts` when such measures fall together; `specs/Worked` a schedule worked out by hand.
//!
//! The functions do nothing: each has a law as its contract.
#![tactic(auto)]

mod laws;

pub use laws::{
    Scheduled, a_burst_ends, a_carrier_comes_nearer, a_run_ends, a_run_is_made_of_turns,
    a_schedule_is_worked_out, a_script_has_one_run, events_come_at_their_step, no_event_is_passed,
    parts_dont_fall_for_ever, who_has_no_hand_makes_no_step,
};
