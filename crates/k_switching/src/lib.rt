//! Whom a carrier runs.
//!
//! A carrier is a processor. It runs its goal, the thread to which it was switched last; where a context that it runs finds a
//! lock owned, it runs the owner until the lock is released (Hohmuth and Härtig, *Pragmatic Nonblocking Synchronization for
//! Real-Time Systems*); and it switches, by a section of its own under the ready lock. Any number of carriers do so, in any order
//! of their steps. The good world of the crate below is kept by each step.
//!
//! It has no code. `specs/Switch` has the switch: what it puts back into the ready lists and what it takes from them;
//! `specs/Rules` the rules by which a carrier looks at contexts, takes them, makes steps of them and gives them back;
//! `specs/Boot` the world in which a kernel begins; `specs/Claims` what is asked of a step; `specs/Trace` a run worked out by
//! hand.
//!
//! The functions do nothing: each has a law as its contract.
#![tactic(auto)]

mod laws;

pub use laws::{
    a_boot_world_is_good, a_run_goes_as_worked_out, every_step_keeps_the_good_world,
    who_is_asked_has_a_step, who_is_coming_is_not_run, who_switches_has_a_reason,
    who_wants_to_switch_does,
};
