//! The schedule of a script as a program, over any kernel whose carriers make steps.
//!
//! [`run_schedule`] makes the events and the turns of a script, and then bursts, carrier after carrier, until nothing is left to
//! do. What the schedule is, rule by rule, and that it comes to an end, stand in k_schedule; the program makes exactly this run,
//! and no bound on steps is given to it.
//!
//! A [`Kernel`] is what the schedule uses of a kernel: one atomic step of a carrier, what is done to a carrier from outside, and
//! what is asked of one. Its contracts tell what each call makes of the world that the kernel shows. Its last ghost item says
//! that these are the carriers of a schedule (k_schedule, `ScheduleLaws`).
//!
//! Memory is asked for before each step, one step's at a time. Where there is none, the run is given up.
#![tactic(auto)]

mod bursts;
mod events;
mod kernel;
mod run;

pub use kernel::Kernel;
pub use run::run_schedule;
