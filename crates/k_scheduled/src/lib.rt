//! The running kernel keeps the laws of a schedule.
//!
//! It has no code. `specs/Scheduled` says when a world of the kernel is good: all of the kernel holds, and the lines still to
//! come start each thread once whose start hasn't come yet, and no other. The laws: the first world of a script is good, and the
//! kernel's carriers (k_carriers) keep the laws that a schedule (k_schedule) asks of them. So what is shown of schedules holds of
//! the kernel: each script has one run, and it ends.
//!
//! The functions do nothing: each has a law as its contract.
#![tactic(auto)]

mod laws;

pub use laws::{
    a_script_within_the_limit_has_room, the_first_world_is_good, the_kernel_keeps_the_schedule,
    the_next_start_is_due,
};
