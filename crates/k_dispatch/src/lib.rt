//! The run of a script on the running kernel.
//!
//! [`run`] boots the kernel's world (k_core) with the script's carriers, makes the script's schedule on it (k_bursts) until
//! nothing is left to do, and then tells what the run leaves: the history, the marks of steps and of waits, the calls as the
//! step marks count them (k_calls), and the replies and the final statuses of the history, which is replayed (k_replay).
//!
//! The result is exact: `specs/Outcome` says which one it is. Each script has one run (k_schedule), which ends, and no bound on
//! steps is given to it. Where there is no memory for a step or for what the run leaves, it is given up.
#![tactic(auto)]

mod dispatch;
mod kernel;

pub use dispatch::{RunEnd, run};
