//! The waits of the running kernel with one carrier: each step of the carrier keeps what holds of them. So over any run no wait
//! takes more steps than its links allow, and each step that is counted in a wait is made by the owner of one of its links while
//! it holds what that link is for.
//!
//! It has no code. k_waits says what holds of the waits (`WaitsHold`), k_courses that a step keeps it where the kernel holds before
//! and after the step, and k_running that the kernel does.
//!
//! The functions do nothing: each has a law as its contract.
#![tactic(auto)]

mod laws;

pub use laws::{each_step_keeps_the_waits, every_wait_is_within_what_it_was_allowed};
