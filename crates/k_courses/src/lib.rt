//! What each course of a step keeps of the waits, in the raw world with one carrier: the step is none of a section, or the
//! section in hand goes on, or it is held up.
//!
//! It has no code. k_waits says what holds of the waits (`WaitsHold`), and k_onward what is known of a step. A step that is held
//! up finds an owner, who is linked; one that is none of a section leaves each context as it was. k_waiting has the same of the
//! running kernel.
//!
//! The functions do nothing: each has a law as its contract.
#![tactic(auto)]

mod laws;

pub use laws::a_step_keeps_the_waits;
