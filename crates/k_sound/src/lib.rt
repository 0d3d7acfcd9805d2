//! A context stays sound over its steps.
//!
//! It has no code. The code of a context (k_context) keeps it sound; here the same is said of the context that contracts see, for
//! those who follow a context through the steps of a whole kernel.
//!
//! The functions do nothing: each has a law as its contract.
#![tactic(auto)]

mod laws;

pub use laws::{a_context_stays_sound, a_new_context_is_sound};
