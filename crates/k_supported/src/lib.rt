//! What holds up a step of a section: who holds what it waits for, and that this ranks above what its carrier helps it for.
//!
//! It has no code. A lock that is owned on a board is held, in the world of its carriers, by the context that owns it; a context
//! that is to be removed is clean, or holds a lock, while no other carrier has a context in hand. A context asks only for what
//! ranks above what it holds, and is helped for what it holds.
//!
//! The functions do nothing: each has a law as its contract.
#![tactic(auto)]

mod laws;

pub use laws::{
    who_removes_a_context_is_held_up, who_waits_is_held_up, who_wants_a_lock_is_held_up,
};
