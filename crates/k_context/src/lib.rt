//! Contexts: what makes the steps of a thread, or of a carrier.
//!
//! A context is a value that stops before any atomic step and can be run on by whoever needs what it holds (Hohmuth and
//! Härtig, *Pragmatic Nonblocking Synchronization for Real-Time Systems*). A thread's context makes the calls of its program. A
//! carrier's own context makes its switches: it gives the processor to the thread that is to go on. Whoever has a context in hand
//! asks it for its step and tells it the answer, and needn't know which of the two it is: [`Context`] is their sum.
#![tactic(auto)]

mod context;
mod owner;

pub use context::Context;
pub use k_caller::{Activity, Ran, ThreadContext, ThreadLocation};
pub use k_switch::{
    CarrierContext, Goal, Switch, SwitchCall, SwitchLocation, SwitchLocked, Switched,
};
pub use owner::Owner;
