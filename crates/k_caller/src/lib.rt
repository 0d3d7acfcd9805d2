//! A thread's context: what a thread does, one atomic step after the other.
//!
//! A context is a value that stops before any atomic step and can be run on by whoever needs what it holds (Hohmuth and
//! Härtig, *Pragmatic Nonblocking Synchronization for Real-Time Systems*). A thread's context makes the calls of its program:
//! each is one critical section, and where the section leaves the thread waiting, the context falls asleep until it is woken.
#![tactic(auto)]

mod activity;
mod ran;
mod thread;
mod thread_context;

pub use activity::Activity;
pub use ran::Ran;
pub use thread::ThreadLocation;
pub use thread_context::ThreadContext;
