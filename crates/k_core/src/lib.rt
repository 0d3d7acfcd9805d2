//! The world that runs: all words, slots and carriers, with the logs.
//!
//! [`World::step`] is one atomic step of any carrier: a load, a store or a compare-exchange on one word, with
//! the context or the guarded data that moves along. It tells what came of the step, and writes the logs:
//!
//! - the history, to which the step at which a call takes effect appends its event with the outcome (Herlihy
//!   and Wing, *Linearizability*);
//! - the marks of the steps of calls and switches, each with whose step it is and for whom it was made;
//! - the marks of waits, each with the chain of the owners that held up what was wanted (Hohmuth and Härtig,
//!   *Pragmatic Nonblocking Synchronization for Real-Time Systems*: helping).
//!
//! The world and its step are those of k_world: `specs/Parts` says which world is shown. [`World::boot`] gives a
//! running kernel (`specs/Running`), and each step, and whatever comes from outside, keeps it. Of a running
//! kernel any carrier can make its next step, with one premise: the script has few phases, less than 2^31 - 1.
//! What its logs then are is a law, [`what_a_running_kernel_has_logged`]. No step takes memory: the history's
//! is taken when a run begins, and [`World::reserve`] takes that of the marks.
#![tactic(auto)]

mod boot;
mod history;
mod laws;
mod turn;
mod world;

pub use k_carrier::{Link, StepMark, Stepped, WaitMark, Want};
pub use laws::what_a_running_kernel_has_logged;
pub use world::World;
