//! Switches: what a carrier does to give the processor to the thread that is to go on, one atomic step after the other.
//!
//! A switch is a critical section under the ready lock ([`Switch`]). It can stop before any atomic step and be run on by whoever
//! needs the lock that it holds (Hohmuth and Härtig, *Pragmatic Nonblocking Synchronization for Real-Time Systems*). A carrier has
//! a context of its own, [`CarrierContext`], which makes its switches, one after the other, and numbers them.
//!
//! The table stands in `specs/Switches`, one line a location: the step, where each response leads, what becomes of what is in
//! hand, the locks and `left`. `docs/SECTIONS.md` has it in words. The contracts of `next` and `resume` give the whole new value.
//! The laws of the table are functions that do nothing, whose contracts are the laws.
//!
//! What it costs: no call takes memory, and each costs the same whatever the ready lists hold.
#![tactic(auto)]

mod carrier_context;
mod goal;
mod laws;
mod switch;

pub use carrier_context::CarrierContext;
pub use goal::{Goal, Switched};
pub use laws::{
    a_switch_is_its_location, a_switch_takes_locks_in_rising_rank,
    left_is_the_most_that_a_switch_makes,
};
pub use switch::{Switch, SwitchCall, SwitchLocation, SwitchLocked};
