//! Short IPC as critical sections that can be stopped before any atomic step, and run on by whoever needs their locks.
//!
//! A [`SendSection`] is one send, call or reply; a [`ReceiveSection`] is one receive, closed or open, or the pick that follows a
//! reply (Liedtke, *L4 Reference Manual 2.0*). Each is a value: `next` says which step comes, `resume` takes its answer.
//! Between the two anything may happen, and any context may make the step (Hohmuth and Härtig, *Pragmatic Nonblocking
//! Synchronization for Real-Time Systems*). The locations of a section, their order and their number are this project's own.
//!
//! `specs/SendTable` and `specs/ReceiveTable` have one line for each location: what it asks for, where each response leads, what
//! becomes of what is in hand, which event it appends to the history, which locks it holds, and how many steps are left until
//! each lock is released. They speak of decoded words; the steps and answers of the code are made of them by k_locks.
//! `docs/SECTIONS.md` has the same tables in words. The contracts say that the code is these tables: `point` is the event of a
//! step, by what the step was answered.
//!
//! The types have what is in hand as a value: a location at which a lock is held can't be without what the lock guards. No
//! call takes memory, and none costs more than a look at each entry of the queue in hand.
#![tactic(auto)]

mod candidates;
mod laws;
mod receive;
mod send;

pub use laws::{
    a_receive_is_its_location, a_receive_releases_in_time, a_receive_takes_locks_in_rising_rank,
    a_send_is_its_location, a_send_releases_in_time, a_send_takes_locks_in_rising_rank,
};
pub use receive::ReceiveSection;
pub use send::SendSection;

#[cfg(test)]
mod tests;
