//! The machine: the sequential specification as a program. Each event is made at once, on lists.
//!
//! It is the yardstick for everything that follows. A history is checked by making its events here, and the concurrent
//! kernel is compared with the state that a machine means.
//!
//! - `Machine::boot` takes all memory that the machine ever needs, for a number of events that the caller gives. Where that
//!   number isn't known, `Machine::reserve` takes room event by event.
//! - `Machine::step` makes one event: a call (send, receive, create, destroy, reply, end), a gone or a pick. It does exactly
//!   what `k_model`'s `step` says, for each event and in each state, and refuses exactly the events that aren't enabled.
//! - `status`, `serial`, `waiting`, `replies` and `reply` show the state; `idle` names the lowest id that goes on.
//!
//! What it costs: no call but `boot` and `reserve` takes memory. A create, a destroy and `idle` look at each number once, a destroy also
//! at each waiting entry. A call may read the waiting list of its partner or its own, at most 63 entries. All else is the
//! same for each event, whatever came before. The reply to the last call of a number is looked up; that of any other call
//! is searched for among all replies.
//!
//! Numbers are 0 to 63, versions 0 to 1,048,575, serials 0 to 2^32 - 1, and an event's serial is the caller's to give.
#![tactic(auto)]

mod ids;
mod last_call;
mod machine;
mod replies;
mod rows;
mod seat;
mod table;

pub use k_ids::{NoMemory, Unlawful};
pub use machine::Machine;
