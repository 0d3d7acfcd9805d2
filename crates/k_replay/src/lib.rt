//! The replies and the final statuses of a history, which is replayed on the machine of the sequential specification.
//!
//! [`replay`] makes each entry's event on the machine, in their order, and answers the replies of the state that they leave, by
//! number, version and serial, and what each number of the table shows then (specs/Reports.antt).
//!
//! The machine takes its memory before the first event, for as many events as the history has. An event costs what the machine's
//! step costs.
#![tactic(auto)]

mod finish;
mod replaying;

pub use replaying::{Replayed, replay};
