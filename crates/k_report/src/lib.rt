//! The whole report of a run.
//!
//! [`report`] puts six parts into a sink: the history, the replies, the calls with their steps (only where they are to be
//! shown), the waits with their chains of owners, what each number of the table shows at the end, and the totals. It takes no
//! memory, and the sink's own failures are the only ones. [`put_total`] puts the totals alone.
//!
//! A wait's line tells who waited for what, whether it was got or broken, how many steps it was allowed and how many it used, and
//! the chain of owners that were found in it, each with what it had left. Who waits lends its time to the owner (Hohmuth and
//! Härtig, *Pragmatic nonblocking synchronization for real-time systems*), so the steps that it used are theirs.
//!
//! The texts are this project's own.
#![tactic(auto)]

mod laws;
mod reports;
#[cfg(test)]
mod tests;
mod totals;
mod waits;
mod words;

pub use laws::a_wait_shows_its_links;
pub use reports::{RunParts, put_total, report};
