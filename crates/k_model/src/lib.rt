//! The sequential specification: what every call of the kernel means.
//!
//! It has no code. Its definitions stand in `specs/`, to be read in this order:
//!
//! - `Maps`: total maps on numbers. `State`: a state, which is a table of numbers with their threads and who waits to send
//!   to them, and the replies so far.
//! - `Step`: what each event makes of a state, one definition a call. This is the meaning of the kernel.
//! - `History`: the opening state, legal histories, and when nothing is to come any more.
//! - `Sound`, `Answered`, `Effort`: what holds of each state that can be reached, which call has which reply, and how much is
//!   still to come. `Keeps`: what an event leaves at each number.
//!
//! The functions of this library do nothing: each has a law of these definitions as its contract.
#![tactic(auto)]

mod laws;

pub use laws::{
    a_pick_takes_the_first, a_step_is_made, an_event_answers_last_calls,
    an_event_leaves_the_others, an_event_takes_effort, lists_stay_sound, reached_states_are_good,
    replies_never_change, replies_stay_in_order, senders_stay_listed, serials_begin_at_one,
    the_destroyed_wait_nowhere, the_freed_wait_nowhere, versions_stay_in_range, waits_are_counted,
};
