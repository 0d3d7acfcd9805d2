//! The sections that create and destroy threads: critical sections of the kernel, as values that can stop before any atomic step.
//!
//! A section stands at a location. `next` gives the one step that it makes there, and `resume` takes what came of the step and
//! goes on. Between the two, and before each `next`, the section can be put down and run on later, by whoever needs the lock that
//! it holds (Hohmuth and Härtig, *Pragmatic Nonblocking Synchronization for Real-Time Systems*, wait-free locking by helping).
//! `holds` tells the locks it holds, `left` how many steps it makes at most until it releases one of them, `done` how many it
//! has made, and `point` the event that a step appends to the history.
//!
//! - [`CreateSection`] makes a thread on the lowest free number, in the number's next version.
//! - [`DestroySection`] kills a thread under the thread's own lock, frees those who wait to send to it, takes it out of the ready
//!   lists, removes its context, and visits every other number: it frees the thread if that one waits for the victim, and takes
//!   the victim's entry out of its queue.
//!
//! What a lock guards is in the section's hand, by value, where the lock is held: it comes with the answer to an acquire, and goes
//! with a release. No location is without what it needs, and no call takes memory.
//!
//! The contracts of `next` and `resume` give the whole section that is there afterwards (`asked` and `resumed` of its table). So
//! whoever runs it knows that it can be asked for its next step, and only has to see that a thread that is pushed stands in no
//! ready list.
//!
//! The two tables stand in `specs/CreateTable` and `specs/DestroyTable`, one line a location: the step, where each answer leads,
//! what becomes of what is in hand, the event of a linearization point (Herlihy and Wing, *Linearizability*), the locks and
//! `left`. `point` tells that event. The tables are this project's own; L4 and Fiasco create and destroy threads in other ways.
//! The laws of the tables are functions that do nothing, whose contracts are the laws.
//!
//! What it costs: each call costs the same whatever the queues and lists hold, but that a create looks for its number among at
//! most 64.
#![tactic(auto)]

mod create;
mod destroy;
mod goods;
mod laws;
#[cfg(test)]
mod tests;
mod words;

pub use create::CreateSection;
pub use destroy::DestroySection;
pub use laws::{
    a_create_is_its_location, a_create_takes_locks_in_rising_rank, a_destroy_is_its_location,
    a_destroy_takes_locks_in_rising_rank, left_is_the_most_that_a_create_makes,
    left_is_the_most_that_a_destroy_makes,
};
