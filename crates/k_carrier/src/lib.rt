//! Carriers: what runs threads.
//!
//! A carrier has a goal, the thread to which it was switched, and one context in its hand at most, whose steps it makes. Where a
//! step finds a lock owned, the carrier puts the context down, takes the owner's, runs it until it has released that lock, puts it
//! down, and goes back to its goal (Hohmuth and Härtig, *Pragmatic Nonblocking Synchronization for Real-Time Systems*, helping).
//! Where a thread is to be started, its slice of time ends or a thread of a higher priority is ready, it puts down whatever it has
//! in its hand, in the middle of a critical section too, and switches.
//!
//! [`Carrier::next`] is its next move, one atomic step, and [`Carrier::resume`] what the answer makes of it. `specs/Rules` has the
//! rules. A carrier holds nothing but itself and the context in its hand: what it steps on is whoever's asks it.
//!
//! [`StepMark`], [`WaitMark`] and [`Link`] are what is recorded of its steps.
#![tactic(auto)]

mod asked;
mod carrier;
mod flags;
mod laws;
mod marks;
mod moves;
mod resumed;
mod rules;
mod running;
mod starts;
mod told;

pub use carrier::{Carrier, Target};
pub use laws::what_is_pending_comes_first;
pub use marks::{Link, StepMark, WaitMark, Want};
pub use moves::{Awaits, Hand, Help, Move, SeenAnswer, Stepped};
pub use running::{Holder, Running};
pub use starts::Starts;
