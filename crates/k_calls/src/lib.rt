//! The calls of a run, counted from the marks of its steps.
//!
//! Every step of a call leaves a mark (k_carrier: `StepMark`), whoever runs the caller's context then. [`calls`] gives one line
//! for each call of a thread that has a mark: how many steps it has, and how many of them were helped, since the runner wasn't
//! their owner. The lines stand by number, version and serial; `specs/Calls` says which they are (`IsCalls`), and there is one
//! such list. Steps of a carrier's switches belong to no call.
//!
//! Counts stand still at 4,294,967,295.
#![tactic(auto)]

mod laws;
mod lines;
mod printed;

pub use laws::marks_have_one_list_of_calls;
pub use lines::{CallLine, calls, is_helped};
