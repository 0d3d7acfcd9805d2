//! The logs of a run: the marks of steps, and of waits with their links.
//!
//! At most one wait stands of each carrier, and [`Logs`] has its index by the carrier's number. So no step looks for its wait.
//! Where a helped context is held up, the links that were made since its wait began are looked through, of all waits. No step
//! does any other work that grows with the logs.
//!
//! [`Logs::reserve`] takes memory for one mark more of each kind. The others take none: they need the room that it leaves. Their
//! contracts are the parts of a step in k_world (`specs/Marks`), in this order: [`Logs::break_interrupted`], then
//! [`Logs::went_on`] or [`Logs::held_up`], then [`Logs::drop_goal`].
#![tactic(auto)]

mod links;
mod logs;
mod same;
mod standing;

pub use logs::Logs;
