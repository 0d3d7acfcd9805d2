//! The words and slots that all carriers share, and one atomic step on them.
//!
//! There are 74 numbers: those of 64 threads and eight carriers, and of the table lock and the ready lock. Each has four words
//! of 64 bits, for a thread's state, its mail, a lock and a context, and two slots: for what the lock guards while nobody holds
//! it, and for the context while no carrier has it in hand.
//!
//! [`Store::perform`] is the one atomic step of a carrier's move: one load, one store or one compare-exchange on one word, with
//! what moves along with it. Its contract is that of a move in a world (k_world). No step takes memory, and none copies what a
//! lock guards.
//!
//! `specs/Stores` says how a world shows a store, and `specs/Conditions` when a move can be performed.
#![tactic(auto)]

mod places;
mod sections;
mod slots;
mod store;

pub use slots::Slot;
pub use store::Store;
