//! The plain types that every part of the kernel core speaks of: threads and what they show, calls and their answers, the
//! events of a history, and the words of 64 bits on which the steps are made.
//!
//! The operations are those of L4's short IPC (Liedtke, *L4 Reference Manual 2.0*): send, closed and open receive, call,
//! reply and wait, each with a timeout of zero or never. A message is two 32-bit words. Thread numbers with versions, the
//! two thread calls `create` and `destroy`, and every range and layout given here are this project's own.
//!
//! [`StateWord`], [`LockWord`] and [`ContextWord`] are words, decoded. Each has one spelling in 64 bits, `bits`; and `read`
//! answers a word exactly where the bits are its spelling. A [`Message`] is `packed` into 64 bits, and is the message `of` them.
//! So an exchange on bits is one on decoded words, and only this library does arithmetic on bits. The layouts stand in
//! `specs/StateWords`, `LockWords`, `ContextWords` and `Messages`.
#![tactic(auto)]

mod calls;
mod context_word;
mod histories;
mod laws;
mod lock_word;
mod memory;
mod state_word;
mod threads;

pub use calls::{Act, Outcome, Phase, Reply};
pub use context_word::ContextWord;
pub use histories::{Entry, Event, ReplyLine, Unlawful};
pub use laws::{
    a_context_word_has_one_spelling, a_lock_word_has_one_spelling, a_message_is_one_number,
    a_state_word_has_one_spelling,
};
pub use lock_word::LockWord;
pub use memory::NoMemory;
pub use state_word::{Result4, State, StateWord};
pub use threads::{Found, Message, Status, ThreadId};
