//! The locks of the kernel, what they guard, and what an atomic step of a critical section is.
//!
//! The table lock has rank 0 and guards the list of thread numbers. A thread lock has rank 1 and guards the queue of those who
//! wait to send to that thread. The ready lock has rank 2 and guards the ready lists. Whoever holds a lock has what it guards
//! in hand, as a value; the release puts it back. A section holds one lock of each rank at most, and takes them in rising
//! rank, so no chain of owners closes into a cycle (Hohmuth and Härtig, *Pragmatic Nonblocking Synchronization for Real-Time
//! Systems*). The three ranks are this project's own.
//!
//! A [`Step`] is one load, one store or one compare-exchange on one word of 64 bits, with what moves along with it. An
//! [`Answer`] is what came of it, and [`Went`] how the section goes on. `specs/Steps` says what each step makes of its word,
//! which answers it can have, and what comes and goes with it. Words stand in steps and answers as bits; k_ids reads them.
//!
//! The tables of the sections speak of decoded words: `specs/Asks` has their steps and responses, `specs/Hands` what is in hand,
//! and `specs/Tables` what a section is, and what is claimed of the locks and the steps of any. A [`Point`] is the event of a step.
//!
//! A state word that was loaded is read by [`state_word`]; [`found_in`] and the functions beside it say what it shows.
//!
//! [`Numbers`] is the list that the table lock guards: which numbers have a thread, and of which version.
#![tactic(auto)]

mod goods;
mod laws;
mod locks;
mod numbers;
mod points;
mod shown;
mod steps;
mod threads;

pub use goods::Goods;
pub use laws::{
    a_queue_is_parted, an_answer_is_a_response, an_exchange_is_of_words, places_are_apart,
    the_lowest_is_held,
};
pub use locks::{Lock, WordName, rank};
pub use numbers::Numbers;
pub use points::Point;
pub use shown::{found_in, is_dead, is_present_in, shows, state_word, takes_from};
pub use steps::{Answer, Step, Told, Went, one_more};
pub use threads::{admits, is_same};
