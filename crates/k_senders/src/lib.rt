//! Sender queues: those who wait to send to one thread, in the order in which they came.
//!
//! A receiver takes the first sender that it wants, wherever that one stands, and a thread that is destroyed leaves the
//! middle of a queue. So the queue is linked both ways through one row for each thread number, as kernels queue their
//! thread control blocks. A thread waits to send to one other at most, so a number has one entry at most.
//!
//! - `Senders::opened` takes all memory that a queue ever needs. No other call takes any.
//! - `push` appends. `take_number`, `take` and `unlink` take one entry out, by number, by position and by thread; the others
//!   keep their order.
//! - `first` and `after` walk from entry to entry; `rows` shows each number's entry and its two neighbours.
//! - `at` and `len` show the entry at a position and how many there are.
//!
//! Contracts see a queue as the list of its entries and `room`, how many thread numbers there are. Each clause says the
//! whole new list.
//!
//! What it costs: `at(i)` and `take(i)` walk i links. Each other call but `opened` costs the same whatever the queue holds.
//!
//! Numbers are 0 to 63. An entry is made `of` a sender and its message, and shows its `sender`, `message` and `number`: no other
//! library does arithmetic on its bits. Contracts name them by the ghost functions of `specs/Entries`, of which
//! [`an_entry_is_a_sender_and_a_message`] says all that is known.
#![tactic(auto)]

mod entries;
mod laws;
mod senders;

pub use entries::{SenderEntry, who_of};
pub use laws::an_entry_is_a_sender_and_a_message;
pub use senders::Senders;
