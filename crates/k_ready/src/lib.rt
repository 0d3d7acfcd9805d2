//! Ready lists: for each priority the threads that run and wait for the processor.
//!
//! The dispatcher takes the first thread of the highest priority. A thread that a call sets running goes to the end of its
//! list, one that loses the processor to the front, and one that is destroyed or stops running leaves the middle. So each
//! list is linked both ways through one row for each thread number, and a mask tells which priorities have threads. The 64
//! priorities and the order within one are this project's own.
//!
//! - `ReadyLists::opened` takes all memory that the lists ever need. No other call takes any.
//! - `push` appends to the list of a priority, `push_first` puts to its front.
//! - `pop_highest` takes the first thread of the highest list that isn't empty.
//! - `remove` takes one thread, a number with its version, out of the list in which it stands.
//! - `mask` tells which lists have threads. `running` and `set_running` keep a count for the caller.
//!
//! Contracts see 64 lists of thread ids and `running`. Each clause says the whole new value. A number stands in one list
//! at most.
//!
//! What it costs: each call but `opened` costs the same whatever the lists hold. The highest priority is found by counting
//! the leading zeros of the mask. There is a row for each number in each of the 64 lists, some 64 KB in all, of which a call
//! reads three.
//!
//! Numbers and priorities are 0 to 63.
#![tactic(auto)]

mod chain;
mod laws;
mod lists;
mod mask;

pub use laws::{one_list_is_changed, the_highest_is_the_first_of_its_list};
pub use lists::ReadyLists;
