//! Doubly linked rows by number: a list of entries, each with a number of its own, from whose middle an entry can be taken.
//!
//! There is one row for each number below a bound, as kernels queue their thread control blocks. A row has the entry of its
//! number and the numbers of the entries before and after it. So an entry is found, appended, put to the front and taken out by
//! its number, and each of these changes three rows at most.
//!
//! - [`Numbered`] is what can stand in a list: it has a number, 0 to 254.
//! - `Links::opened` takes all memory that a list ever needs. No other call takes any.
//! - `push` appends, `push_first` puts to the front, `take_number` takes the entry of a number out; the others keep their order.
//! - `first` and `after` walk from entry to entry; `entry` and `rows` show the entry of a number, and each number's row.
//!
//! Contracts see a list as its entries in their order and `room`, how many numbers there are. Each clause says the whole new
//! list. `specs/Listed` says what a list tells of a number, `specs/Links` how it is linked. Both are stated over any type of
//! entries and any function that gives their number.
//!
//! What it costs: each call but `opened` costs the same whatever the list holds.
#![tactic(auto)]

mod links;
mod numbered;
mod rows;

pub use links::Links;
pub use numbered::Numbered;
pub use rows::Row;
