//! The world in which the kernel begins to run a script: it shows a board, and its carriers are those of a good world, of which
//! all of the whole holds.
//!
//! It has no code. The board is k_places' first board, and the good world that of an opening (k_switching): the script's threads,
//! their priorities, and who waits for a start.
//!
//! The function does nothing: it has the law as its contract.
#![tactic(auto)]

mod laws;

pub use laws::the_kernel_stands_at_the_start;
