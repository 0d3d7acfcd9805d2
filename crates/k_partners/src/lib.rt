//! Who waits to receive from one thread, and whether that thread is there.
//!
//! It has no code. `specs/Partners` says that whoever waits to receive from one thread waits for another, which is there, or
//! that the wait is about to end, for one of two reasons. The one that waits stands itself where it looks for the other, or
//! where it found that the other isn't there. Or the other was killed by the destroy that owns the table lock, which is still
//! to visit the one that waits.
//!
//! The functions do nothing: each has a law as its contract. Who begins to wait, and who is killed, follows from the exchange
//! of each location (`proofs/Came`); a destroy's way through the numbers from its table alone (`proofs/Ahead`). What a board
//! and a turn are stands in k_board, and what else holds of a board in k_good.
#![tactic(auto)]

mod laws;

pub use laws::{
    a_destroy_leaves_nobody_waiting, nobody_waits_for_a_thread_that_is_no_more,
    nobody_waits_for_a_thread_to_come, nobody_waits_for_its_own_number,
    partners_are_there_at_the_start, partners_stay_there, who_looks_in_vain_waits_no_more,
};
