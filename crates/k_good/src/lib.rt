//! A good board: parts of the kernel's invariant on boards, each kept by every turn of any context.
//!
//! It has no code. `specs/Locks` says that a lock names a context exactly where the context's location holds it. No case of a
//! location is needed for that: it follows from what is claimed once of any section's table (k_locks). `specs/Numbers` says that the
//! list of numbers agrees with the words, but for the number that the owner of the table lock is about to note, and that a number
//! without a thread has no context, but for the one that is being made or removed. `specs/Outward` says that nobody waits to send to
//! its own number. `specs/Ranges` says that the thread ids in words and locations are of the table's range. `specs/Good` puts these beside what each context's next step rests on (k_board), and says what a turn stands on
//! besides, of queues and of the history.
//!
//! The functions do nothing: each has a law as its contract. What a turn is, and what each location rests on, stands in k_board.
#![tactic(auto)]

mod laws;

pub use laws::{
    a_create_chooses_an_unused_number, every_turn_keeps_a_good_board,
    locks_name_contexts_after_any_turn, the_first_board_is_good, thread_ids_start_in_range,
    thread_ids_stay_in_range,
};
