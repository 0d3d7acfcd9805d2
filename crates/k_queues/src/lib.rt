//! What stands in the queues of senders, on boards: a part of the kernel's invariant that is kept by every turn of any context.
//!
//! It has no code. `specs/Tasks` says what a context still has to do in queues, by its location. `specs/Queues` says that who
//! waits to send has an entry in the queue of the thread that it waits for, and that each entry is of one that waits, or of one
//! that was freed or destroyed and whose entry has yet to be taken out. So the queues tell what a turn stands on (k_good), and
//! a queue that nobody works on has exactly those who wait.
//!
//! The functions do nothing: each has a law as its contract. What a turn is, and what each location rests on, stands in k_board.
#![tactic(auto)]

mod laws;

pub use laws::{
    a_queue_that_nobody_works_on_has_who_waits, every_turn_keeps_a_proper_board,
    every_turn_keeps_the_queues, the_first_board_is_proper, the_queues_hold_at_the_start,
    the_queues_tell_what_a_turn_stands_on,
};
