//! Who waits to send, as a board shows it; and so the whole state of the one-step kernel, turn by turn.
//!
//! It has no code. `specs/Waiting` says who waits to send to a number: the entries of its queue whose senders still wait for its
//! thread, in their order, and the one that is about to come there. `specs/Follows` says what it means that a turn is followed
//! by the one-step kernel, lists and all. `specs/Runs` puts the parts together that are proved of every board that can be
//! reached, and says what a run is: turns of any contexts in any order.
//!
//! The functions do nothing: each has a law as its contract. What a turn's point decides stands in k_points.
#![tactic(auto)]

mod laws;

pub use laws::{
    a_lawful_board_stays_lawful, every_run_leaves_a_legal_history, every_turn_is_followed,
    messages_stay_in_range, the_first_board_is_followed,
};
