//! The linearization points of the kernel: each is one event of the sequential specification.
//!
//! It has no code. `specs/Shown` says which state of the specification a board shows. `specs/Points` says what a turn with a
//! point has to show: the point's event may be made in that state, has the point's outcome, is the call that the program gives,
//! and the new board shows the state that it leaves. A turn without a point leaves the state. `specs/Starts` is the board at the
//! beginning.
//!
//! The functions do nothing: each has a law as its contract. What a turn is, and what each location rests on, stands in k_board
//! and k_good.
#![tactic(auto)]

mod laws;

pub use laws::{
    calls_that_wait_are_unanswered, every_turn_is_a_row_or_shows_the_same,
    every_turn_notes_its_point, the_first_board_shows_the_opening_state,
    what_a_thread_is_given_is_its_reply,
};
