//! The kernel's sections as sections that wait for each other: what the contexts of a board publish keeps the ten laws on
//! waiting. So each wait of a carrier is bounded by the chain of owners that it met.
//!
//! It has no code. `specs/Situations` says what a context asks for, who holds that, and how many steps it is from a release, by
//! the published table of the section in which it stands. `specs/Stepping` has its next step, with the one response that words
//! and locks give: it is a turn of the board (k_board). `specs/Kept` says what the laws are claimed of: any invariant of boards
//! that every turn keeps, with the premises that it has to imply. `specs/Forgetting` has the carrier on a board over any time,
//! while contexts are removed and their numbers used again. `specs/Worked` has a wait that is worked out. The ten laws, and the
//! bound that follows from them, stand in k_bound.
//!
//! The functions do nothing: each has a law as its contract.
#![tactic(auto)]

mod laws;

pub use laws::{
    Kept, Queued, a_sound_board_is_kept, a_wait_on_a_board_is_bounded,
    a_wait_on_a_board_is_bounded_by_the_rules_of_the_hand, a_wait_on_a_board_is_worked_out,
    the_kernels_sections_keep_the_laws, the_next_step_is_the_turn,
    what_is_published_is_told_by_the_hand,
};
