//! The bound on waits, of the raw world with one carrier: each wait that ended since the requester got what it asked
//! for took no more steps than its links allow, and each of these steps was made by an owner of a link that held what
//! the link is for.
//!
//! It has no code. `specs/Waits` ties the log of waits to a board that the world shows: there k_bound has the theorem
//! on chains of owners, and k_sections the laws on the steps of contexts that it stands on. The tie holds at the start,
//! and what comes from outside keeps it. That each step of the carrier keeps it is proved in k_courses. For that there are
//! the laws on a step that is held up, on what is published, on the one turn of a step, and on what it leaves of others.
//!
//! The functions do nothing: each has a law as its contract.
#![tactic(auto)]

mod laws;

pub use laws::{
    a_link_has_what_its_owner_publishes, a_step_in_a_section_is_one_turn,
    a_step_leaves_other_contexts, a_step_that_is_held_up_leaves_the_board,
    each_step_that_is_counted_is_owed, each_wait_that_is_got_is_bounded,
    no_wait_stands_at_the_start, the_log_shows_a_mark, what_comes_from_outside_keeps_the_waits,
};
