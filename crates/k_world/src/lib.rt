//! The kernel as a whole, as plain data, what one atomic step of a carrier makes of it, and the marks that steps leave.
//!
//! It has no code. `specs/Worlds` has the world; `specs/Moves` what each move of a carrier makes of words and slots;
//! `specs/Steps` one atomic step, and what a start, a slice and a park set; `specs/Boot` the world in which a script's run begins;
//! `specs/Marks` the marks of steps and of waits; `specs/Lawful` what holds of these marks, whatever was done; `specs/Owed`
//! whose steps may be counted in a wait; `specs/Frames` what a step leaves as it was; `specs/Runs` a run, by a list of turns; and
//! `specs/Examples` three of them.
//!
//! The functions do nothing: each has a law as its contract.
#![tactic(auto)]

mod laws;

pub use laws::{
    a_dropped_goal_breaks_a_wait, a_marked_step_is_counted, a_run_begins_so,
    a_step_is_marked_unless_made_again, a_step_is_on_one_word, a_thread_waits_for_its_start,
    an_interruption_breaks_a_wait, asking_again_adds_nothing, lists_keep_their_lengths, logs_grow,
    marks_are_in_order, the_requesters_step_ends_a_wait, waits_are_lawful, worked_runs_come_out,
};
