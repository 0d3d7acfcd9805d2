//! The marks of steps over a whole run: no step is made twice, and the steps of each call are numbered in the order in which
//! they were made.
//!
//! It has no code. `specs/Counting` has the log of marks beside the contexts by number. It says what each context that is there
//! has counted; that no call which is still to come has a mark, be it of this context or of a later thread of its number; and
//! what may become of contexts and of the log. `specs/Brief` says that a switch has few steps, so that each has a number.
//! `specs/Moved` says what a step of a carrier makes of contexts by number, and what it has to find so that it is counted;
//! `specs/Booted` what is counted when a run begins, which is nothing; and `specs/Runs` what is said of a whole run. What a
//! mark is, and what a log of marks has to be, stands in k_world, which numbers the marks of one call in its context's own
//! life.
//!
//! The functions do nothing: each has a law as its contract. That a step finds contexts where their words tell, and leaves them
//! there, is a premise (`IsInPlace`), as is that serials don't end, and that what makes a step can be asked for it
//! (`IsCountable`). k_counted shows the same of the running world, where contexts are as the world shows them.
#![tactic(auto)]

mod laws;

pub use laws::{
    a_carriers_step_is_counted, contexts_count_their_marks, contexts_go_as_counted,
    marks_stay_in_order, no_step_is_made_twice_over_a_run, nothing_is_counted_at_the_start,
};
