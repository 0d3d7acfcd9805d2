//! Who is on.
//!
//! A thread that is on is a token of the kernel: it stands in one ready list, or is one carrier's goal, or one section has turned
//! it on and has yet to push it, or its start hasn't come. No two have it, and nobody loses it. A thread that is off is asleep or
//! at its end. So an idle kernel is one in which nobody can go on.
//!
//! It has no code. `specs/World` has what of the kernel's words, contexts and carriers bears on this; `specs/Steps` the steps of
//! threads' contexts, by what they do to it; `specs/Good` the good world: a pointer from each thread that ever was to whoever has
//! it, and what holds of threads, carriers and the ready lock beside; `specs/Grants` what is asked of a step: that a carrier runs
//! its context, and what its location grants; `specs/Claims` what the good world says without the pointer.
//!
//! The functions do nothing: each has a law as its contract. What carriers do, and that they run nobody else, is proved in the
//! crate above. `proofs/Views` is for those who view the places of all contexts as these maps.
#![tactic(auto)]

mod laws;

pub use laws::{
    a_thread_step_keeps_the_good_world, idle_means_rest, ready_lists_are_counted,
    who_is_coming_holds_no_lock, who_is_on_has_one_holder,
};
