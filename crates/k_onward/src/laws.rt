// The laws of a step that goes on. Each is a function that does nothing, whose contract is the law.
ghost use Rattle.std.specs.Prelude.{Some, true, ℕ, ◌≡◌, ◌≤◌};
ghost use Rattle.k_context.specs.Contexts.{ContextSeen, owner_of};
ghost use Rattle.k_onward.specs.Stepping.{IsStepping};
ghost use Rattle.k_script.specs.Script.{Script};
ghost use Rattle.k_waits.specs.Waits.{WaitsHold};
ghost use Rattle.k_world.specs.Marks.{got_by, has_mark, mark_at, Onward, standing_at, used_once};
ghost use Rattle.k_world.specs.Steps.{course_in, moved, step_in, unbroken_waits};
ghost use Rattle.k_world.specs.Worlds.{World};

use k_threads::{
    a_create_takes_locks_in_rising_rank, a_destroy_takes_locks_in_rising_rank,
    left_is_the_most_that_a_create_makes, left_is_the_most_that_a_destroy_makes,
};

/// Whenever a step is counted in the mark that stands, that mark allows one step more than were used so far. A step of the
/// requester itself isn't counted: its mark doesn't stand any more.
pub fn a_step_that_is_counted_has_room()
    ensures { (script : Script) (w : World) (v : ContextSeen) (k : ℕ) → IsStepping script w → WaitsHold script w →
        course_in (step_in script 0 w) ≡ Onward v → has_mark v ≡ true →
        standing_at (got_by (owner_of v) (unbroken_waits w)) 0 ≡ Some k →
        (used_once (mark_at w.waits.marks k)).used ≤ (mark_at w.waits.marks k).allowed }
{
    a_create_takes_locks_in_rising_rank();
    a_destroy_takes_locks_in_rising_rank();
    left_is_the_most_that_a_create_makes();
    left_is_the_most_that_a_destroy_makes();
}
