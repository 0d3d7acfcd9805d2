// The laws of the courses of a step. Each is a function that does nothing, whose contract is the law.
ghost use Rattle.k_onward.specs.Stepping.{IsStepping};
ghost use Rattle.k_script.specs.Script.{Script};
ghost use Rattle.k_waits.specs.Waits.{WaitsHold};
ghost use Rattle.k_world.specs.Steps.{moved};
ghost use Rattle.k_world.specs.Worlds.{World};

use k_threads::{
    a_create_takes_locks_in_rising_rank, a_destroy_takes_locks_in_rising_rank,
    left_is_the_most_that_a_create_makes, left_is_the_most_that_a_destroy_makes,
};

/// After a step of the one carrier all holds again of its waits, where the kernel holds before and after it.
pub fn a_step_keeps_the_waits()
    ensures { (script : Script) (w : World) → IsStepping script w → WaitsHold script w → WaitsHold script (moved script 0 w) }
{
    a_create_takes_locks_in_rising_rank();
    a_destroy_takes_locks_in_rising_rank();
    left_is_the_most_that_a_create_makes();
    left_is_the_most_that_a_destroy_makes();
}
