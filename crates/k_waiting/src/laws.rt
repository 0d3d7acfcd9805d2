// The laws of waits in the running kernel. Each is a function that does nothing, whose contract is the law.
ghost use Rattle.std.specs.Prelude.{length, List, ℕ, ◌<◌, ◌≡◌, ◌≤◌};
ghost use Rattle.k_kernel.specs.Moves.{HasRoom};
ghost use Rattle.k_running.specs.Running.{KernelHolds};
ghost use Rattle.k_running.specs.Runs.{AreTurnsOf};
ghost use Rattle.k_script.specs.Limits.{IsScript};
ghost use Rattle.k_script.specs.Script.{Script};
ghost use Rattle.k_waits.specs.Waits.{WaitsHold};
ghost use Rattle.k_world.specs.Boot.{booted};
ghost use Rattle.k_world.specs.Lawful.{allowed_by, links_of};
ghost use Rattle.k_world.specs.Marks.{mark_at};
ghost use Rattle.k_world.specs.Owed.{CountsOwed};
ghost use Rattle.k_world.specs.Runs.{run_of, Turn};
ghost use Rattle.k_world.specs.Steps.{moved};
ghost use Rattle.k_world.specs.Worlds.{World};

use k_courses::a_step_keeps_the_waits;
use k_running::{
    a_carrier_can_step, every_step_keeps_the_kernel, the_kernel_holds_at_the_start,
    what_comes_from_outside_keeps_all,
};
use k_sound::a_context_stays_sound;
use k_waits::{
    each_step_that_is_counted_is_owed, no_wait_stands_at_the_start,
    what_comes_from_outside_keeps_the_waits,
};
use k_within::{a_move_can_be_made, a_step_is_within};

/// After any step of the one carrier all holds again of its waits.
pub fn each_step_keeps_the_waits()
    ensures { (script : Script) (w : World) → IsScript script → HasRoom script → KernelHolds script w → WaitsHold script w →
        WaitsHold script (moved script 0 w) }
{
    a_carrier_can_step();
    a_context_stays_sound();
    a_move_can_be_made();
    a_step_is_within();
    a_step_keeps_the_waits();
    every_step_keeps_the_kernel();
}

/// Whatever the one carrier is interrupted by and whomever it runs: in the world that a run comes to, no wait has used more steps
/// than it was allowed, whether it was got, broken or still stands. It was allowed the sum of what its links had left, up to the
/// end of the count. And the carrier's next step, if it counts in the wait that stands, is made by the owner of one of its links,
/// which holds what that link is for.
pub fn every_wait_is_within_what_it_was_allowed()
    ensures holds { (script : Script) (turns : List Turn) → IsScript script → HasRoom script →
        AreTurnsOf script turns (booted script 1) → WaitsHold script (run_of script 1 turns) }
    ensures within { (script : Script) (turns : List Turn) → IsScript script → HasRoom script →
        AreTurnsOf script turns (booted script 1) → (k : ℕ) → k < length (run_of script 1 turns).waits.marks →
        (mark_at (run_of script 1 turns).waits.marks k).used ≤ (mark_at (run_of script 1 turns).waits.marks k).allowed }
    ensures allowed { (script : Script) (turns : List Turn) → IsScript script → HasRoom script →
        AreTurnsOf script turns (booted script 1) → (k : ℕ) → k < length (run_of script 1 turns).waits.marks →
        (mark_at (run_of script 1 turns).waits.marks k).allowed ≡ allowed_by (links_of k (run_of script 1 turns).waits.links) }
    ensures owed { (script : Script) (turns : List Turn) → IsScript script → HasRoom script →
        AreTurnsOf script turns (booted script 1) → CountsOwed script 0 (run_of script 1 turns) }
{
    each_step_keeps_the_waits();
    each_step_that_is_counted_is_owed();
    every_step_keeps_the_kernel();
    no_wait_stands_at_the_start();
    the_kernel_holds_at_the_start();
    what_comes_from_outside_keeps_all();
    what_comes_from_outside_keeps_the_waits();
}
