// The laws of the marks of steps. Each is a function that does nothing, whose contract is the law.
ghost use Rattle.std.specs.Prelude.{List, Some, length, ℕ, ◌≡◌, ◌≤◌};
ghost use Rattle.k_context.specs.Contexts.{ContextSeen, done_of, owner_of, serial_of};
ghost use Rattle.k_counted.specs.Marks.{MarksHold};
ghost use Rattle.k_kernel.specs.Moves.{HasRoom, IsRunnable};
ghost use Rattle.k_kernel.specs.Runs.{AreRunnable};
ghost use Rattle.k_kernel.specs.Worlds.{WorldHolds};
ghost use Rattle.k_script.specs.Limits.{IsScript};
ghost use Rattle.k_script.specs.Script.{Script};
ghost use Rattle.k_world.specs.Boot.{booted};
ghost use Rattle.k_world.specs.Lawful.{IsLawfulMarks, IsOnceMade, numbers_of};
ghost use Rattle.k_world.specs.Runs.{Turn, run_of};
ghost use Rattle.k_world.specs.Steps.{moved, parked, sliced, started};
ghost use Rattle.k_world.specs.Worlds.{World, context_at};

use k_kernel::the_first_world_holds;

/// In the world in which the kernel begins to run a script, with any number of carriers up to eight, no
/// context has counted a step, and there is no mark.
pub fn the_marks_hold_at_the_start()
    ensures { (script : Script) (carriers : ℕ) → IsScript script → carriers ≤ 8 →
        MarksHold script (booted script carriers) }
{}

/// After any move of a carrier each context has counted its steps again, and no call to come has a mark.
pub fn every_step_is_counted()
    ensures { (script : Script) (w : World) (c : ℕ) → IsScript script → HasRoom script → WorldHolds script w →
        IsRunnable script c w → MarksHold script w → MarksHold script (moved script c w) }
{}

/// A start, the end of a slice and a park change no mark and no context.
pub fn what_comes_from_outside_keeps_the_marks()
    ensures started { (script : Script) (w : World) (c number : ℕ) → MarksHold script w →
        MarksHold script (started c number w) }
    ensures sliced { (script : Script) (w : World) (c : ℕ) → MarksHold script w →
        MarksHold script (sliced c w) }
    ensures parked { (script : Script) (w : World) (c : ℕ) → MarksHold script w →
        MarksHold script (parked c w) }
{}

/// In such a world the marks of each call are numbered in the order of its steps, and none stands twice; and
/// a context has made as many steps of its call as it has counted.
pub fn the_steps_of_each_call_are_in_order()
    ensures order { (script : Script) (w : World) → MarksHold script w → IsLawfulMarks w.steps }
    ensures once { (script : Script) (w : World) → MarksHold script w → IsOnceMade w.steps }
    ensures call { (script : Script) (w : World) → MarksHold script w → (n : ℕ) (v : ContextSeen) →
        context_at w n ≡ Some v → length (numbers_of (owner_of v) (serial_of v) w.steps) ≡ done_of v }
{}

/// Whatever the schedule, so it is of the world that a run comes to, and no step stands twice in its log.
pub fn no_run_makes_a_step_twice()
    ensures holds { (script : Script) (carriers : ℕ) (turns : List Turn) → IsScript script → carriers ≤ 8 →
        HasRoom script → AreRunnable script turns (booted script carriers) →
        MarksHold script (run_of script carriers turns) }
    ensures once { (script : Script) (carriers : ℕ) (turns : List Turn) → IsScript script → carriers ≤ 8 →
        HasRoom script → AreRunnable script turns (booted script carriers) →
        IsOnceMade (run_of script carriers turns).steps }
{
    the_first_world_holds();
}
