// The laws of a schedule, of the running kernel. Each is a function that does nothing, whose contract is the law.
ghost use Rattle.std.specs.Prelude.{length, true, List, ℕ, ◌<◌, ◌≡◌, ◌≤◌, ◌∷◌};
ghost use Rattle.k_carrier.specs.Starts.{is_due};
ghost use Rattle.k_carriers.specs.Kernel.{kernel_carriers};
ghost use Rattle.k_kernel.specs.Moves.{HasRoom};
ghost use Rattle.k_schedule.specs.Carriers.{ScheduleLaws};
ghost use Rattle.k_scheduled.specs.Scheduled.{IsGoodAt, kernel_facts};
ghost use Rattle.k_script.specs.declared.lines.AtLine.{AtLine};
ghost use Rattle.k_script.specs.declared.lines.AtWhat.TheVariants as what;
ghost use Rattle.k_script.specs.Limits.{IsScript};
ghost use Rattle.k_script.specs.Script.{Script};
ghost use Rattle.k_script.specs.Weight.{weight_of};
ghost use Rattle.k_world.specs.Boot.{booted};
ghost use Rattle.k_world.specs.Worlds.{World};

use k_ending::{
    a_lone_step_leaves_it_fresh, idle_is_the_end, what_comes_from_outside_leaves_who_is_fresh,
    who_ends_last_is_told_idle, who_is_settled_is_fresh,
};
use k_falling::each_step_lowers_the_work;
use k_running::{
    every_step_keeps_the_kernel, the_kernel_holds_at_the_start, what_comes_from_outside_keeps_all,
};
use k_script::calls_weigh_four;

/// The world in which the kernel begins to run a script, with the script's carriers, is good; all lines are still to come.
pub fn the_first_world_is_good()
    ensures { (script : Script) → IsScript script → IsGoodAt script (booted script script.carriers) script.at_lines }
{
    the_kernel_holds_at_the_start();
}

/// In a good world, the thread that the next line starts is one of the script's, and its start hasn't come yet.
pub fn the_next_start_is_due()
    ensures due { (script : Script) (w : World) (line : AtLine) (lines : List AtLine) (number : ℕ)
        → IsGoodAt script w (line ∷ lines) → line.what ≡ what.Start number → is_due w.unstarted number ≡ true }
    ensures there { (script : Script) (w : World) (line : AtLine) (lines : List AtLine) (number : ℕ)
        → IsGoodAt script w (line ∷ lines) → line.what ≡ what.Start number → number < length script.threads }
{}

/// A script that weighs no more than the limit has few enough phases for each serial to be counted.
pub fn a_script_within_the_limit_has_room()
    ensures { (script : Script) → weight_of script ≤ 4000000 → HasRoom script }
{
    calls_weigh_four();
}

/// The carriers of the kernel keep the laws of a schedule. A step, a park and the event of the next line keep a world good; a
/// carrier's own steps alone change what it has in hand, and whether it is settled; its work falls with each step of its burst;
/// and where all are settled and no line is left, no thread can go on.
pub fn the_kernel_keeps_the_schedule()
    ensures { (script : Script) → IsScript script → HasRoom script
        → ScheduleLaws World (kernel_carriers script) (kernel_facts script) }
{
    a_lone_step_leaves_it_fresh();
    each_step_lowers_the_work();
    every_step_keeps_the_kernel();
    idle_is_the_end();
    what_comes_from_outside_keeps_all();
    what_comes_from_outside_leaves_who_is_fresh();
    who_ends_last_is_told_idle();
    who_is_settled_is_fresh();
}
