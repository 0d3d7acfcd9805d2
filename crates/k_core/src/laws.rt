// The laws of the running kernel as code. Each is a function that does nothing, whose contract is the law.
ghost use Rattle.std.specs.Prelude.{◌*◌, ◌≡◌, ◌<◌, ◌≤◌, ℕ, length, true};
ghost use Rattle.k_model.specs.State.{KernelState};
ghost use Rattle.k_script.specs.Limits.{IsScript};
ghost use Rattle.k_script.specs.Script.{Script};
ghost use Rattle.k_script.specs.Weight.{phases_of};
ghost use Rattle.k_carrier.specs.Starts.{is_due};
ghost use Rattle.k_room.specs.Histories.{Follows};
ghost use Rattle.k_world.specs.Boot.{booted};
ghost use Rattle.k_world.specs.Lawful.{IsLawfulLog, IsLawfulMarks, IsOnceMade};
ghost use Rattle.k_world.specs.Steps.{moved, parked, sliced, started};
ghost use Rattle.k_kernel.specs.Moves.{HasRoom};
ghost use Rattle.k_logs.specs.Seen as logs;
ghost use Rattle.k_core.specs.Conditions.{CanStep};
ghost use Rattle.k_core.specs.Parts.{ArePlaced, Parts, world_in};
ghost use Rattle.k_core.specs.Running.{IsRunning};

use k_running::{
    a_carrier_can_step, every_step_keeps_the_kernel, the_kernel_holds_at_the_start,
    what_comes_from_outside_keeps_all, what_the_kernel_has_logged,
};

/// Of a running kernel each carrier can make a step, where there is room for one mark more of each kind.
pub(crate) fn the_kernel_can_step()
    ensures { (script : Script) (p : Parts) (c : ℕ) → IsScript script → HasRoom script → IsRunning script p
        → logs.HasRoom p.logs.room → c < length p.carriers → CanStep script p c }
{
    a_carrier_can_step();
    every_step_keeps_the_kernel();
    what_the_kernel_has_logged();
}

/// The parts that show the world after a step, with the same room in the history, are those of a running
/// kernel again; so are those that show the first world.
pub(crate) fn each_step_goes_on()
    ensures first { (script : Script) (p : Parts) (carriers : ℕ) → IsScript script → carriers ≤ 8
        → world_in script p ≡ booted script carriers → ArePlaced script p
        → 2 * phases_of script ≤ p.recorded.capacity → IsRunning script p }
    ensures step { (script : Script) (p q : Parts) (c : ℕ) → IsScript script → HasRoom script
        → IsRunning script p → c < length p.carriers
        → world_in script q ≡ moved script c (world_in script p) → ArePlaced script q
        → q.recorded.capacity ≡ p.recorded.capacity → IsRunning script q }
{
    every_step_keeps_the_kernel();
    the_kernel_holds_at_the_start();
}

/// So are the parts that show the world after a start that hadn't come yet, after the end of a slice, and after
/// a park.
pub(crate) fn what_comes_from_outside_goes_on()
    ensures start { (script : Script) (p q : Parts) (c number : ℕ) → IsScript script → IsRunning script p
        → c < length p.carriers → is_due p.unstarted number ≡ true
        → world_in script q ≡ started c number (world_in script p) → ArePlaced script q
        → q.recorded.capacity ≡ p.recorded.capacity → IsRunning script q }
    ensures slice { (script : Script) (p q : Parts) (c : ℕ) → IsScript script → IsRunning script p
        → c < length p.carriers → world_in script q ≡ sliced c (world_in script p) → ArePlaced script q
        → q.recorded.capacity ≡ p.recorded.capacity → IsRunning script q }
    ensures park { (script : Script) (p q : Parts) (c : ℕ) → IsScript script → IsRunning script p
        → c < length p.carriers → world_in script q ≡ parked c (world_in script p) → ArePlaced script q
        → q.recorded.capacity ≡ p.recorded.capacity → IsRunning script q }
{
    what_comes_from_outside_keeps_all();
}

/// The history of a running kernel is legal (Herlihy and Wing), plays the script, and has at most two entries
/// of each call that the script's threads may make. No step has two marks, and those of each call and each
/// switch are numbered in the order in which they were made. Each mark of a wait has its links, none twice, and
/// allows the sum of what they have left.
pub fn what_a_running_kernel_has_logged()
    ensures history { (script : Script) (p : Parts) → IsScript script → IsRunning script p → (k : KernelState)
        × Follows script p.recorded.entries k × (length p.recorded.entries ≤ 2 * phases_of script) }
    ensures steps { (script : Script) (p : Parts) → IsRunning script p
        → IsLawfulMarks p.logs.steps × IsOnceMade p.logs.steps }
    ensures waits { (script : Script) (p : Parts) → IsRunning script p → IsLawfulLog p.logs.waits }
{
    what_the_kernel_has_logged();
}
