// The laws of how a run ends. Each is a function that does nothing, whose contract is the law.
ghost use Rattle.std.specs.Prelude.{false, length, true, ℕ, ◌<◌, ◌≡◌, ◌≢◌};
ghost use Rattle.k_carrier.specs.Flags.{is_settled};
ghost use Rattle.k_carrier.specs.Starts.{is_due};
ghost use Rattle.k_carriers.specs.Kernel.{is_told_idle};
ghost use Rattle.k_ending.specs.Ending.{IsAtEnd, IsFreshIn};
ghost use Rattle.k_kernel.specs.Moves.{HasRoom};
ghost use Rattle.k_running.specs.Running.{KernelHolds};
ghost use Rattle.k_script.specs.Limits.{IsScript};
ghost use Rattle.k_script.specs.Script.{Script};
ghost use Rattle.k_world.specs.Steps.{moved, parked, sliced, started, told_of};
ghost use Rattle.k_world.specs.Worlds.{World, carrier_at};

use k_conditions::a_carrier_can_ask;
use k_handling::every_other_move_keeps_the_kernel;
use k_running::a_threads_step_keeps_the_kernel;
use k_sound::a_context_stays_sound;
use k_whole::idle_means_finished;
use k_within::a_move_can_be_made;

/// A carrier that is settled has no switch, so none that is finished: it is fresh.
pub fn who_is_settled_is_fresh()
    ensures { (script : Script) (w : World) (c : ℕ) → KernelHolds script w → c < length w.carriers
        → is_settled (carrier_at w c) ≡ true → IsFreshIn script w c }
{}

/// A start, the end of a slice and a park, of any carrier, change no switch.
pub fn what_comes_from_outside_leaves_who_is_fresh()
    ensures start { (script : Script) (w : World) (c number i : ℕ) → IsFreshIn script w i
        → IsFreshIn script (started c number w) i }
    ensures slice { (script : Script) (w : World) (c i : ℕ) → IsFreshIn script w i → IsFreshIn script (sliced c w) i }
    ensures park { (script : Script) (w : World) (c i : ℕ) → IsFreshIn script w i → IsFreshIn script (parked c w) i }
{}

/// A carrier's own step leaves it fresh, where all others are settled: where its switch comes to its end by the step and takes no
/// thread, no carrier is counted any more.
pub fn a_lone_step_leaves_it_fresh()
    ensures { (script : Script) (w : World) (c : ℕ) → IsScript script → HasRoom script → KernelHolds script w
        → c < length w.carriers → ((d : ℕ) → d < length w.carriers → d ≢ c → is_settled (carrier_at w d) ≡ true)
        → IsFreshIn script w c → IsFreshIn script (moved script c w) c }
{
    a_carrier_can_ask();
    a_context_stays_sound();
    a_move_can_be_made();
    a_threads_step_keeps_the_kernel();
    every_other_move_keeps_the_kernel();
}

/// The step with which a carrier comes to be settled gives back a switch that has taken no thread: where the carrier is fresh, it
/// is told Idle.
pub fn who_ends_last_is_told_idle()
    ensures { (script : Script) (w : World) (c : ℕ) → KernelHolds script w → c < length w.carriers → IsFreshIn script w c
        → is_settled (carrier_at (moved script c w) c) ≡ true → is_told_idle (told_of script c w) ≡ true }
{}

/// Where a step is told Idle, all carriers are settled after it, and no start is due, no thread can go on, and the history is one
/// of the script's, whole.
pub fn idle_is_the_end()
    ensures { (script : Script) (w : World) (c : ℕ) → KernelHolds script w → c < length w.carriers
        → is_told_idle (told_of script c w) ≡ true
        → ((d : ℕ) → d < length w.carriers → is_settled (carrier_at (moved script c w) d) ≡ true)
        → ((n : ℕ) → is_due w.unstarted n ≡ false) → IsAtEnd script (moved script c w) }
{
    idle_means_finished();
}
