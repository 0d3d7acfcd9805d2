// The law of a raw step. It is a function that does nothing, whose contract is the law.
ghost use Rattle.std.specs.Prelude.{length, false, ℕ, ◌<◌, ◌≡◌, ◌≢◌};
ghost use Rattle.k_script.specs.Limits.{IsScript};
ghost use Rattle.k_script.specs.Script.{Script};
ghost use Rattle.k_carrier.specs.Flags.{has_hand, is_settled};
ghost use Rattle.k_world.specs.Steps.{moved};
ghost use Rattle.k_world.specs.Worlds.{World, carrier_at};
ghost use Rattle.k_kernel.specs.Moves.{HasRoom};
ghost use Rattle.k_schedule.specs.Parts.{Falls};
ghost use Rattle.k_running.specs.Running.{KernelHolds};
ghost use Rattle.k_lowered.specs.Lowered.{parts_in};

use k_conditions::a_carrier_can_ask;
use k_handling::every_other_move_keeps_the_kernel;
use k_lowered::the_work_is_that_of_the_board;
use k_owed::programs_count_their_work;
use k_running::{
    a_threads_step_keeps_the_kernel, every_step_keeps_the_kernel, what_the_kernel_has_logged,
};
use k_sound::a_context_stays_sound;
use k_supported::who_waits_is_held_up;
use k_within::a_move_can_be_made;
use k_work::each_step_of_a_lone_carrier_lowers_its_work;

/// While no other carrier has a context in hand, each step of a carrier that leaves it unsettled lowers the work that the world has for
/// it: a part of the measure falls, and none before it rises.
pub fn each_step_lowers_the_work()
    ensures { (script : Script) (w : World) (c : ℕ) → IsScript script → HasRoom script → KernelHolds script w
        → c < length w.carriers → ((d : ℕ) → d < length w.carriers → d ≢ c → has_hand (carrier_at w d) ≡ false)
        → is_settled (carrier_at (moved script c w) c) ≡ false
        → Falls (parts_in script w c) (parts_in script (moved script c w) c) }
{
    a_carrier_can_ask();
    a_context_stays_sound();
    a_move_can_be_made();
    a_threads_step_keeps_the_kernel();
    each_step_of_a_lone_carrier_lowers_its_work();
    every_other_move_keeps_the_kernel();
    every_step_keeps_the_kernel();
    programs_count_their_work();
    the_work_is_that_of_the_board();
    what_the_kernel_has_logged();
    who_waits_is_held_up();
}
