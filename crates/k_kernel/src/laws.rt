// The laws of the running world. Each is a function that does nothing, whose contract is the law.
ghost use Rattle.std.specs.Prelude.{◌*◌, ◌≡◌, ◌≤◌, ℕ, length, false, List, Some};
ghost use Rattle.k_script.specs.Limits.{IsScript};
ghost use Rattle.k_script.specs.Script.{Script};
ghost use Rattle.k_bound.specs.Hands.{first_carrier, meets_taken};
ghost use Rattle.k_bound.specs.Waits.{AreBounded};
ghost use Rattle.k_sections.specs.Forgetting.{BoardEvent, run_on};
ghost use Rattle.k_sections.specs.Situations.{situation_of};
ghost use Rattle.k_sections.specs.Stepping.{kernel_sections};
ghost use Rattle.k_switch.specs.declared.switch.SwitchCall.{SwitchCall};
ghost use Rattle.k_board.specs.Boards.{Board};
ghost use Rattle.k_board.specs.Turns.{Turn};
ghost use Rattle.k_ids.specs.declared.histories.Entry.{Entry};
ghost use Rattle.k_invariant.specs.Invariant.{BoardHolds, IsOpeningBoard};
ghost use Rattle.k_legal.specs.Runs.{Run};
ghost use Rattle.k_plays.specs.Scripts.{ranged_programs};
ghost use Rattle.k_points.specs.Points.{turn_point};
ghost use Rattle.k_kernel.specs.Moves.{HasRoom, IsRunnable};
ghost use Rattle.k_kernel.specs.Worlds.{WorldHolds};
ghost use Rattle.k_caller.specs.Threads.{ThreadSeen};
ghost use Rattle.k_caller.specs.declared.activity.Activity.TheVariants as activity;
ghost use Rattle.k_caller.specs.declared.thread.ThreadLocation.TheVariants as location;
ghost use Rattle.k_context.specs.Contexts.{Thread};
ghost use Rattle.k_ids.specs.declared.calls.Reply.{Reply};
ghost use Rattle.k_places.specs.Memory.{memory_of};
ghost use Rattle.k_places.specs.Shows.{context_in};
ghost use Rattle.k_model.specs.Answered.{reply_to};
ghost use Rattle.k_model.specs.State.{id_of, KernelState};
ghost use Rattle.k_room.specs.Histories.{Follows};
ghost use Rattle.k_script.specs.Weight.{phases_of};
ghost use Rattle.k_world.specs.Runs.{run_of, Turn as WorldTurn};
ghost use Rattle.k_kernel.specs.Runs.{AreRunnable};
ghost use Rattle.k_world.specs.Boot.{booted};
ghost use Rattle.k_world.specs.Steps.{entry_of, moved, parked, recorded, sliced, started, step_in};
ghost use Rattle.k_world.specs.Worlds.{state_at, World};

use k_invariant::{a_reply_is_the_specifications, the_board_holds_at_the_start};
use k_threads::{
    a_create_takes_locks_in_rising_rank, a_destroy_takes_locks_in_rising_rank,
    left_is_the_most_that_a_create_makes, left_is_the_most_that_a_destroy_makes,
};

/// All of it holds of the world in which the kernel begins to run a script, with any number of carriers up to eight.
pub fn the_first_world_holds()
    ensures { (script : Script) (carriers : ℕ) → IsScript script → carriers ≤ 8 → WorldHolds script (booted script carriers) }
{
    the_board_holds_at_the_start();
}

/// After any move of a carrier all of it holds again, of the world that the move leaves, and the history has grown by nothing or
/// by one entry. The script has room for the serials; what is taken for granted of the carrier and of the board is named.
pub fn every_move_keeps_the_world()
    ensures holds { (script : Script) (w : World) (c : ℕ) → IsScript script → HasRoom script → IsRunnable script c w →
        WorldHolds script w → WorldHolds script (moved script c w) }
    ensures history { (script : Script) (w : World) (c : ℕ) →
        (moved script c w).history ≡ recorded (entry_of w (step_in script c w)) w.history }
{}

/// A start, the end of a slice and a park keep all of it.
pub fn what_comes_from_outside_keeps_the_world()
    ensures started { (script : Script) (w : World) (c number : ℕ) → WorldHolds script w →
        WorldHolds script (started c number w) }
    ensures sliced { (script : Script) (w : World) (c : ℕ) → WorldHolds script w → WorldHolds script (sliced c w) }
    ensures parked { (script : Script) (w : World) (c : ℕ) → WorldHolds script w → WorldHolds script (parked c w) }
{}

/// Whatever the schedule, all of it holds of the world that a run comes to. The history of such a world is legal, plays the
/// script, and has twice the phases of the script's programs of entries at most.
pub fn every_run_of_the_world_is_linearizable()
    ensures holds { (script : Script) (carriers : ℕ) (turns : List WorldTurn) → IsScript script → carriers ≤ 8 →
        HasRoom script → AreRunnable script turns (booted script carriers) →
        WorldHolds script (run_of script carriers turns) }
    ensures follows { (script : Script) (w : World) → IsScript script → WorldHolds script w →
        (k : KernelState) × Follows script w.history k × (length w.history ≤ 2 * phases_of script) }
{
    the_board_holds_at_the_start();
}

/// On such a world a thread that goes on after a call, and is made, is given the specification's reply to it.
pub fn a_thread_is_given_the_specifications_reply()
    ensures { (script : Script) (w : World) (h : WorldHolds script w) (i : ℕ) (t : ThreadSeen) (r : Reply) →
        context_in (memory_of w).context (memory_of w).slot (memory_of w).hand i ≡ Some (Thread t) →
        (state_at w i).version ≡ t.id.version → t.activity ≡ activity.Alone (location.Between (Some r)) →
        ((h.state.place i).serial ≡ t.serial) × (reply_to h.state.replies (id_of h.state i) t.serial ≡ Some r) }
{
    a_reply_is_the_specifications();
}
