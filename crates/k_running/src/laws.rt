// The laws of the running kernel. Each is a function that does nothing, whose contract is the law.
ghost use Rattle.std.specs.Prelude.{◌*◌, ◌≡◌, ◌<◌, ◌≤◌, IfSome, ℕ, List, length, true};
ghost use Rattle.k_model.specs.State.{KernelState};
ghost use Rattle.k_script.specs.Limits.{IsScript};
ghost use Rattle.k_script.specs.Script.{Script};
ghost use Rattle.k_caller.specs.Threads.{ThreadSeen};
ghost use Rattle.k_context.specs.Contexts.{ContextSeen, Thread};
ghost use Rattle.k_carrier.specs.declared.marks.Want.{Want};
ghost use Rattle.k_carrier.specs.Asked.{Run, ask_of};
ghost use Rattle.k_carrier.specs.Starts.{is_due};
ghost use Rattle.k_script.specs.Weight.{phases_of};
ghost use Rattle.k_room.specs.Histories.{Follows};
ghost use Rattle.k_world.specs.Boot.{booted};
ghost use Rattle.k_world.specs.Lawful.{IsLawfulLog, IsLawfulMarks, IsOnceMade};
ghost use Rattle.k_world.specs.Marks.{HeldUp};
ghost use Rattle.k_world.specs.Runs.{Turn, run_of};
ghost use Rattle.k_world.specs.Steps.{course_in, entry_of, moved, parked, sliced, started, step_in};
ghost use Rattle.k_world.specs.Worlds.{World, carrier_at};
ghost use Rattle.k_board.specs.Boards.{Board};
ghost use Rattle.k_tokens.specs.World as tokens;
ghost use Rattle.k_kernel.specs.Moves.{HasRoom, IsRunnable};
ghost use Rattle.k_handling.specs.Handling.{IsKernel};
ghost use Rattle.k_running.specs.Running.{KernelHolds};
ghost use Rattle.k_running.specs.Runs.{AreTurnsOf};
ghost use Rattle.k_running.specs.Threads.{HasRun};
ghost use Rattle.k_running.specs.Turning.{CanFind, CanTurn, IsElsewhere, IsEntryFit};

use k_beginning::the_kernel_stands_at_the_start;
use k_conditions::{
    a_carrier_can_ask, a_carrier_can_be_told, a_store_can_perform, the_callers_word_is_spelled,
    what_is_sound_stays_sound,
};
use k_counted::{
    every_step_is_counted, the_marks_hold_at_the_start, the_steps_of_each_call_are_in_order,
    what_comes_from_outside_keeps_the_marks,
};
use k_handling::{every_other_move_keeps_the_kernel, what_comes_from_outside_keeps_the_kernel};
use k_sound::a_context_stays_sound;
use k_spelled::{every_turn_keeps_the_words, words_hold_at_the_start};
use k_threads::{
    a_create_takes_locks_in_rising_rank, a_destroy_takes_locks_in_rising_rank,
    left_is_the_most_that_a_create_makes, left_is_the_most_that_a_destroy_makes,
};
use k_within::{a_move_can_be_made, a_step_is_within};

/// After a step of a thread's context, in the hand of any carrier, all of the kernel holds again, but for the soundness of carriers and
/// contexts: the board has made the turn, or two where a call began, and the carriers the step that its location grants. What the
/// carrier finds of the step is what the maps of the raw world tell.
pub fn a_threads_step_keeps_the_kernel()
    ensures { (script : Script) (w : World) (b : Board) (view : tokens.World) (state : KernelState) (c n : ℕ) (t : ThreadSeen)
        → IsScript script → HasRoom script → IsKernel script w b view state → IsRunnable script c w
        → ask_of (carrier_at w c) ≡ Run (record { context = n; value = Thread t })
        → HasRun script b view w.history c n t (moved script c w) }
{}

/// All of the kernel holds of the world in which it begins to run a script, with any number of carriers up to eight.
pub fn the_kernel_holds_at_the_start()
    ensures { (script : Script) (carriers : ℕ) → IsScript script → carriers ≤ 8 → KernelHolds script (booted script carriers) }
{
    the_kernel_stands_at_the_start();
    the_marks_hold_at_the_start();
    words_hold_at_the_start();
}

/// After any step of any carrier all of the kernel holds again, of the raw world that the step leaves.
pub fn every_step_keeps_the_kernel()
    ensures { (script : Script) (w : World) (c : ℕ) → IsScript script → HasRoom script → c < length w.carriers
        → KernelHolds script w → KernelHolds script (moved script c w) }
{
    a_carrier_can_ask();
    a_context_stays_sound();
    a_move_can_be_made();
    a_step_is_within();
    every_other_move_keeps_the_kernel();
    every_step_is_counted();
    every_turn_keeps_the_words();
    what_is_sound_stays_sound();
}

/// A start that hasn't come yet, the end of a slice and a park keep all of it, at any moment.
pub fn what_comes_from_outside_keeps_all()
    ensures start { (script : Script) (w : World) (c number : ℕ) → IsScript script → KernelHolds script w
        → c < length w.carriers → is_due w.unstarted number ≡ true → KernelHolds script (started c number w) }
    ensures slice { (script : Script) (w : World) (c : ℕ) → IsScript script → KernelHolds script w → c < length w.carriers
        → KernelHolds script (sliced c w) }
    ensures park { (script : Script) (w : World) (c : ℕ) → IsScript script → KernelHolds script w → c < length w.carriers
        → KernelHolds script (parked c w) }
{
    what_comes_from_outside_keeps_the_kernel();
    what_comes_from_outside_keeps_the_marks();
}

/// Whatever carriers make their steps, and in whatever order, and whatever comes from outside between them, all of the kernel holds of
/// the world that a run comes to.
pub fn every_run_keeps_the_kernel()
    ensures { (script : Script) (carriers : ℕ) (turns : List Turn) → IsScript script → HasRoom script → carriers ≤ 8
        → AreTurnsOf script turns (booted script carriers) → KernelHolds script (run_of script carriers turns) }
{
    every_step_keeps_the_kernel();
    the_kernel_holds_at_the_start();
    what_comes_from_outside_keeps_all();
}

/// A carrier's step can be made, whenever it is its turn: the carrier can be asked for its move, the move can be performed, and what
/// comes of it can be told. The entry of the step, if it makes one, is of numbers that have a last serial, and its serial is a
/// number of 32 bits. The context that holds up the step, if one does, can be told of, and isn't in the carrier's own hand.
pub fn a_carrier_can_step()
    ensures turn { (script : Script) (w : World) (c : ℕ) → IsScript script → HasRoom script → KernelHolds script w
        → c < length w.carriers → CanTurn script w (carrier_at w c) }
    ensures entry { (script : Script) (w : World) (c : ℕ) → IsScript script → HasRoom script → KernelHolds script w
        → c < length w.carriers → IfSome (entry_of w (step_in script c w)) (IsEntryFit w) }
    ensures found { (script : Script) (w : World) (c : ℕ) → IsScript script → HasRoom script → KernelHolds script w
        → c < length w.carriers → (v : ContextSeen) (wants : Want) (i : ℕ)
        → course_in (step_in script c w) ≡ HeldUp v wants i → CanFind script w i × IsElsewhere c w i }
{
    a_carrier_can_ask();
    a_carrier_can_be_told();
    a_context_stays_sound();
    a_create_takes_locks_in_rising_rank();
    a_destroy_takes_locks_in_rising_rank();
    a_move_can_be_made();
    a_step_is_within();
    a_store_can_perform();
    every_other_move_keeps_the_kernel();
    every_turn_keeps_the_words();
    left_is_the_most_that_a_create_makes();
    left_is_the_most_that_a_destroy_makes();
    the_callers_word_is_spelled();
}

/// The history of such a world is legal, plays the script, and has twice the phases of the script's programs of entries at most. No
/// step has two marks, and those of each call and each switch are numbered in the order in which they were made. Each mark of a wait
/// has its links, none twice, and allows the sum of what they have left.
pub fn what_the_kernel_has_logged()
    ensures history { (script : Script) (w : World) → IsScript script → KernelHolds script w
        → (k : KernelState) × Follows script w.history k × (length w.history ≤ 2 * phases_of script) }
    ensures steps { (script : Script) (w : World) → KernelHolds script w → IsLawfulMarks w.steps × IsOnceMade w.steps }
    ensures waits { (script : Script) (w : World) → KernelHolds script w → IsLawfulLog w.waits }
{
    the_steps_of_each_call_are_in_order();
}
