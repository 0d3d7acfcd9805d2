// The laws of what a step tells. Each is a function that does nothing, whose contract is the law.
ghost use Rattle.std.specs.Prelude.{◌≡◌, ◌≢◌, ◌<◌, ℕ, None, Some, length};
ghost use Rattle.k_ids.specs.declared.histories.Entry.{Entry};
ghost use Rattle.k_locks.specs.declared.steps.Answer.TheVariants as answer;
ghost use Rattle.k_locks.specs.declared.steps.Told.TheVariants as told;
ghost use Rattle.k_model.specs.State.{KernelState};
ghost use Rattle.k_script.specs.Limits.{IsScript};
ghost use Rattle.k_script.specs.Script.{Script};
ghost use Rattle.k_room.specs.Histories.{Follows};
ghost use Rattle.k_carrier.specs.declared.moves.Stepped.TheVariants as stepped;
ghost use Rattle.k_carrier.specs.Answers as answers;
ghost use Rattle.k_carrier.specs.Asked.{ask_of};
ghost use Rattle.k_world.specs.Steps.{entry_of, moved, step_in, told_of};
ghost use Rattle.k_world.specs.Worlds.{World, carrier_at};
ghost use Rattle.k_joint.specs.Runs.{ShowsLater, acting};
ghost use Rattle.k_kernel.specs.Moves.{HasRoom, IsRunnable};
ghost use Rattle.k_running.specs.Running.{KernelHolds};
ghost use Rattle.k_told.specs.Events.{IsAt, IsEventOf};

use k_conditions::a_carrier_can_ask;
use k_running::every_step_keeps_the_kernel;
use k_sound::a_context_stays_sound;
use k_within::a_move_can_be_made;

/// With one carrier no step is told that another carrier has a context in its hand: neither one that looks at a context or takes
/// one, nor a section's that removes one.
pub fn no_step_misses_with_one_carrier()
    ensures told { (script : Script) (w : World) (c : ℕ) → IsScript script → KernelHolds script w → c < length w.carriers
        → length w.carriers ≡ 1 → (context holder : ℕ) → told_of script c w ≢ stepped.Missed context holder }
    ensures removed { (script : Script) (w : World) (c : ℕ) → IsScript script → KernelHolds script w → c < length w.carriers
        → length w.carriers ≡ 1 → (context holder : ℕ)
        → (step_in script c w).answer ≢ answers.Section (answer.Told (told.Taken context holder)) }
{}

/// Whenever it is a carrier's turn, all that its move takes for granted is there.
pub fn a_step_can_be_made()
    ensures { (script : Script) (w : World) (c : ℕ) → IsScript script → KernelHolds script w → c < length w.carriers
        → IsRunnable script c w }
{
    a_carrier_can_ask();
    a_context_stays_sound();
    a_move_can_be_made();
}

/// A step of a carrier is one turn of the board that the world shows, or two, or none, of the context that the move is on; the
/// history grows by the entry of their linearization point, or by nothing where they have none. In the state that the history
/// left, the entry's event may be made and has its outcome; the world then shows the state that the event leaves. A step without
/// an entry leaves the history and the state that is shown as they were.
pub fn each_step_makes_one_event_at_most()
    ensures turns { (script : Script) (w : World) (c : ℕ) → IsScript script → HasRoom script → (h : KernelHolds script w)
        → c < length w.carriers
        → ShowsLater script h.board (acting (ask_of (carrier_at w c))) (entry_of w (step_in script c w)) (moved script c w) }
    ensures event { (script : Script) (w : World) (c : ℕ) → IsScript script → HasRoom script → KernelHolds script w
        → c < length w.carriers → (k : KernelState) → Follows script w.history k → (e : Entry)
        → entry_of w (step_in script c w) ≡ Some e → IsEventOf script k e (moved script c w) }
    ensures nothing { (script : Script) (w : World) (c : ℕ) → IsScript script → HasRoom script → KernelHolds script w
        → c < length w.carriers → (k : KernelState) → Follows script w.history k
        → entry_of w (step_in script c w) ≡ None → IsAt script (moved script c w) k }
    ensures state { (script : Script) (w : World) → KernelHolds script w → (k : KernelState) → Follows script w.history k
        → IsAt script w k }
{
    a_step_can_be_made();
    every_step_keeps_the_kernel();
}
