// The laws of the invariant. Each is a function that does nothing, whose contract is the law.
ghost use Rattle.k_board.specs.Boards.{Alone, Board};
ghost use Rattle.k_board.specs.Turns.{Turn};
ghost use Rattle.k_bound.specs.Hands.{first_carrier, meets_taken};
ghost use Rattle.k_bound.specs.Waits.{AreBounded};
ghost use Rattle.k_caller.specs.declared.thread.ThreadLocation.TheVariants as location;
ghost use Rattle.k_ids.specs.declared.calls.Reply.{Reply};
ghost use Rattle.k_ids.specs.declared.histories.Entry.{Entry};
ghost use Rattle.k_invariant.specs.Invariant.{AllRest, BoardHolds, GoesOn, Holds, IsOpeningBoard};
ghost use Rattle.k_legal.specs.Runs.{Run};
ghost use Rattle.k_model.specs.Answered.{reply_to};
ghost use Rattle.k_model.specs.History.{IsFinished};
ghost use Rattle.k_model.specs.State.{KernelState, id_of};
ghost use Rattle.k_plays.specs.Scripts.{ranged_programs};
ghost use Rattle.k_points.specs.Points.{turn_point};
ghost use Rattle.k_room.specs.Histories.{Follows};
ghost use Rattle.k_script.specs.Limits.{IsScript};
ghost use Rattle.k_script.specs.Plays.{IsHistory, opened_for};
ghost use Rattle.k_script.specs.Script.{Script};
ghost use Rattle.k_script.specs.Weight.{phases_of};
ghost use Rattle.k_sections.specs.Forgetting.{BoardEvent, run_on};
ghost use Rattle.k_sections.specs.Situations.{situation_of};
ghost use Rattle.k_sections.specs.Stepping.{kernel_sections};
ghost use Rattle.k_switch.specs.declared.switch.SwitchCall.{SwitchCall};
ghost use Rattle.std.specs.Prelude.{List, Some, ◌*◌, ◌<◌, ◌≡◌, ◌≤◌, [], false, length, ℕ};

use k_threads::{
    a_create_takes_locks_in_rising_rank, a_destroy_takes_locks_in_rising_rank,
    left_is_the_most_that_a_create_makes, left_is_the_most_that_a_destroy_makes,
};

/// All of it holds of the board on which the kernel begins to run a script.
pub fn the_board_holds_at_the_start()
    ensures { (script : Script) (b : Board) → IsScript script → IsOpeningBoard script b →
        BoardHolds script b [] (opened_for script) }
{}

/// After any turn of any context all of it holds again, and the history has grown by nothing, or by the entry of the turn's
/// point.
pub fn every_turn_keeps_the_board()
    ensures { (script : Script) (b b' : Board) (entries : List Entry) (k : KernelState) (i : ℕ) → IsScript script →
        BoardHolds script b entries k →
        (t : Turn (ranged_programs script) b i b') → GoesOn script b entries k (turn_point (ranged_programs script) b i b' t) b' }
{}

/// Whatever contexts make their steps, and in whatever order, the history of the run is legal and plays the script, at every
/// moment. It has twice the phases of the script's programs of entries at most.
pub fn every_run_is_linearizable()
    ensures holds { (script : Script) (b b' : Board) (entries : List Entry) → IsScript script → IsOpeningBoard script b →
        Run (ranged_programs script) b entries b' → (k : KernelState) × BoardHolds script b' entries k }
    ensures follows { (script : Script) (b b' : Board) (entries : List Entry) → IsScript script → IsOpeningBoard script b →
        Run (ranged_programs script) b entries b' → (k : KernelState) × Follows script entries k ×
        (length entries ≤ 2 * phases_of script) }
{}

/// A thread that goes on after a call is given the specification's reply to it.
pub fn a_reply_is_the_specifications()
    ensures { (script : Script) (b : Board) (entries : List Entry) (k : KernelState) (i : ℕ) (r : Reply) →
        BoardHolds script b entries k → (b.context i).at ≡ Alone (location.Between (Some r)) →
        ((k.place i).serial ≡ (b.context i).serial) × (reply_to k.replies (id_of k i) (b.context i).serial ≡ Some r) }
{}

/// Where all rest, nothing is to come: the history is one of the script's, whole.
pub fn where_all_rest_the_history_is_finished()
    ensures { (script : Script) (b : Board) (entries : List Entry) (k : KernelState) → BoardHolds script b entries k → AllRest b →
        IsFinished k × IsHistory script entries k }
{}

/// With one carrier, each wait for a lock that was got is bounded by the chain of owners that it met, by the rules of the hand
/// and over any time, on any board on which all of it holds; and no step meets a context that is taken. `calls` tells with
/// which call a carrier's context begins a switch.
pub fn each_wait_is_bounded()
    ensures got { (script : Script) (calls : Board → ℕ → SwitchCall) (b : Board) (own : ℕ) (events : List BoardEvent) →
        IsScript script → Holds script b →
        AreBounded (run_on (ranged_programs script) calls events (first_carrier (situation_of b) own)).got }
    ensures never_taken { (script : Script) (calls : Board → ℕ → SwitchCall) (b : Board) (own : ℕ) (events : List BoardEvent) →
        IsScript script → Holds script b →
        let carrier = run_on (ranged_programs script) calls events (first_carrier (situation_of b) own) in
        meets_taken (kernel_sections (ranged_programs script) calls) carrier carrier.hand ≡ false }
{
    a_create_takes_locks_in_rising_rank();
    a_destroy_takes_locks_in_rising_rank();
    left_is_the_most_that_a_create_makes();
    left_is_the_most_that_a_destroy_makes();
}
