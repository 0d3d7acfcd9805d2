// The laws of moves that have a place for all that they change. Each is a function that does nothing, whose
// contract is the law.
ghost use Rattle.std.specs.Prelude.{ℕ, length, List, true, ◌<◌, ◌≡◌};
ghost use Rattle.k_ids.specs.declared.histories.Entry.{Entry};
ghost use Rattle.k_model.specs.State.{KernelState};
ghost use Rattle.k_script.specs.Limits.{IsScript};
ghost use Rattle.k_script.specs.Script.{Script};
ghost use Rattle.k_context.specs.Contexts.{begun, IsSound};
ghost use Rattle.k_carrier.specs.Asked.{ask_of, Run};
ghost use Rattle.k_carrier.specs.Conditions.{CanAsk};
ghost use Rattle.k_carrier.specs.Seen.{HandSeen};
ghost use Rattle.k_world.specs.Steps.{step_in};
ghost use Rattle.k_world.specs.Worlds.{carrier_at, state_at, World};
ghost use Rattle.k_board.specs.Boards.{Board, id_at};
ghost use Rattle.k_good.specs.Ranges.{is_threads};
ghost use Rattle.k_invariant.specs.Invariant.{BoardHolds};
ghost use Rattle.k_places.specs.Fits.{IsStepWithin};
ghost use Rattle.k_kernel.specs.Moves.{IsMade, IsRunnable};
ghost use Rattle.k_tokens.specs.World as tokens;
ghost use Rattle.k_handling.specs.Handling.{IsKernel};
ghost use Rattle.k_spelled.specs.Asks.{ask_on};
ghost use Rattle.k_spelled.specs.Words.{WordsHold};
ghost use Rattle.k_within.specs.Asks.{IsAskWithin};

/// A carrier that runs a thread's context runs that of a thread which is made: its number's word has its version.
pub fn a_carrier_runs_made_threads()
    ensures { (script : Script) (w : World) (b : Board) (view : tokens.World) (state : KernelState) (c : ℕ)
        (h : HandSeen) → IsKernel script w b view state → c < length w.carriers →
        ask_of (carrier_at w c) ≡ Run h → IsMade (state_at w h.context) h.value }
{}

/// What a thread on a board asks for is of numbers of the table. A carrier's move in the world that shows the
/// board is on a word that there is, and its entry is of numbers of the table.
pub fn a_step_is_within()
    ensures board { (script : Script) (b : Board) (entries : List Entry) (k : KernelState) (i : ℕ) →
        BoardHolds script b entries k → is_threads (b.context i).at ≡ true →
        IsAskWithin script.table (ask_on (id_at b i) (b.context i).own (b.context i).at) }
    ensures carrier { (script : Script) (w : World) (b : Board) (view : tokens.World) (state : KernelState)
        (c : ℕ) → IsScript script → IsKernel script w b view state → WordsHold b → c < length w.carriers →
        IsStepWithin w (step_in script c w) }
{}

/// So a move for which a carrier can be asked can be made, where a sound context stays sound as its next call
/// begins.
pub fn a_move_can_be_made()
    ensures { (script : Script) (w : World) (b : Board) (view : tokens.World) (state : KernelState) (c : ℕ) →
        IsScript script → IsKernel script w b view state → WordsHold b → c < length w.carriers →
        CanAsk script (carrier_at w c) →
        ((h : HandSeen) → ask_of (carrier_at w c) ≡ Run h → IsSound script (begun script h.value)) →
        IsRunnable script c w }
{}
