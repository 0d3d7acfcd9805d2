// The laws of words that have spellings. Each is a function that does nothing, whose contract is the law.
ghost use Rattle.std.specs.Prelude.{ℕ, List, Some, ◌≡◌, ◌≤◌};
ghost use Rattle.k_ids.specs.declared.histories.Entry.{Entry};
ghost use Rattle.k_model.specs.State.{KernelState};
ghost use Rattle.k_script.specs.Limits.{IsScript};
ghost use Rattle.k_script.specs.Script.{Script};
ghost use Rattle.k_context.specs.Contexts.{begun, ContextSeen};
ghost use Rattle.k_carrier.specs.Asked.{ask_of, Run};
ghost use Rattle.k_carrier.specs.Seen.{HandSeen};
ghost use Rattle.k_world.specs.Worlds.{carrier_at, state_at, World};
ghost use Rattle.k_board.specs.Boards.{Board, id_at};
ghost use Rattle.k_board.specs.Turns.{Turn};
ghost use Rattle.k_plays.specs.Scripts.{programs_of, ranged_programs};
ghost use Rattle.k_invariant.specs.Invariant.{BoardHolds};
ghost use Rattle.k_places.specs.Boots.{boot_board};
ghost use Rattle.k_places.specs.Memory.{memory_of};
ghost use Rattle.k_places.specs.Shows.{context_in, ShowsBoard};
ghost use Rattle.k_turns.specs.Sections.{Turns};
ghost use Rattle.k_turns.specs.Spelled.{ask_at, IsSpelled};
ghost use Rattle.k_kernel.specs.Moves.{IsMade, IsSpelledIn};
ghost use Rattle.k_spelled.specs.Asks.{ask_on};
ghost use Rattle.k_spelled.specs.Words.{WordsHold};

/// All words of the board on which the kernel begins to run a script have spellings.
pub fn words_hold_at_the_start()
    ensures { (script : Script) (carriers : ℕ) → IsScript script → carriers ≤ 8 →
        WordsHold (boot_board script carriers) }
{}

/// So have those after any turn of any context, and after any number of turns of the script's own programs.
pub fn every_turn_keeps_the_words()
    ensures turn { (script : Script) (b b' : Board) (entries : List Entry) (k : KernelState) (i : ℕ) →
        IsScript script → BoardHolds script b entries k → WordsHold b → Turn (ranged_programs script) b i b' →
        WordsHold b' }
    ensures turns { (script : Script) (b b' : Board) (entries : List Entry) (k : KernelState) (i n : ℕ) →
        IsScript script → BoardHolds script b entries k → WordsHold b → Turns (programs_of script) i n b b' →
        WordsHold b' }
{}

/// What a context's next step writes or expects has a spelling, wherever it stands on such a board. So it is
/// of any context in the world that shows the board, its next call begun, whose thread is made, and of the
/// one that a carrier runs.
pub fn a_step_is_spelled()
    ensures board { (script : Script) (b : Board) (entries : List Entry) (k : KernelState) (i : ℕ) →
        IsScript script → BoardHolds script b entries k → WordsHold b →
        IsSpelled script.table (ask_on (id_at b i) (b.context i).own (b.context i).at) }
    ensures context { (script : Script) (w : World) (b : Board) (entries : List Entry) (k : KernelState) (i : ℕ)
        (v : ContextSeen) → IsScript script → ShowsBoard script w b → BoardHolds script b entries k →
        WordsHold b → context_in (memory_of w).context (memory_of w).slot (memory_of w).hand i ≡ Some v →
        IsMade (state_at w i) v → IsSpelled script.table (ask_at (begun script v)) }
    ensures carrier { (script : Script) (w : World) (b : Board) (entries : List Entry) (k : KernelState) (c : ℕ)
        → IsScript script → ShowsBoard script w b → BoardHolds script b entries k → WordsHold b →
        ((h : HandSeen) → ask_of (carrier_at w c) ≡ Run h → IsMade (state_at w h.context) h.value) →
        IsSpelledIn script (ask_of (carrier_at w c)) }
{}
