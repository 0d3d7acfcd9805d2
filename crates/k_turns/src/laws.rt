// The laws of the steps of contexts in the raw world. Each is a function that does nothing, whose contract is the law.
ghost use Rattle.std.specs.Prelude.{◌≡◌, ◌==◌, ℕ, Some, true};
ghost use Rattle.k_script.specs.Script.{Script};
ghost use Rattle.k_caller.specs.Activities as about;
ghost use Rattle.k_caller.specs.Threads.{ThreadSeen};
ghost use Rattle.k_context.specs.Contexts.{Thread};
ghost use Rattle.k_carrier.specs.Seen.{HandSeen};
ghost use Rattle.k_board.specs.Boards.{At, Board, Coming, Context};
ghost use Rattle.k_board.specs.Facts.{AllSay};
ghost use Rattle.k_board.specs.Places.{facts_of};
ghost use Rattle.k_good.specs.Locks.{LocksHold};
ghost use Rattle.k_places.specs.Contexts.{programs_of};
ghost use Rattle.k_places.specs.Memory.{Memory};
ghost use Rattle.k_places.specs.Shows.{Shows};
ghost use Rattle.k_turns.specs.Needs.{Needs};
ghost use Rattle.k_turns.specs.Sections.{Comes, section_entry, section_maps};
ghost use Rattle.k_turns.specs.Spelled.{IsSpelled, ask_in};

/// A step of a thread's context, which is in a carrier's hand and not between two calls, comes to one turn of the board that
/// the maps show: that of the context, whatever the thread is about. The turn's point has the step's entry.
pub fn a_step_of_a_thread_is_a_turn()
    ensures { (script : Script) (m : Memory) (b : Board) (c i : ℕ) (k : HandSeen) (t : ThreadSeen) → Shows script m b
        → LocksHold b.owner b.table b.ready b.context → m.hand c ≡ Some k → k.context ≡ i → k.value ≡ Thread t
        → ((b.context i).at ≡ Coming → ⊥) → Needs script b (b.context i).at → about.can_ask t.activity ≡ true
        → IsSpelled script.table (ask_in t.id t.own t.activity) → about.IsSoundAt t.id t.own t.activity
        → Comes script (programs_of script) i 1 b (section_maps script m c i (Thread t)) (section_entry m i (Thread t)) }
{}

/// What a step needs of the board is among the facts of its location.
pub fn the_facts_of_a_location_meet_what_its_step_needs()
    ensures { (script : Script) (b : Board) (i : ℕ) (x : Context) (p : At)
        → AllSay (programs_of script) b i x (facts_of p) → Needs script b p }
{}
