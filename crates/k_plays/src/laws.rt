// The laws of linearization points that play a script. Each is a function that does nothing, whose contract is the law.
ghost use Rattle.k_board.specs.Steps.{wrote};
ghost use Rattle.k_board.specs.Words.{Begins, noted, Programs, Seen, Walks};
ghost use Rattle.k_good.specs.Ranges.{NamesFit};
ghost use Rattle.k_ids.specs.declared.calls.Outcome.{Outcome};
ghost use Rattle.k_ids.specs.declared.calls.Phase.{Phase};
ghost use Rattle.k_ids.specs.declared.calls.Reply.{Reply};
ghost use Rattle.k_ids.specs.declared.histories.Entry.{Entry};
ghost use Rattle.k_ids.specs.declared.histories.Event.{Event};
ghost use Rattle.k_ids.specs.declared.threads.ThreadId.{ThreadId};
ghost use Rattle.k_locks.specs.Asks.{Ask, Response};
ghost use Rattle.k_locks.specs.Points.{entry_with};
ghost use Rattle.k_locks.specs.declared.points.Point.{Point};
ghost use Rattle.k_model.specs.Answered.{reply_to};
ghost use Rattle.k_model.specs.History.{opened};
ghost use Rattle.k_model.specs.State.{KernelState};
ghost use Rattle.k_model.specs.Step.{step};
ghost use Rattle.k_plays.specs.Ledgers.{AreLedgers, IsTold, MakesPoint};
ghost use Rattle.k_plays.specs.Messages.{ActSendsWords, AllSendWords, IsFilled, SendsWords};
ghost use Rattle.k_plays.specs.Messages.{StateHasWords, ToldWords};
ghost use Rattle.k_plays.specs.Scripts.{AreOf, IsInBounds, programs_of, ranged_programs};
ghost use Rattle.k_positions.specs.Positions.{program_at};
ghost use Rattle.k_script.specs.Limits.{IsScript};
ghost use Rattle.k_script.specs.Plays.{first_id, IsWithin, moved, NamesInRange, next_of};
ghost use Rattle.k_script.specs.Plays.{opened_for, phase_next, Position};
ghost use Rattle.k_script.specs.Script.{Script};
ghost use Rattle.k_script.specs.Weight.{phases_of};
ghost use Rattle.std.specs.Prelude.{length, List, Ok, Option, Some, ℕ, [], ◌*◌, ◌++◌, ◌<◌, ◌≡◌, ◌∷◌};

/// A script has programs of which each call names threads of the table and sends two words of 32 bits, at any position and after
/// any reply. Within the script they are the script's own.
pub fn a_script_has_programs_within_its_table()
    ensures fit { (script : Script) → NamesFit (ranged_programs script) script.table }
    ensures words { (script : Script) → AllSendWords (ranged_programs script) }
    ensures ranged { (script : Script) → AreOf script (ranged_programs script) }
    ensures own { (script : Script) → AreOf script (programs_of script) }
{}

/// What a program gives over works is its next phase, which leaves it where that phase does. It names threads of the table and
/// sends two words of 32 bits, and the program stays within the script and has got such a message.
pub fn a_program_gives_its_next_phase()
    ensures phase { (script : Script) (g : Programs) (p : Position) (r : Option Reply) (f : Phase) (after : Position) →
        AreOf script g → IsInBounds script p r → Begins g p r f after → f ≡ phase_next script.version p r }
    ensures leads { (script : Script) (g : Programs) (p : Position) (r : Option Reply) (f : Phase) (after : Position) →
        AreOf script g → IsInBounds script p r → Begins g p r f after → after ≡ moved p r }
    ensures sends { (script : Script) (g : Programs) (p : Position) (r : Option Reply) (f : Phase) (after : Position) →
        AreOf script g → IsInBounds script p r → Begins g p r f after → NamesInRange script f × SendsWords f }
    ensures stays { (script : Script) (g : Programs) (p : Position) (r : Option Reply) (f : Phase) (after : Position) →
        AreOf script g → IsInBounds script p r → Begins g p r f after → IsWithin script after × IsFilled after }
{}

/// Each message that waits in a state, and each that was told, is two words of 32 bits: at first, where nobody waits and nothing
/// was told, and after each event that sends such a message.
pub fn messages_stay_two_words()
    ensures first { (versions : List ℕ) (threads : ℕ) → StateHasWords (opened versions threads) }
    ensures event { (k new : KernelState) (e : Event) (o : Outcome) → ActSendsWords e.act → StateHasWords k →
        step k e ≡ Ok (new, o) → StateHasWords new }
    ensures told { (k : KernelState) (id : ThreadId) (serial : ℕ) → StateHasWords k → ToldWords (reply_to k.replies id serial) }
{}

/// The history without an entry is played where the first ledgers have each thread of the script at the start of its program.
pub fn no_entry_plays_the_script()
    ensures { (script : Script) (g : Programs) (s : ℕ → Seen) → IsScript script → AreOf script g →
        ((t : ℕ) → t < length script.threads → (s t).position ≡ g.start (first_id t) (program_at script t)) →
        ((t : ℕ) → t < script.table → IsWithin script (s t).position × IsFilled (s t).position) →
        AreLedgers script [] (opened_for script) s }
{}

/// The history stays played with the entry of a linearization point, where the specification makes the event and a call is the
/// one that the program gives; the ledgers are then those that the point leaves. And there was room for the entry.
pub fn every_point_plays_the_script()
    ensures played { (script : Script) (g : Programs) (entries : List Entry) (k new : KernelState) (s : ℕ → Seen) (last : ℕ → ℕ)
        (p : Point) (at : Position) → IsScript script → AreOf script g →
        AreLedgers script entries k s → MakesPoint g k s last p at new →
        AreLedgers script (entries ++ entry_with last p ∷ []) new (noted g s at (Some p)) }
    ensures room { (script : Script) (g : Programs) (entries : List Entry) (k new : KernelState) (s : ℕ → Seen) (last : ℕ → ℕ)
        (p : Point) (at : Position) → IsScript script → AreOf script g →
        AreLedgers script entries k s → MakesPoint g k s last p at new → length entries < 2 * phases_of script }
{}

/// A step of a context writes a word or a mail too. That moves no ledger. With a point it is enough that the call is the one
/// after which the step leaves the caller's program.
pub fn every_step_keeps_the_ledgers()
    ensures writes { (script : Script) (entries : List Entry) (k : KernelState) (s : ℕ → Seen) (a : Ask) (r : Response) →
        AreLedgers script entries k s → AreLedgers script entries k (wrote s a r) }
    ensures point { (script : Script) (g : Programs) (entries : List Entry) (k new : KernelState) (s : ℕ → Seen) (last : ℕ → ℕ)
        (p : Point) (at : Position) (a : Ask) (r : Response) → IsScript script → AreOf script g → AreLedgers script entries k s →
        MakesPoint g k s last p (wrote (noted g s at (Some p)) a r p.who.number).position new →
        AreLedgers script (entries ++ entry_with last p ∷ []) new (wrote (noted g s at (Some p)) a r) }
{}

/// What a thread goes on with, over works behind its last call, is what the script's program gives there, and stays within the
/// script's bounds. So it is with a thread that was destroyed and hasn't found out yet.
pub fn a_thread_goes_on_with_its_program()
    ensures gives { (script : Script) (g : Programs) (entries : List Entry) (k : KernelState) (s : ℕ → Seen) (who : ThreadId)
        (q : Position) (l : Option Reply) → IsScript script → AreOf script g → AreLedgers script entries k s →
        who.number < script.table → IsTold k s who → Walks g (s who.number).position (s who.number).told q l →
        g.next q l ≡ next_of script.version q l }
    ensures bounds { (script : Script) (g : Programs) (entries : List Entry) (k : KernelState) (s : ℕ → Seen) (who : ThreadId)
        (q : Position) (l : Option Reply) → IsScript script → AreOf script g → AreLedgers script entries k s →
        who.number < script.table → IsTold k s who → Walks g (s who.number).position (s who.number).told q l →
        IsInBounds script q l }
{}
