// Laws of the definitions.
ghost use Rattle.std.specs.Prelude.{◌≡◌, ◌≤◌, ◌<◌, ◌+◌, ◌*◌, Some, false, List, ℕ, length, [], ◌∷◌, ◌++◌, Option, None, is_some, true};
ghost use Rattle.k_ids.specs.declared.calls.Phase.{Phase};
ghost use Rattle.k_ids.specs.declared.calls.Reply.{Reply};
ghost use Rattle.k_script.specs.Script.{Script};
ghost use Rattle.k_ids.specs.declared.threads.ThreadId.{ThreadId};
ghost use Rattle.std.specs.List.{repeat, AllByRecursion};
ghost use Rattle.k_script.specs.declared.operation.Operation.{Operation};
ghost use Rattle.k_script.specs.declared.operation.Operation.TheVariants as operation;
ghost use Rattle.k_script.specs.Limits.{IsScript, depth_behind};
ghost use Rattle.k_script.specs.Flat.{flat, is_marker};
ghost use Rattle.k_script.specs.declared.scale.Scale.{Scale};
ghost use Rattle.k_script.specs.Weight.{cost, totals, first_total, phases_of_program, phases_of, weight_of};
ghost use Rattle.k_script.specs.Plays.{Position, Runs, phase_next, moved, phases_left, phases_given, start_of, next_of, went_on, IsInRange, TellsInRange, NamesInRange, IsWithin};
ghost use Rattle.k_script.specs.declared.registers.Next.TheVariants as Next;

/// One more phase of a program that is not over; replies that come later change nothing of the phases before; and each phase
/// takes one from the calls that are left, and a create those of the thread that it may make.
pub fn a_program_goes_on()
    ensures push { (version : ℕ) (replies : ℕ → Option Reply) (p q : Position) (s next : ℕ) (calls : List (ℕ × Phase)) →
        is_some q.left ≡ true → Runs version replies p s calls q next → Runs version replies p s (calls ++ (next, phase_next version q (replies next)) ∷ []) (moved q (replies next)) (next + 1) }
    ensures later { (version : ℕ) (a b : ℕ → Option Reply) (p q : Position) (s next : ℕ) (calls : List (ℕ × Phase)) →
        ((i : ℕ) → i < next → a i ≡ b i) → Runs version a p s calls q next → Runs version b p s calls q next }
    ensures step { (script : Script) (version : ℕ) (p : Position) (last : Option Reply) →
        is_some p.left ≡ true → phases_left script (moved p last) + phases_given script (phase_next version p last) + 1 ≤ phases_left script p }
    ensures left { (script : Script) (version : ℕ) (replies : ℕ → Option Reply) (p q : Position) (s next : ℕ) (calls : List (ℕ × Phase)) →
        Runs version replies p s calls q next → next + phases_left script q ≤ s + phases_left script p }
{}

/// A thread of a script makes as many calls at most as its program counts, with those of the threads that it creates.
pub fn a_start_is_counted()
    ensures { (script : Script) (program : ℕ) (id : ThreadId) → IsScript script → program < length script.programs →
        phases_left script (start_of script program id) ≡ phases_of_program script program }
{}

/// Each phase of a script names numbers below the table's size, versions from 1 to 1,048,575 and priorities up to 63, where the
/// ids that its thread starts with and those of the replies do; and its work is 1 to 4,294,967,295 loads.
pub fn a_phase_is_in_range()
    ensures start { (script : Script) (program : ℕ) (id : ThreadId) → IsScript script → IsInRange script.table id → IsWithin script (start_of script program id) }
    ensures next { (script : Script) (version : ℕ) (p : Position) (last : Option Reply) → IsWithin script p → TellsInRange script.table last →
        NamesInRange script (phase_next version p last) × IsWithin script (moved p last) }
    ensures work { (script : Script) (version count : ℕ) (p : Position) (last : Option Reply) → IsWithin script p → TellsInRange script.table last →
        next_of version p last ≡ Next.Work count → (1 ≤ count) × (count ≤ 4294967295) × IsWithin script (went_on p last) }
{}

/// After work the next phase is the one that was due, and what comes next is that phase where it is no work.
pub fn work_is_passed_over()
    ensures work { (version count : ℕ) (p : Position) (last : Option Reply) → next_of version p last ≡ Next.Work count →
        (phase_next version (went_on p last) None ≡ phase_next version p last) × (moved (went_on p last) None ≡ moved p last) }
    ensures phase { (version : ℕ) (p : Position) (last : Option Reply) (f : Phase) → next_of version p last ≡ Next.Phase f →
        (f ≡ phase_next version p last) × (went_on p last ≡ moved p last) }
{}

/// A program written out is its operations one after another, what a repeat repeats as often as it says. With these a program
/// whose repeats are all closed has one writing out, in which no repeat and no again is left.
pub fn a_program_is_written_out()
    ensures nothing { flat [] ≡ [] }
    ensures operation { (op : Operation) (ops : List Operation) → is_marker op ≡ false → flat (op ∷ ops) ≡ op ∷ flat ops }
    ensures repeat { (count : ℕ) (body rest : List Operation) → depth_behind 0 body ≡ Some 0 →
        flat (operation.Repeat count ∷ (body ++ (operation.Again ∷ rest))) ≡ repeat count (flat body) ++ flat rest }
    ensures plain { (ops : List Operation) → AllByRecursion (λ op. is_marker op ≡ false) (flat ops) }
{}

/// A script makes a quarter as many calls as it weighs, at most.
pub fn calls_weigh_four()
    ensures { (script : Script) → 4 * phases_of script ≤ weight_of script }
{}

/// A program counts the sum over its operations, where a repeat counts each turn as the sum over its body and the turn itself.
/// (The end of the program comes on top.)
pub fn a_program_is_counted()
    ensures nothing { (s : Scale) (before : List ℕ) → first_total (totals s before []) ≡ 0 }
    ensures operation { (s : Scale) (before : List ℕ) (op : Operation) (ops : List Operation) → is_marker op ≡ false →
        first_total (totals s before (op ∷ ops)) ≡ cost s before op + first_total (totals s before ops) }
    ensures repeat { (s : Scale) (before : List ℕ) (count : ℕ) (body rest : List Operation) → depth_behind 0 body ≡ Some 0 →
        first_total (totals s before (operation.Repeat count ∷ (body ++ (operation.Again ∷ rest)))) ≡ count * (first_total (totals s before body) + s.turn) + first_total (totals s before rest) }
{}
