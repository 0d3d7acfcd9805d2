// The laws of the kernel's sections. Each is a function that does nothing, whose contract is the law.
ghost use Rattle.std.specs.Prelude.{false, List, [], ℕ, ◌≡◌, ◌⊎◌, ◌∷◌};
ghost use Rattle.k_board.specs.Boards.{At, Board};
ghost use Rattle.k_board.specs.Turns.{Turn};
ghost use Rattle.k_board.specs.Words.{Programs};
ghost use Rattle.k_bound.specs.Hands.{IsCarrierSound, first_carrier, meets_taken};
ghost use Rattle.k_bound.specs.Sections.{RemoveOthers, SectionLaws};
ghost use Rattle.k_bound.specs.Waits.{AreBounded, HelpingStep, run, started};
ghost use Rattle.k_good.specs.Good.{IsGood};
ghost use Rattle.k_good.specs.Locks.{locks_at};
ghost use Rattle.k_locks.specs.Hands.{trimmed};
ghost use Rattle.k_locks.specs.declared.locks.Lock.{Lock};
ghost use Rattle.k_sections.specs.Forgetting.{BoardEvent, run_on};
ghost use Rattle.k_sections.specs.Kept.{IsGoodSituation, IsKept, IsQueued, IsSoundBoard};
ghost use Rattle.k_sections.specs.Situations.{Situation, hand_at, left_at, left_by, situation_of};
ghost use Rattle.k_sections.specs.Stepping.{IsStep, IsStill, board_after, kernel_sections};
ghost use Rattle.k_sections.specs.Worked.{worked_end, worked_mark};
ghost use Rattle.k_ids.specs.declared.threads.Message.{Message};
ghost use Rattle.k_script.specs.Plays.{Position};
ghost use Rattle.k_switch.specs.declared.switch.SwitchCall.{SwitchCall};

use k_threads::{
    a_create_takes_locks_in_rising_rank, a_destroy_takes_locks_in_rising_rank,
    left_is_the_most_that_a_create_makes, left_is_the_most_that_a_destroy_makes,
};

/// Boards of any programs and of any invariant that every turn keeps and that implies the premises. `calls` tells with which call
/// a carrier's context begins a switch.
pub trait Kept {
    ghost programs: { Programs };

    ghost calls: { Board → ℕ → SwitchCall };

    ghost IsInvariant: { Board → Type 0 };

    ghost kept: { IsKept programs IsInvariant };
}

/// Boards of any programs, whose queues have what the premises say of them.
pub trait Queued {
    ghost programs: { Programs };

    ghost HasQueues: { Board → Type 0 };

    ghost queued: { IsQueued programs HasQueues };
}

/// Every turn keeps a good board within its ranges, where the programs name its threads alone: the premises are those on queues.
pub fn a_sound_board_is_kept<Q: Queued>()
    ensures { IsKept Q.programs (IsSoundBoard Q.programs Q.HasQueues) }
{}

/// The next step of a context is a turn of the board, unless it can make none. Each turn of a context is its next step, but where
/// a removal is put off, since a carrier may have the context in its hand, or a switch begins by another call.
pub fn the_next_step_is_the_turn()
    ensures turns { (g : Programs) (calls : Board → ℕ → SwitchCall) (b : Board) (i : ℕ) → IsGood g b →
        (Turn g b i (board_after g calls b i (b.context i).at)) ⊎ IsStill (b.context i).at }
    ensures steps { (g : Programs) (calls : Board → ℕ → SwitchCall) (b b' : Board) (i : ℕ) → IsGood g b → Turn g b i b' →
        IsStep g calls b i b' }
{
    a_create_takes_locks_in_rising_rank();
    a_destroy_takes_locks_in_rising_rank();
    left_is_the_most_that_a_create_makes();
    left_is_the_most_that_a_destroy_makes();
}

/// What is published at a location is told by what the section has in hand there: what the locks that it holds guard.
pub fn what_is_published_is_told_by_the_hand()
    ensures { (b : Board) (i : ℕ) (p : At) (k : Lock) → left_by (trimmed (locks_at p) (hand_at b i p)) p k ≡ left_at b i p k }
{}

/// What the contexts of a board publish keeps the ten laws on waiting. A section removes only the context of another.
pub fn the_kernels_sections_keep_the_laws<K: Kept>()
    ensures laws { SectionLaws Situation (kernel_sections K.programs K.calls) (IsGoodSituation K.IsInvariant) }
    ensures others { RemoveOthers Situation (kernel_sections K.programs K.calls) (IsGoodSituation K.IsInvariant) }
{
    a_create_takes_locks_in_rising_rank();
    a_destroy_takes_locks_in_rising_rank();
    left_is_the_most_that_a_create_makes();
    left_is_the_most_that_a_destroy_makes();
}

/// Where one carrier makes all steps on a board, each wait mark that was got is bounded.
pub fn a_wait_on_a_board_is_bounded<K: Kept>()
    ensures { (b : Board) (requester : ℕ) (steps : List HelpingStep) → K.IsInvariant b →
        AreBounded (run (kernel_sections K.programs K.calls) steps (started (situation_of b) requester)).got }
{
    a_create_takes_locks_in_rising_rank();
    a_destroy_takes_locks_in_rising_rank();
    left_is_the_most_that_a_create_makes();
    left_is_the_most_that_a_destroy_makes();
}

/// The same by the rules of the hand, over any time: contexts are removed, and their numbers used again. Of a mark that stands,
/// what was used and what its chain still has to go are at most what its links allow. No step meets a context that is taken.
pub fn a_wait_on_a_board_is_bounded_by_the_rules_of_the_hand<K: Kept>()
    ensures got { (b : Board) (own : ℕ) (events : List BoardEvent) → K.IsInvariant b →
        AreBounded (run_on K.programs K.calls events (first_carrier (situation_of b) own)).got }
    ensures sound { (b : Board) (own : ℕ) (events : List BoardEvent) → K.IsInvariant b →
        IsCarrierSound (kernel_sections K.programs K.calls) (IsGoodSituation K.IsInvariant)
        (run_on K.programs K.calls events (first_carrier (situation_of b) own)) }
    ensures never_taken { (b : Board) (own : ℕ) (events : List BoardEvent) → K.IsInvariant b →
        let carrier = run_on K.programs K.calls events (first_carrier (situation_of b) own) in
        meets_taken (kernel_sections K.programs K.calls) carrier carrier.hand ≡ false }
{
    a_create_takes_locks_in_rising_rank();
    a_destroy_takes_locks_in_rising_rank();
    left_is_the_most_that_a_create_makes();
    left_is_the_most_that_a_destroy_makes();
}

/// A worked wait on a board, of a create for a destroy that removes a context which holds a lock: the create gets the table lock
/// after nine steps of the two owners, of fifteen that their links allow.
pub fn a_wait_on_a_board_is_worked_out()
    ensures { (g : Programs) (calls : Board → ℕ → SwitchCall) (message : Message) (position : Position) →
        (worked_end g calls message position).got ≡ worked_mark ∷ [] }
{}
