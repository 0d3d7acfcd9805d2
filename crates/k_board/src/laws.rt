// The laws of the board. Each is a function that does nothing, whose contract is the law.
ghost use Rattle.std.specs.Prelude.{Option, Some, ℕ, ◌≡◌, ◌≢◌};
ghost use Rattle.k_board.specs.Boards.{At, Board, Coming, Context};
ghost use Rattle.k_board.specs.Boots.{Booted};
ghost use Rattle.k_board.specs.Facts.{AllSay, Fact, Says};
ghost use Rattle.k_board.specs.Moves.{Change, IsAway, Leaves};
ghost use Rattle.k_board.specs.Places.{PlacesHold, facts_of};
ghost use Rattle.k_board.specs.Turns.{Supports, Turn};
ghost use Rattle.k_board.specs.Words.{Programs};

/// When the kernel begins, what each context's next step rests on holds.
pub fn the_facts_hold_at_the_start()
    ensures { (g : Programs) (b : Board) → ((n : ℕ) → Booted g b n) → PlacesHold g b }
{}

/// A fact on which a context's next step rests lasts over each step of another context that makes permitted changes alone: of what is
/// seen of each number, of locks, and of contexts that are away.
pub fn a_fact_lasts_over_the_steps_of_others()
    ensures { (g : Programs) (b b' : Board) (i j : ℕ) → i ≢ j → ((b.context i).at ≡ Coming → ⊥) → ((t : ℕ) → Change b j t (b'.seen t)) → Leaves b i b' → ((n : ℕ) → b.table ≡ Some i → IsAway (b.context n).at → b'.context n ≡ b.context n) → (x : Context) (f : Fact) → Says g b i x f → Says g b' i x f }
{}

/// After any turn of any context, what each context's next step rests on holds.
pub fn every_turn_keeps_the_facts()
    ensures { (g : Programs) (b b' : Board) (i : ℕ) → PlacesHold g b → Supports b i → Turn g b i b' → PlacesHold g b' }
{}
