// The laws. Each is a function that does nothing, whose contract is the law.
ghost use Rattle.k_board.specs.Boards.{Board};
ghost use Rattle.k_board.specs.Turns.{Turn};
ghost use Rattle.k_board.specs.Words.{Programs};
ghost use Rattle.k_grants.specs.Granted.{Finding, IsFreeToRemove, IsGranted, IsWait, MayTurn, is_again};
ghost use Rattle.k_tokens.specs.World.{World};
ghost use Rattle.std.specs.Prelude.{ℕ};

/// Where a carrier runs a thread's context, in a good world that agrees with a good board, its turn is one step that its
/// location grants.
pub fn each_turn_is_granted()
    ensures { (g : Programs) (b b' : Board) (w : World) (c i : ℕ) (f : Finding) → MayTurn g b w c i → IsWait f.waits
        → IsFreeToRemove b w i b' → (t : Turn g b i b') → IsGranted b' w c i f (is_again g b i b' t) }
{}
