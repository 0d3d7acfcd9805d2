// The laws of a carrier's moves, and of the board that its world shows. Each is a function that does nothing, whose contract
// is the law.
ghost use Rattle.std.specs.Prelude.{ℕ};
ghost use Rattle.k_script.specs.Script.{Script};
ghost use Rattle.k_carrier.specs.Asked.{ask_of};
ghost use Rattle.k_world.specs.Steps.{entry_of, moved, parked, sliced, started, step_in};
ghost use Rattle.k_world.specs.Worlds.{World, carrier_at};
ghost use Rattle.k_board.specs.Boards.{Board};
ghost use Rattle.k_places.specs.Fits.{IsStepWithin};
ghost use Rattle.k_joint.specs.Ready.{IsMoveReady};
ghost use Rattle.k_joint.specs.Runs.{ShowsLater, acting};
ghost use Rattle.k_places.specs.Shows.{ShowsBoard};

/// Each move of a carrier comes to turns of the board that the world shows: to one of the context in its hand where it makes
/// a step of it, or to two where that first begins its next call; to none where it looks at a context, puts one down or takes
/// one, but for the end of a switch, a thread that wakes, and the beginning of a switch. The entry of the move is that of the
/// turns' points.
pub fn every_move_is_turns_of_the_board()
    ensures { (script : Script) (w : World) (c : ℕ) (b : Board) → ShowsBoard script w b
        → IsStepWithin w (step_in script c w) → IsMoveReady script c b (carrier_at w c) (ask_of (carrier_at w c))
        → ShowsLater script b (acting (ask_of (carrier_at w c))) (entry_of w (step_in script c w)) (moved script c w) }
{}

/// A start, the end of a slice and a park show the same board.
pub fn what_comes_from_outside_shows_the_same_board()
    ensures started { (script : Script) (w : World) (b : Board) → ShowsBoard script w b → (c number : ℕ)
        → ShowsBoard script (started c number w) b }
    ensures sliced { (script : Script) (w : World) (b : Board) → ShowsBoard script w b → (c : ℕ)
        → ShowsBoard script (sliced c w) b }
    ensures parked { (script : Script) (w : World) (b : Board) → ShowsBoard script w b → (c : ℕ)
        → ShowsBoard script (parked c w) b }
{}
