// The laws of linearization points. Each is a function that does nothing, whose contract is the law.
ghost use Rattle.k_board.specs.Boards.{Alone, Board};
ghost use Rattle.k_board.specs.Facts.{is_open};
ghost use Rattle.k_board.specs.Places.{PlacesHold};
ghost use Rattle.k_board.specs.Turns.{Turn, excepted_by};
ghost use Rattle.k_board.specs.Words.{Programs, noted};
ghost use Rattle.k_caller.specs.Waits.{is_waiting};
ghost use Rattle.k_caller.specs.declared.thread.ThreadLocation.TheVariants as location;
ghost use Rattle.k_good.specs.Good.{IsGood};
ghost use Rattle.k_ids.specs.declared.calls.Reply.{Reply};
ghost use Rattle.k_model.specs.Answered.{IsAnswered, reply_to};
ghost use Rattle.k_model.specs.History.{opened};
ghost use Rattle.k_model.specs.State.{KernelState, id_of};
ghost use Rattle.k_points.specs.Points.{Lists, Moves, SameLedger, turn_point};
ghost use Rattle.k_points.specs.Shown.{IsShown, Shows};
ghost use Rattle.k_points.specs.Starts.{IsFirstBoard};
ghost use Rattle.std.specs.Prelude.{None, Some, false, length, true, ℕ, ◌≡◌, ◌&&◌};

/// A turn of a good board that has a point is one event of the specification: the point's, which may be made in the state that
/// the board shows, with the point's outcome; and the new board shows the state that it leaves. After a turn without a point the
/// new board shows the same state.
pub fn every_turn_is_a_row_or_shows_the_same()
    ensures { (g : Programs) (b b' : Board) (k : KernelState) (i : ℕ) → IsGood g b → length b.numbers.versions ≡ b.size →
        IsShown b k → Lists b k i → (t : Turn g b i b') → Moves g b k (turn_point g b i b' t) b' }
{}

/// The ledgers after a turn are what its point makes of them: a call that is made, with the position of the context that makes
/// the turn; a reply; a new thread's start; and nothing where the turn has no point.
pub fn every_turn_notes_its_point()
    ensures { (g : Programs) (b b' : Board) (i : ℕ) (t : Turn g b i b') (n : ℕ) →
        SameLedger (noted g b.seen (b.context i).position (turn_point g b i b' t) n) (b'.seen n) }
{}

/// A call that waits has no reply yet.
pub fn calls_that_wait_are_unanswered()
    ensures { (b : Board) (k : KernelState) → Shows b k → IsAnswered k → (t : ℕ) → is_waiting (b.seen t).word.state ≡ true →
        (excepted_by (b.owner t) b.context t && is_open (b.seen t).word.state) ≡ false → (b.seen t).told ≡ None }
{}

/// The board on which the kernel begins shows the opening state.
pub fn the_first_board_shows_the_opening_state()
    ensures { (g : Programs) (b : Board) (threads : ℕ) → IsFirstBoard g b threads →
        IsShown b (opened b.numbers.versions threads) }
{}

/// What a thread is given at the end of a call is the specification's reply to its last call.
pub fn what_a_thread_is_given_is_its_reply()
    ensures { (g : Programs) (b : Board) (k : KernelState) (i : ℕ) (r : Reply) → PlacesHold g b → Shows b k →
        (b.context i).at ≡ Alone (location.Between (Some r)) →
        ((k.place i).serial ≡ (b.context i).serial) × (reply_to k.replies (id_of k i) (b.context i).serial ≡ Some r) }
{}
