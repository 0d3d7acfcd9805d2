// The laws of who waits to send. Each is a function that does nothing, whose contract is the law.
ghost use Rattle.k_board.specs.Boards.{Board};
ghost use Rattle.k_board.specs.Turns.{Turn};
ghost use Rattle.k_board.specs.Words.{Programs};
ghost use Rattle.k_good.specs.Good.{IsGood, QueuesTell};
ghost use Rattle.k_good.specs.Ranges.{IsWithin, NamesFit};
ghost use Rattle.k_ids.specs.declared.histories.Entry.{Entry};
ghost use Rattle.k_model.specs.History.{IsReplay, opened};
ghost use Rattle.k_model.specs.State.{KernelState};
ghost use Rattle.k_points.specs.Points.{turn_point};
ghost use Rattle.k_points.specs.Starts.{IsFirstBoard};
ghost use Rattle.k_legal.specs.Follows.{Follows, IsFollowed};
ghost use Rattle.k_legal.specs.Runs.{GoesOn, IsLawful, QueuesServe, Run};
ghost use Rattle.k_legal.specs.Waiting.{MessagesFit, MessagesHold};
ghost use Rattle.std.specs.Prelude.{List, ℕ, ◌≤◌};

/// Each turn of any context of a good board is followed by the one-step kernel: it has no point, and the new board shows the
/// same state; or its point is an event that may be made in the state that the board shows, with the point's outcome, and the
/// new board shows the state that it leaves. Who waits to send is shown too. What the turn stands on besides, of queues, is
/// k_good's premise.
pub fn every_turn_is_followed()
    ensures { (g : Programs) (b b' : Board) (k : KernelState) (i : ℕ) → IsGood g b → IsWithin b → QueuesTell b i →
        MessagesHold b.context → b.size ≤ 64 → IsFollowed b k → (t : Turn g b i b') → Follows g b k (turn_point g b i b' t) b' }
{}

/// Each message that is sent has a low word of 32 bits, after any turn, where each call that a program gives has such a
/// message.
pub fn messages_stay_in_range()
    ensures { (g : Programs) (b b' : Board) (i : ℕ) → MessagesFit g → MessagesHold b.context → Turn g b i b' →
        MessagesHold b'.context }
{}

/// The board on which the kernel begins shows the opening state, in which nobody waits, and nothing is sent.
pub fn the_first_board_is_followed()
    ensures { (g : Programs) (b : Board) (threads : ℕ) → IsFirstBoard g b threads →
        IsFollowed b (opened b.numbers.versions threads) × MessagesHold b.context }
{}

/// A lawful board is lawful after any turn of any context, and the history grows by nothing, or by one entry that is legal then,
/// where each call that a program gives is in range. What the turn stands on of queues is the only other premise.
pub fn a_lawful_board_stays_lawful()
    ensures { (g : Programs) (b b' : Board) (k : KernelState) (i : ℕ) → NamesFit g b.size → MessagesFit g → IsLawful g b k →
        QueuesServe b i → (t : Turn g b i b') → GoesOn g b k (turn_point g b i b' t) b' }
{}

/// Every run from the first board, whatever contexts make its turns in whatever order, leaves a legal history, whose state the
/// last board shows; where each call that a program gives is in range, and the queues serve on each board that a run comes to.
pub fn every_run_leaves_a_legal_history()
    ensures { (g : Programs) (b : Board) (threads : ℕ) → IsFirstBoard g b threads → b.size ≤ 64 → NamesFit g b.size →
        MessagesFit g → ((es : List Entry) (m : Board) → Run g b es m → (i : ℕ) → QueuesServe m i) →
        (es : List Entry) (b' : Board) → Run g b es b' →
        (k : KernelState) × IsReplay (opened b.numbers.versions threads) es k × IsLawful g b' k }
{}
