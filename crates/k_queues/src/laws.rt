// The laws of the queues. Each is a function that does nothing, whose contract is the law.
ghost use Rattle.std.specs.Prelude.{List, None, Option, false, length, ℕ, ◌<◌, ◌≡◌, ◌≤◌, []};
ghost use Rattle.k_board.specs.Boards.{Board, owner_of};
ghost use Rattle.k_board.specs.Boots.{Booted};
ghost use Rattle.k_board.specs.Turns.{Turn};
ghost use Rattle.k_board.specs.Words.{Programs};
ghost use Rattle.k_good.specs.Good.{IsGood, NumbersAgree, QueuesTell};
ghost use Rattle.k_good.specs.Ranges.{IsWithin, NamesFit};
ghost use Rattle.k_locks.specs.Shown.{is_dead};
ghost use Rattle.k_locks.specs.declared.locks.Lock.{Lock};
ghost use Rattle.k_queues.specs.Queues.{CallsUnanswered, IsProper, IsWhoWaits, QueuesHold};

/// The queues hold when the kernel begins, where all are empty and the table has at most 64 numbers.
pub fn the_queues_hold_at_the_start()
    ensures { (g : Programs) (b : Board) → ((n : ℕ) → Booted g b n) → ((t : ℕ) → b.queue t ≡ []) → b.size ≤ 64 → QueuesHold b }
{}

/// After any turn of any context the queues hold, whatever the history tells.
pub fn every_turn_keeps_the_queues()
    ensures { (g : Programs) (b b' : Board) (i : ℕ) → IsGood g b → IsWithin b → QueuesHold b → Turn g b i b' → QueuesHold b' }
{}

/// Queues that hold tell what a turn stands on, where calls that wait have no reply yet.
pub fn the_queues_tell_what_a_turn_stands_on()
    ensures { (g : Programs) (b : Board) (i : ℕ) → IsGood g b → IsWithin b → QueuesHold b → CallsUnanswered b → QueuesTell b i }
{}

/// While nobody owns the table lock and the lock of a number, its queue has the entries of those who wait for its thread, and no
/// others; and whom they wait for is there.
pub fn a_queue_that_nobody_works_on_has_who_waits()
    ensures { (g : Programs) (b : Board) → IsProper g b → (t : ℕ) → b.table ≡ None → b.owner t ≡ None → IsWhoWaits b t }
{}

/// The board on which the kernel begins is proper, where no lock is owned, the list of numbers agrees with the words and is as
/// long as the table, only numbers of the table have threads, the queues are empty, and the table has at most 64 numbers.
pub fn the_first_board_is_proper()
    ensures { (g : Programs) (b : Board) → ((n : ℕ) → Booted g b n) → ((l : Lock) → owner_of b l ≡ None) →
        NumbersAgree b.seen b.numbers b.context → length b.numbers.versions ≡ b.size →
        ((n : ℕ) → is_dead (b.seen n).word ≡ false → n < b.size) → ((t : ℕ) → b.queue t ≡ []) → b.size ≤ 64 → IsProper g b }
{}

/// A proper board is so after any turn of any context, where calls that wait have no reply yet, and each call that a program
/// gives names thread ids of the range.
pub fn every_turn_keeps_a_proper_board()
    ensures { (g : Programs) (b b' : Board) (i : ℕ) → IsProper g b → NamesFit g b.size → CallsUnanswered b → Turn g b i b' →
        IsProper g b' }
{}
