// The laws of a good board. Each is a function that does nothing, whose contract is the law.
ghost use Rattle.std.specs.Prelude.{None, Option, Some, false, length, ℕ, ◌<◌, ◌≡◌};
ghost use Rattle.k_board.specs.Boards.{Board, InCreate, owner_of};
ghost use Rattle.k_board.specs.Boots.{Booted};
ghost use Rattle.k_board.specs.Places.{PlacesHold};
ghost use Rattle.k_board.specs.Turns.{IsUnused, Turn};
ghost use Rattle.k_board.specs.Words.{Programs};
ghost use Rattle.k_good.specs.Good.{IsGood, NumbersAgree, QueuesTell};
ghost use Rattle.k_good.specs.Locks.{LocksHold};
ghost use Rattle.k_good.specs.Ranges.{IsWithin, NamesFit};
ghost use Rattle.k_locks.specs.Numbers.{lowest_free};
ghost use Rattle.k_locks.specs.Shown.{is_dead};
ghost use Rattle.k_locks.specs.declared.locks.Lock.{Lock};
ghost use Rattle.k_threads.specs.CreateTable as create;
ghost use Rattle.k_threads.specs.declared.create.CreateCall.{CreateCall};
ghost use Rattle.k_threads.specs.declared.create.CreateLocked.TheVariants as locked;

/// The board on which the kernel begins is good: no lock is owned, and the list of numbers agrees with the words.
pub fn the_first_board_is_good()
    ensures { (g : Programs) (b : Board) → ((n : ℕ) → Booted g b n) → ((l : Lock) → owner_of b l ≡ None) → NumbersAgree b.seen b.numbers b.context → IsGood g b }
{}

/// A good board is good after any turn of any context, where the queues tell what the turn stands on.
pub fn every_turn_keeps_a_good_board()
    ensures { (g : Programs) (b b' : Board) (i : ℕ) → IsGood g b → QueuesTell b i → Turn g b i b' → IsGood g b' }
{}

/// A lock names a context exactly where the context's location holds it, after any turn of any context, whatever the queues tell.
pub fn locks_name_contexts_after_any_turn()
    ensures { (g : Programs) (b b' : Board) (i : ℕ) → PlacesHold g b → LocksHold b.owner b.table b.ready b.context → Turn g b i b' → LocksHold b'.owner b'.table b'.ready b'.context }
{}

/// The number that a create is about to choose had a thread that was destroyed, or none yet, and has no context.
pub fn a_create_chooses_an_unused_number()
    ensures { (g : Programs) (b : Board) → IsGood g b → (i n : ℕ) (c : CreateCall) → (b.context i).at ≡ InCreate c (create.Locked locked.LoadCaller) → lowest_free b.numbers ≡ Some n → IsUnused b n }
{}

/// The thread ids in words and locations are of the table's range after any turn, where each call that a program gives names such ids.
pub fn thread_ids_stay_in_range()
    ensures { (g : Programs) (b b' : Board) (i : ℕ) → IsGood g b → IsWithin b → NamesFit g b.size → QueuesTell b i → Turn g b i b' → IsWithin b' }
{}

/// The board on which the kernel begins is within its ranges, where the list of numbers is as long as the table and only its numbers have threads.
pub fn thread_ids_start_in_range()
    ensures { (g : Programs) (b : Board) → ((n : ℕ) → Booted g b n) → length b.numbers.versions ≡ b.size → ((n : ℕ) → is_dead (b.seen n).word ≡ false → n < b.size) → IsWithin b }
{}
