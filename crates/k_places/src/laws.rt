// The laws of the raw world as maps, and of the board that it shows. Each is a function that does nothing, whose contract is
// the law.
ghost use Rattle.std.specs.Prelude.{◌≡◌, ◌≤◌, ℕ, None};
ghost use Rattle.k_script.specs.Limits.{IsScript};
ghost use Rattle.k_script.specs.Script.{Script};
ghost use Rattle.k_locks.specs.declared.locks.Lock.{Lock};
ghost use Rattle.k_locks.specs.declared.locks.WordName.{WordName};
ghost use Rattle.k_world.specs.Boot.{boot_numbers, booted};
ghost use Rattle.k_world.specs.Steps.{CarrierStep, carrier_after, entry_of, moved_by, parked, running, sliced, started};
ghost use Rattle.k_world.specs.Worlds.{World, word_at};
ghost use Rattle.k_board.specs.Boards.{Board, owner_of};
ghost use Rattle.k_board.specs.Boots.{Booted};
ghost use Rattle.k_good.specs.Good.{NumbersAgree};
ghost use Rattle.k_places.specs.Boots.{boot_board, boot_context_at, boot_seen};
ghost use Rattle.k_places.specs.Contexts.{programs_of};
ghost use Rattle.k_places.specs.Fits.{IsStepWithin};
ghost use Rattle.k_places.specs.Memory.{Memory, memory_of, moved_maps, word_in};
ghost use Rattle.k_places.specs.Shows.{ShowsBoard, ShowsOwners, ShowsSeen};
ghost use Rattle.k_locks.specs.Asks.{Ask, response_of, step_for};
ghost use Rattle.k_locks.specs.Hands.{Hand};
ghost use Rattle.k_board.specs.Steps.{Answers};
ghost use Rattle.k_places.specs.Answers.{answer_in};
ghost use Rattle.k_places.specs.Asks.{IsAskFit};

/// A move of a carrier is a change of maps: of one word, of one slot at most, of what the carrier has in hand, and of the
/// serials of the entry. A start, the end of a slice and a park change none.
pub fn a_move_changes_the_maps()
    ensures words { (w : World) (name : WordName) → word_at w name ≡ word_in (memory_of w) name }
    ensures moved { (script : Script) (w : World) (s : CarrierStep) → IsStepWithin w s
        → memory_of (moved_by script w s) ≡ moved_maps script (memory_of w) s.number (running s.asked.hand) s.move (carrier_after s).hand (entry_of w s) }
    ensures started { (c number : ℕ) (w : World) → memory_of (started c number w) ≡ memory_of w }
    ensures sliced { (c : ℕ) (w : World) → memory_of (sliced c w) ≡ memory_of w }
    ensures parked { (c : ℕ) (w : World) → memory_of (parked c w) ≡ memory_of w }
{}

/// What a step finds in the raw world is what it may find on the board that the world shows.
pub fn a_step_finds_what_the_board_has()
    ensures { (m : Memory) (b : Board) (a : Ask) (h : Hand) → ShowsSeen m.state m.mail b.seen
        → ShowsOwners m.lock b.owner b.table b.ready → IsAskFit m b a
        → Answers b a (response_of (answer_in m (step_for a h)) a) }
{}

/// The world in which the kernel begins to run a script shows a board. On it each thread of the script is between two calls
/// and has made none, no lock is owned, and the list of numbers agrees with the words.
pub fn the_first_world_shows_the_first_board()
    ensures shows { (script : Script) (carriers : ℕ) → IsScript script → carriers ≤ 8
        → ShowsBoard script (booted script carriers) (boot_board script carriers) }
    ensures booted { (script : Script) (carriers : ℕ) → IsScript script → carriers ≤ 8 → (n : ℕ)
        → Booted (programs_of script) (boot_board script carriers) n }
    ensures free { (script : Script) (carriers : ℕ) → IsScript script → carriers ≤ 8 → (l : Lock)
        → owner_of (boot_board script carriers) l ≡ None }
    ensures numbers { (script : Script) (carriers : ℕ) → IsScript script → carriers ≤ 8
        → NumbersAgree (boot_seen script) (boot_numbers script) (boot_context_at script carriers) }
{}
