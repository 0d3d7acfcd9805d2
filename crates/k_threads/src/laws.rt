// The laws of the two tables. Each is a function that does nothing, whose contract is the law.
ghost use Rattle.std.specs.Prelude.{true, ℕ, ◌*◌, ◌+◌, ◌<◌, ◌≡◌, ◌≤◌, List, length};
ghost use Rattle.k_ids.specs.declared.state_word.StateWord.{StateWord};
ghost use Rattle.k_locks.specs.declared.locks.Lock.{Lock};
ghost use Rattle.k_locks.specs.Asks.{Response};
ghost use Rattle.k_locks.specs.Hands.{Hand, trimmed};
ghost use Rattle.k_locks.specs.Tables.{IsReleasedInTime, IsRising, Reached, Run, lost_in};
ghost use Rattle.k_threads.specs.CreateTable as create;
ghost use Rattle.k_threads.specs.CreateTable.{CreateAt, create_table};
ghost use Rattle.k_threads.specs.declared.create.CreateCall.{CreateCall};
ghost use Rattle.k_threads.specs.declared.create.CreateLocation.{CreateLocation};
ghost use Rattle.k_threads.specs.declared.destroy.DestroyCall.{DestroyCall};
ghost use Rattle.k_threads.specs.declared.destroy.DestroyLocation.{DestroyLocation};
ghost use Rattle.k_threads.specs.DestroyTable as destroy;
ghost use Rattle.k_threads.specs.DestroyTable.{DestroyAt, destroy_table};

/// A create holds at most one lock of each rank, asks only for a rank above those that it holds, and holds what it has got and
/// not released.
pub fn a_create_takes_locks_in_rising_rank()
    ensures { (c : CreateCall) → IsRising (create_table c) }
{}

/// The same of a destroy.
pub fn a_destroy_takes_locks_in_rising_rank()
    ensures { (c : DestroyCall) → IsRising (destroy_table c) }
{}

/// A create makes no more steps up to the release of a lock than are left. It loses no exchange.
pub fn left_is_the_most_that_a_create_makes()
    ensures in_time { (c : CreateCall) → IsReleasedInTime (create_table c) }
    ensures most { (c : CreateCall) (k : Lock) (own : StateWord) (h : Hand) (p : CreateAt) (answers : List Response) → Run (create_table c) k own h p answers → length answers ≤ create.left_of c h p k }
{}

/// A destroy makes no more steps up to the release of a lock than are left, and two more for each lost exchange that isn't
/// counted there. `rest_of` is what is left once it is known whether the loaded word is still there.
pub fn left_is_the_most_that_a_destroy_makes()
    ensures in_time { (c : DestroyCall) → c.who.number < c.count → IsReleasedInTime (destroy_table c) }
    ensures rest { (c : DestroyCall) (k : Lock) (own : StateWord) (h : Hand) (p : DestroyAt) (answers : List Response) → c.who.number < c.count
        → Reached (destroy_table c) own h p → Run (destroy_table c) k own h p answers
        → length answers ≤ destroy.rest_of c h true p k + 2 * lost_in answers }
{}

/// A create is where it stands and what it has in hand: that of the locks that it holds.
pub fn a_create_is_its_location()
    ensures at { (h : Hand) (p : CreateAt) → create.at_of (create.location_with h p) ≡ p }
    ensures hand { (c : CreateCall) (h : Hand) (p : CreateAt) → create.hand_of (create.location_with h p) ≡ trimmed (create.locks_of c p) h }
    ensures back { (l : CreateLocation) → create.can_ask l ≡ true → create.location_with (create.hand_of l) (create.at_of l) ≡ l }
{}

/// The same of a destroy.
pub fn a_destroy_is_its_location()
    ensures at { (h : Hand) (p : DestroyAt) → destroy.at_of (destroy.location_with h p) ≡ p }
    ensures hand { (c : DestroyCall) (h : Hand) (p : DestroyAt) → destroy.hand_of (destroy.location_with h p) ≡ trimmed (destroy.locks_of c p) h }
    ensures back { (l : DestroyLocation) → destroy.can_ask l ≡ true → destroy.location_with (destroy.hand_of l) (destroy.at_of l) ≡ l }
{}
