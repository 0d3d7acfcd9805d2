// What the lists say of their highest thread, and after a change. Each law is a function that does nothing, whose contract is
// the law.
ghost use Rattle.std.specs.Prelude.{Some, None, List, [], ◌∷◌, drop, length, ℕ, ◌≡◌, ◌↔◌, ◌<◌};
ghost use Rattle.k_ids.specs.declared.threads.ThreadId.{ThreadId};
ghost use Rattle.k_model.specs.Maps.{upd};
ghost use Rattle.k_ready.specs.Lists.{Ready, list_of, with_list};
ghost use Rattle.k_ready.specs.Popped.{IsHighest, Level, highest, popped};

/// The highest thread is the first of a list that isn't empty, above which all are. There is none exactly where all are empty.
pub fn the_highest_is_the_first_of_its_list()
    ensures some { (r : Ready) (l : Level) → length r.lists ≡ 64 → (highest r ≡ Some l) ↔ IsHighest r l }
    ensures none { (r : Ready) → length r.lists ≡ 64 → (highest r ≡ None) ↔ ((priority : ℕ) → list_of r.lists priority ≡ []) }
{}

/// A push and a pop change one list: as a map from priorities, all lists are the old ones with one value changed.
pub fn one_list_is_changed()
    ensures changed { (r : Ready) (priority : ℕ) (ids : List ThreadId) → priority < length r.lists →
        list_of (with_list r priority ids).lists ≡ upd (list_of r.lists) priority ids }
    ensures popped { (r : Ready) (l : Level) → length r.lists ≡ 64 → highest r ≡ Some l →
        list_of (popped r).lists ≡ upd (list_of r.lists) l.priority (drop 1 (list_of r.lists l.priority)) }
{}
