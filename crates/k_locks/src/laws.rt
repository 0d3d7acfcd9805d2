// What holds of steps and responses on decoded words, and of where words and contexts stand. Each law is a function that does
// nothing, whose contract is the law.
ghost use Rattle.std.specs.Prelude.{◌≡◌, ◌≢◌, ◌↔◌, ◌<◌, ◌≤◌, ◌==◌, ◌++◌, ◌∷◌, ℕ, suc, true, false, List, Option, Some, None, drop, length};
ghost use Rattle.k_ids.specs.declared.state_word.StateWord.{StateWord};
ghost use Rattle.k_ids.specs.StateWords.{IsStateSpelling, IsStateWord, state_bits, state_word_of};
ghost use Rattle.k_senders.specs.declared.entries.SenderEntry.{SenderEntry};
ghost use Rattle.k_senders.specs.Queue.{entry_of, stands};
ghost use Rattle.k_locks.specs.declared.locks.Lock.{Lock};
ghost use Rattle.k_locks.specs.declared.locks.WordName.{WordName};
ghost use Rattle.k_locks.specs.declared.steps.Answer.{Answer};
ghost use Rattle.k_locks.specs.Asks as asks;
ghost use Rattle.k_locks.specs.Asks.{Ask, response_of, same_word, step_for, suits_response, want_of};
ghost use Rattle.k_locks.specs.Queues.{before};
ghost use Rattle.k_locks.specs.Hands.{Hand, goods_in, hand_with};
ghost use Rattle.k_locks.specs.Locks.{Holds, IsByRank, lowest_held, rank_of};
ghost use Rattle.k_locks.specs.Places.{IsLock, IsWord, home_of, index_of, slot_of};
ghost use Rattle.k_locks.specs.Steps.{is_again, suits};
ghost use Rattle.k_locks.specs.Tables.{brings, hand_came};

/// What an answer of a step tells, decoded, is a response of what the step was asked for: the goods are those of the lock, and
/// what is in hand then is the same. The same step is asked for again exactly where the response says so, and then there is
/// something to wait for.
pub fn an_answer_is_a_response()
    ensures suits { (a : Ask) (h : Hand) (x : Answer) → suits (step_for a h) x ≡ true → suits_response a (response_of x a) ≡ true }
    ensures brings { (a : Ask) (h : Hand) (x : Answer) → suits (step_for a h) x ≡ true → brings a (response_of x a) (goods_in x) ≡ true }
    ensures hand { (a : Ask) (h : Hand) (x : Answer) → hand_with x h ≡ hand_came (response_of x a) (goods_in x) h }
    ensures again { (a : Ask) (x : Answer) → is_again x ≡ asks.is_again (response_of x a) }
    ensures wanted { (a : Ask) (h : Hand) (x : Answer) → suits (step_for a h) x ≡ true → is_again x ≡ true → want_of a ≢ None }
{}

/// A compare-exchange on bits is one on decoded words: it is won exactly where the word is the expected one.
pub fn an_exchange_is_of_words()
    ensures wins { (n : ℕ) (w : StateWord) → IsStateSpelling n → IsStateWord w → (n == state_bits w) ≡ same_word (state_word_of n) w }
    ensures same { (v w : StateWord) → IsStateWord v → IsStateWord w → (same_word v w ≡ true) ↔ (v ≡ w) }
{}

/// No two words stand at one place, and no two of what locks guard and of contexts: among 296 words, and 148 slots.
pub fn places_are_apart()
    ensures words { (v w : WordName) → IsWord v → IsWord w → index_of v ≡ index_of w → v ≡ w }
    ensures few_words { (w : WordName) → IsWord w → index_of w < 296 }
    ensures homes { (l m : Lock) → IsLock l → IsLock m → home_of l ≡ home_of m → l ≡ m }
    ensures apart { (l : Lock) (number : ℕ) → home_of l ≢ slot_of number }
    ensures slots { (m n : ℕ) → slot_of m ≡ slot_of n → m ≡ n }
    ensures few_homes { (l : Lock) → IsLock l → home_of l < 148 }
    ensures few_slots { (number : ℕ) → number < 72 → slot_of number < 148 }
{}

/// The lowest lock held is held, and each other that is held has at least its rank. There is none only where none is held.
pub fn the_lowest_is_held()
    ensures held { (locks : List (Option Lock)) (l : Lock) → IsByRank locks → lowest_held locks ≡ Some l → Holds l locks }
    ensures lowest { (locks : List (Option Lock)) (l m : Lock) → IsByRank locks → lowest_held locks ≡ Some l → Holds m locks → rank_of l ≤ rank_of m }
    ensures none { (locks : List (Option Lock)) (m : Lock) → Holds m locks → lowest_held locks ≢ None }
{}

/// A queue is the entries before the one of a number, that one, and the others.
pub fn a_queue_is_parted()
    ensures front { (n : ℕ) (es : List SenderEntry) → stands n (before n es) ≡ false }
    ensures parts { (n : ℕ) (es : List SenderEntry) (e : SenderEntry) → entry_of n es ≡ Some e → es ≡ before n es ++ e ∷ drop (suc (length (before n es))) es }
{}
