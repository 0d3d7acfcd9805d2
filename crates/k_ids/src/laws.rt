// Words and their spellings are one for one. Each law is a function that does nothing, whose contract is the law.
//
// So a compare-exchange on bits is one on decoded words: the bits found are those expected exactly where the words are.
ghost use Rattle.std.specs.Prelude.{◌≡◌, ℕ, ◌↔◌, ◌<◌, ◌≤◌, ◌^◌};
ghost use Rattle.k_ids.specs.declared.threads.Message.{Message};
ghost use Rattle.k_ids.specs.declared.context_word.ContextWord.{ContextWord};
ghost use Rattle.k_ids.specs.declared.lock_word.LockWord.{LockWord};
ghost use Rattle.k_ids.specs.declared.state_word.StateWord.{StateWord};
ghost use Rattle.k_ids.specs.ContextWords.{IsContextSpelling, IsContextWord, context_bits, context_word_of};
ghost use Rattle.k_ids.specs.LockWords.{IsLockSpelling, IsLockWord, lock_bits, lock_word_of};
ghost use Rattle.k_ids.specs.Messages.{message_bits, message_of_bits};
ghost use Rattle.k_ids.specs.StateWords.{IsStateSpelling, IsStateWord, state_bits, state_word_of};

/// No two state words have one spelling, which takes 60 bits. It is read as the word, and other bits as another.
pub fn a_state_word_has_one_spelling()
    ensures read { (w : StateWord) → IsStateWord w → state_word_of (state_bits w) ≡ w }
    ensures spelled { (w : StateWord) → IsStateWord w → IsStateSpelling (state_bits w) }
    ensures same { (n : ℕ) (w : StateWord) → IsStateSpelling n → IsStateWord w → (n ≡ state_bits w) ↔ (state_word_of n ≡ w) }
    ensures one { (v w : StateWord) → IsStateWord v → IsStateWord w → state_bits v ≡ state_bits w → v ≡ w }
    ensures small { (w : StateWord) → IsStateWord w → state_bits w < 2 ^ 60 }
{}

/// No two lock words have one spelling, which is 72 at most. It is read as the word, and other bits as another.
pub fn a_lock_word_has_one_spelling()
    ensures read { (w : LockWord) → lock_word_of (lock_bits w) ≡ w }
    ensures spelled { (w : LockWord) → IsLockWord w → IsLockSpelling (lock_bits w) }
    ensures whole { (n : ℕ) → IsLockSpelling n → IsLockWord (lock_word_of n) }
    ensures same { (n : ℕ) (w : LockWord) → (n ≡ lock_bits w) ↔ (lock_word_of n ≡ w) }
    ensures one { (v w : LockWord) → lock_bits v ≡ lock_bits w → v ≡ w }
{}

/// No two context words have one spelling, which takes 26 bits. It is read as the word, and other bits as another.
pub fn a_context_word_has_one_spelling()
    ensures read { (w : ContextWord) → IsContextWord w → context_word_of (context_bits w) ≡ w }
    ensures spelled { (w : ContextWord) → IsContextWord w → IsContextSpelling (context_bits w) }
    ensures same { (n : ℕ) (w : ContextWord) → IsContextSpelling n → IsContextWord w → (n ≡ context_bits w) ↔ (context_word_of n ≡ w) }
    ensures one { (v w : ContextWord) → IsContextWord v → IsContextWord w → context_bits v ≡ context_bits w → v ≡ w }
    ensures small { (w : ContextWord) → IsContextWord w → context_bits w < 2 ^ 26 }
{}

/// Each number of 64 bits is one message, and each message one such number.
pub fn a_message_is_one_number()
    ensures read { (m : Message) → m.low < 2 ^ 32 → message_of_bits (message_bits m) ≡ m }
    ensures spelled { (n : ℕ) → message_bits (message_of_bits n) ≡ n }
    ensures small { (m : Message) → m.low < 2 ^ 32 → m.high < 2 ^ 32 → message_bits m < 2 ^ 64 }
{}
