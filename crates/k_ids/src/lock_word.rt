// Lock words.
ghost use Rattle.std.specs.Prelude.{◌≡◌, ℕ, ◌↔◌, ◌≤◌, IsTrue, Some};
ghost use Rattle.k_ids.specs.declared.lock_word.LockWord.{LockWord};
ghost use Rattle.k_ids.specs.LockWords.{IsLockSpelling, IsLockWord, lock_bits, lock_word_of};

/// The contexts that can own a lock: 64 threads and eight carriers.
const CONTEXTS: u8 = 72;

/// The word of a lock: who owns it.
#[derive(Clone, Copy, Debug, PartialEq, Eq)]
pub enum LockWord {
    /// Nobody owns it. Its spelling is 0.
    Free,
    /// This context owns it: 0 to 71. Its spelling is one more.
    Owned { context: u8 },
}

impl LockWord {
    /// Whether the word has a spelling: the owner is one of the 72 contexts.
    pub fn is_lock_word(&self) -> bool
        ensures { IsTrue result ↔ IsLockWord self.now }
    {
        match self {
            LockWord::Free => true,
            LockWord::Owned { context } => *context < CONTEXTS,
        }
    }

    /// The word's spelling.
    #[tactic(auto, unfolding(crate::specs::LockWords::lock_bits))]
    pub fn bits(&self) -> u64
        requires { IsLockWord self.now }
        ensures { result ≡ lock_bits self.now }
    {
        match self {
            LockWord::Free => 0,
            LockWord::Owned { context } => u64::from(*context) + 1,
        }
    }

    /// The word that these bits spell, if they spell one.
    pub fn read(bits: u64) -> Option<LockWord>
        ensures spelled { (w : LockWord) → (result ≡ Some w) ↔ (IsLockWord w × (lock_bits w ≡ bits)) }
        ensures known { IsLockSpelling bits → result ≡ Some (lock_word_of bits) }
    {
        match bits {
            0 => Some(LockWord::Free),
            1..=72 => Some(LockWord::Owned {
                context: (bits - 1) as u8,
            }),
            _ => None,
        }
    }
}
