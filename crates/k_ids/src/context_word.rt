// Context words.
ghost use Rattle.std.specs.Prelude.{◌≡◌, ℕ, ◌↔◌, ◌<◌, IsTrue, Some};
ghost use Rattle.k_ids.specs.declared.context_word.ContextWord.{ContextWord};
ghost use Rattle.k_ids.specs.ContextWords.{IsContextSpelling, IsContextWord, IsVersion, context_bits, context_from, context_word_of};

/// The value of a field's lowest bit.
const CARRIER: u64 = 1 << 2;

const VERSION: u64 = 1 << 6;

/// One more than the greatest version.
const VERSIONS: u64 = 1 << 20;

/// The word of a context's slot: what is in the slot, and whose context it is.
///
/// A version is 1 to 1,048,575. A carrier's own context has version 1.
#[derive(Clone, Copy, Debug, PartialEq, Eq)]
pub enum ContextWord {
    /// The slot has no context.
    Empty,
    /// A context that owns no lock.
    Clean { version: u32 },
    /// A context that owns a lock.
    Holds { version: u32 },
    /// This carrier has taken the context, to make its next step: 0 to 7.
    Taken { carrier: u8, version: u32 },
}

/// Whether it is the version of a thread.
fn is_version(version: u32) -> bool
    ensures { IsTrue result ↔ IsVersion version }
{
    0 < version && u64::from(version) < VERSIONS
}

impl ContextWord {
    /// Whether the word has a spelling: its fields are in their ranges.
    pub fn is_context_word(&self) -> bool
        ensures { IsTrue result ↔ IsContextWord self.now }
    {
        match self {
            ContextWord::Empty => true,
            ContextWord::Clean { version } | ContextWord::Holds { version } => is_version(*version),
            ContextWord::Taken { carrier, version } => *carrier < 8 && is_version(*version),
        }
    }

    /// The word's spelling.
    #[tactic(auto, unfolding(crate::specs::ContextWords::context_bits))]
    pub fn bits(&self) -> u64
        requires { IsContextWord self.now }
        ensures { result ≡ context_bits self.now }
    {
        match self {
            ContextWord::Empty => 0,
            ContextWord::Clean { version } => 1 + VERSION * u64::from(*version),
            ContextWord::Holds { version } => 2 + VERSION * u64::from(*version),
            ContextWord::Taken { carrier, version } => {
                3 + CARRIER * u64::from(*carrier) + VERSION * u64::from(*version)
            }
        }
    }

    /// The word with these fields.
    fn from_fields(code: u64, carrier: u8, version: u32) -> ContextWord
        ensures { result ≡ context_from code carrier version }
    {
        match code {
            1 => ContextWord::Clean { version },
            2 => ContextWord::Holds { version },
            3 => ContextWord::Taken { carrier, version },
            _ => ContextWord::Empty,
        }
    }

    /// The fields of these bits, as if they were a spelling.
    #[tactic(auto, unfolding(crate::specs::ContextWords::context_word_of))]
    fn decoded(bits: u64) -> ContextWord
        ensures { result ≡ context_word_of bits }
    {
        let carrier = (bits / CARRIER % 16) as u8;
        let version = (bits / VERSION % VERSIONS) as u32;
        ContextWord::from_fields(bits % 4, carrier, version)
    }

    /// The word that these bits spell, if they spell one.
    pub fn read(bits: u64) -> Option<ContextWord>
        ensures spelled { (w : ContextWord) → (result ≡ Some w) ↔ (IsContextWord w × (context_bits w ≡ bits)) }
        ensures known { IsContextSpelling bits → result ≡ Some (context_word_of bits) }
    {
        let word = ContextWord::decoded(bits);
        if word.is_context_word() && word.bits() == bits {
            Some(word)
        } else {
            None
        }
    }
}
