// Numbers.
ghost use Rattle.std.specs.Prelude.{◌≡◌, ◌≤◌, ◌∷◌, List, ℕ, min};
ghost use Rattle.k_lines.specs.Numbers.{read_on, leads_zero, digits_of, numeral_of, in_range};

/// A number as it is written: one or more decimal digits.
#[derive(Clone, Copy, Debug, PartialEq, Eq)]
pub struct Numeral {
    /// A zero stands in front of another digit.
    pub led: bool,
    /// The number, or 4,294,967,296 where it is greater.
    pub value: u64,
}

const ABOVE: u64 = 4_294_967_296;

impl Numeral {
    /// The number, if it has no leading zero and is in this range.
    pub fn in_range(self, least: u32, most: u32) -> Option<u32>
        ensures { result ≡ in_range least most self }
    {
        if !self.led && u64::from(least) <= self.value && self.value <= u64::from(most) {
            Some(self.value as u32)
        } else {
            None
        }
    }

    /// The same of a number of one byte.
    pub fn in_byte_range(self, least: u8, most: u8) -> Option<u8>
        ensures { result ≡ in_range least most self }
    {
        if !self.led && u64::from(least) <= self.value && self.value <= u64::from(most) {
            Some(self.value as u8)
        } else {
            None
        }
    }
}

fn leads_zero(word: &[u8]) -> bool
    ensures { result ≡ leads_zero word.now }
{
    match word {
        [first, _, ..] => *first == b'0',
        _ => false,
    }
}

/// One more digit, counted up to the value that stands for all that are too great.
#[tactic(auto, using(crate::proofs::Digits::capped))]
fn with_digit(value: u64, digit: u8) -> u64
    requires small { value ≤ 4294967296 }
    requires digit { 48 ≤ digit }
    ensures read { (rest : List ℕ) → min (read_on result rest) 4294967296 ≡ min (read_on value (digit ∷ rest)) 4294967296 }
    ensures small { result ≤ 4294967296 }
{
    (10 * value + u64::from(digit - b'0')).min(ABOVE)
}

#[tactic(auto, using(crate::proofs::Digits::capped_end))]
fn read_digits(word: &[u8]) -> Option<u64>
    ensures { result ≡ digits_of word.now }
{
    let mut value = 0u64;
    let mut rest = word;
    while let [digit, after @ ..] = rest {
        if !digit.is_ascii_digit() {
            return None;
        }
        value = with_digit(value, *digit);
        rest = after;
    }
    Some(value)
}

/// The number that a word writes.
#[tactic(auto, unfolding(crate::specs::Numbers::numeral_of))]
pub fn numeral_of(word: &[u8]) -> Option<Numeral>
    ensures { result ≡ numeral_of word.now }
{
    if word.is_empty() {
        return None;
    }
    let value = read_digits(word)?;
    Some(Numeral {
        led: leads_zero(word),
        value,
    })
}
