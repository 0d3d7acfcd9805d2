// Numbers.
ghost use Rattle.std.specs.Prelude.{◌≡◌};
ghost use Rattle.k_text.specs.Numbers.{has_form, digits_of, number_of};

fn is_formed(word: &[u8]) -> bool
    ensures { result ≡ has_form word.now }
{
    match word {
        [] => false,
        [_] => true,
        [first, _, ..] => *first != b'0',
    }
}

#[tactic(auto, using(crate::proofs::Digits::read_on_ge))]
fn read_digits(word: &[u8], most: u32) -> Option<u32>
    ensures { result ≡ digits_of most word.now }
{
    let mut value = 0u64;
    let mut rest = word;
    while let [digit, after @ ..] = rest {
        if !digit.is_ascii_digit() {
            return None;
        }
        value = 10 * value + u64::from(*digit - b'0');
        if value > u64::from(most) {
            return None;
        }
        rest = after;
    }
    Some(value as u32)
}

/// The number that a word writes, if it is at most this one.
#[tactic(auto, unfolding(crate::specs::Numbers::number_of))]
pub fn read_number(word: &[u8], most: u32) -> Option<u32>
    ensures { result ≡ number_of most word.now }
{
    if is_formed(word) {
        read_digits(word, most)
    } else {
        None
    }
}

/// The same of a number of one byte.
#[tactic(auto, using(crate::proofs::Digits::number_at_most))]
pub fn read_byte(word: &[u8], most: u8) -> Option<u8>
    ensures { result ≡ number_of most word.now }
{
    let n = read_number(word, u32::from(most))?;
    Some(n as u8)
}
