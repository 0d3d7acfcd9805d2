// A number of 64 bits, as a word of the command line has it.
ghost use Rattle.std.specs.Prelude.{◌≡◌};
ghost use Rattle.k_text.specs.Numbers.{digits_of, has_form, number_of};

fn is_formed(word: &[u8]) -> bool
    ensures { result ≡ has_form word.now }
{
    match word {
        [] => false,
        [_] => true,
        [first, _, ..] => *first != b'0',
    }
}

#[tactic(auto, using(k_text::proofs::Digits::read_on_ge))]
fn read_digits(word: &[u8]) -> Option<u64>
    ensures { result ≡ digits_of 18446744073709551615 word.now }
{
    let mut value = 0u64;
    let mut rest = word;
    while let [digit, after @ ..] = rest {
        if !digit.is_ascii_digit() {
            return None;
        }
        value = value
            .checked_mul(10)?
            .checked_add(u64::from(*digit - b'0'))?;
        rest = after;
    }
    Some(value)
}

/// The number that a word writes in decimal digits without leading zeros, if it is one of 64 bits.
#[tactic(auto, unfolding(k_text::specs::Numbers::number_of))]
pub(crate) fn read_large(word: &[u8]) -> Option<u64>
    ensures { result ≡ number_of 18446744073709551615 word.now }
{
    if is_formed(word) {
        read_digits(word)
    } else {
        None
    }
}
