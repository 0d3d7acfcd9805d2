// What the words of the command line ask for.
ghost use Rattle.std.specs.Prelude.{◌≡◌, map, string_bytes};
ghost use Rattle.fiasco_run.specs.Calls.{call_of, numbered_call, single_call};

use crate::number::read_large;

/// A call of the program.
#[derive(Clone, Copy, Debug, PartialEq, Eq)]
pub enum Call {
    /// `run`: reads a script and runs it.
    Run,
    /// `check`: reads a script and a history, and judges the history.
    Check,
    /// `big N`: runs the large script of this number.
    Big(u64),
}

/// The call that these words ask for: one word, `run` or `check`; or two, `big` and a number of 64 bits, in decimal digits
/// without leading zeros.
pub(crate) fn call_of(words: &[String]) -> Option<Call>
    ensures { result ≡ call_of (map string_bytes words.now) }
{
    match words {
        [word] => single_call(word.as_bytes()),
        [word, number] => numbered_call(word.as_bytes(), number.as_bytes()),
        _ => None,
    }
}

fn single_call(word: &[u8]) -> Option<Call>
    ensures { result ≡ single_call word.now }
{
    if word == b"run".as_slice() {
        return Some(Call::Run);
    }
    if word == b"check".as_slice() {
        return Some(Call::Check);
    }
    None
}

fn numbered_call(word: &[u8], number: &[u8]) -> Option<Call>
    ensures { result ≡ numbered_call word.now number.now }
{
    if word == b"big".as_slice() {
        Some(Call::Big(read_large(number)?))
    } else {
        None
    }
}
