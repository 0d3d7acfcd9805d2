// The forms of words: names, threads, values and items.
ghost use Rattle.std.specs.Prelude.{◌≡◌, position};
ghost use Rattle.std.specs.Str.{bytes_eq};
ghost use Rattle.std.specs.List.{list_all};
ghost use Rattle.k_script.specs.Limits.{is_name_byte, is_name};
ghost use Rattle.k_lines.specs.Lines.{name_of, hash_of, who_of, value_of, is_mark, steps_at, park_at, item_of};

use crate::line::{ItemWord, ValueWord, WhoWord};
use crate::numeral::numeral_of;
use k_script::Name;

/// Whether a word is this text.
pub fn is_word(word: &[u8], text: &[u8]) -> bool
    ensures { result ≡ bytes_eq word.now text.now }
{
    word == text
}

fn is_name_byte(b: u8) -> bool
    ensures { result ≡ is_name_byte b }
{
    (b'a' <= b && b <= b'z') || (b'0' <= b && b <= b'9') || b == b'_'
}

fn is_name(word: &[u8]) -> bool
    ensures { result ≡ is_name word.now }
{
    1 <= word.len() && word.len() <= 16 && has_name_bytes(word)
}

fn has_name_bytes(word: &[u8]) -> bool
    ensures { result ≡ list_all is_name_byte word.now }
{
    word.iter().all(|b| is_name_byte(*b))
}

pub(crate) fn name_of(word: &[u8]) -> Option<Name>
    ensures { result ≡ name_of word.now }
{
    if is_name(word) {
        Some(Name::of(word))
    } else {
        None
    }
}

fn hash_of(word: &[u8]) -> Option<WhoWord>
    ensures { result ≡ hash_of word.now }
{
    match word {
        [b'#', digits @ ..] => {
            let number = numeral_of(digits)?;
            Some(WhoWord::Number(number))
        }
        _ => None,
    }
}

pub(crate) fn who_of(word: &[u8]) -> Option<WhoWord>
    ensures { result ≡ who_of word.now }
{
    if is_word(word, b"last") {
        return Some(WhoWord::Last);
    }
    if is_word(word, b"made") {
        return Some(WhoWord::Made);
    }
    hash_of(word)
}

pub(crate) fn value_of(word: &[u8]) -> Option<ValueWord>
    ensures { result ≡ value_of word.now }
{
    if is_word(word, b"got0") {
        return Some(ValueWord::Got0);
    }
    if is_word(word, b"got1") {
        return Some(ValueWord::Got1);
    }
    let number = numeral_of(word)?;
    Some(ValueWord::Number(number))
}

fn mark_at(word: &[u8]) -> Option<usize>
    ensures { result ≡ position is_mark word.now }
{
    word.iter().position(|b| *b == b'*' || *b == b'!')
}

/// The item that a word of a `turns` line writes.
#[tactic(auto, unfolding(crate::specs::Lines::item_of), using(crate::proofs::Cut::found_inside, k_lists::proofs::Cuts::rest_at))]
pub(crate) fn item_of(word: &[u8]) -> Option<ItemWord>
    ensures { result ≡ item_of word.now }
{
    let at = mark_at(word)?;
    if word[at] == b'*' {
        let carrier = numeral_of(&word[..at])?;
        let count = numeral_of(&word[at + 1..])?;
        return Some(ItemWord::Steps { carrier, count });
    }
    if at + 1 != word.len() {
        return None;
    }
    let carrier = numeral_of(&word[..at])?;
    Some(ItemWord::Park { carrier })
}
