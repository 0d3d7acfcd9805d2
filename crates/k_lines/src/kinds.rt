// The kinds of lines: which one it is, says the first word.
ghost use Rattle.std.specs.Prelude.{◌≡◌, map, IfOk, option_map};
ghost use Rattle.k_lines.specs.Lines.{one_name, show_line, aged_line, thread_line, at_line, event_line, end_line, line_of, items_of};

use crate::forms::{is_word, item_of, name_of};
use crate::line::{ItemWord, Line};
use crate::numeral::{Numeral, numeral_of};
use crate::operations::{one_numeral, operation_line};
use k_script::Name;
use std::alloc::{AllocError, Global};

#[tactic(auto, unfolding(crate::specs::Lines::one_name))]
fn one_name(words: &[&[u8]]) -> Option<Name>
    ensures { result ≡ one_name (map (λ w. w.now) words.now) }
{
    let [name] = words else { return None };
    name_of(name)
}

#[tactic(auto, unfolding(crate::specs::Lines::show_line))]
fn show_line(words: &[&[u8]]) -> Option<Line>
    ensures { result ≡ show_line (map (λ w. w.now) words.now) }
{
    match words {
        [word] if is_word(word, b"steps") => Some(Line::ShowSteps),
        _ => None,
    }
}

#[tactic(auto, unfolding(crate::specs::Lines::aged_line))]
fn aged_line(words: &[&[u8]]) -> Option<Line>
    ensures { result ≡ aged_line (map (λ w. w.now) words.now) }
{
    let [number, version] = words else {
        return None;
    };
    let number = numeral_of(number)?;
    let version = numeral_of(version)?;
    Some(Line::Aged { number, version })
}

#[tactic(auto, unfolding(crate::specs::Lines::end_line))]
fn end_line(words: &[&[u8]]) -> Option<Line>
    ensures { result ≡ end_line (map (λ w. w.now) words.now) }
{
    match words {
        [] => Some(Line::End),
        _ => None,
    }
}

#[tactic(auto, unfolding(crate::specs::Lines::thread_line))]
fn thread_line(words: &[&[u8]]) -> Option<Line>
    ensures { result ≡ thread_line (map (λ w. w.now) words.now) }
{
    let [priority, program] = words else {
        return None;
    };
    let priority = numeral_of(priority)?;
    let program = name_of(program)?;
    Some(Line::Thread { priority, program })
}

fn event_line(word: &[u8], step: Numeral, of: Numeral) -> Option<Line>
    ensures { result ≡ event_line word.now step of }
{
    if is_word(word, b"start") {
        return Some(Line::Start { step, number: of });
    }
    if is_word(word, b"slice") {
        return Some(Line::Slice { step, carrier: of });
    }
    None
}

#[tactic(auto, unfolding(crate::specs::Lines::at_line))]
fn at_line(words: &[&[u8]]) -> Option<Line>
    ensures { result ≡ at_line (map (λ w. w.now) words.now) }
{
    let [step, word, of] = words else {
        return None;
    };
    let step = numeral_of(step)?;
    let of = numeral_of(of)?;
    event_line(word, step, of)
}

/// What the words of a line say, of which the first is given apart. A `turns` line is read by `items_of`.
#[tactic(auto, unfolding(crate::specs::Lines::line_of))]
pub fn line_of(first: &[u8], rest: &[&[u8]]) -> Option<Line>
    ensures { result ≡ line_of first.now (map (λ w. w.now) rest.now) }
{
    if is_word(first, b"kernel") {
        return Some(Line::Kernel(one_numeral(rest)?));
    }
    if is_word(first, b"table") {
        return Some(Line::Table(one_numeral(rest)?));
    }
    if is_word(first, b"carriers") {
        return Some(Line::Carriers(one_numeral(rest)?));
    }
    if is_word(first, b"show") {
        return show_line(rest);
    }
    if is_word(first, b"aged") {
        return aged_line(rest);
    }
    if is_word(first, b"program") {
        return Some(Line::Program(one_name(rest)?));
    }
    if is_word(first, b"end") {
        return end_line(rest);
    }
    if is_word(first, b"thread") {
        return thread_line(rest);
    }
    if is_word(first, b"at") {
        return at_line(rest);
    }
    Some(Line::Operation(operation_line(first, rest)?))
}

/// The items of a `turns` line, if each word behind the first has their form and there is one.
#[tactic(auto, unfolding(crate::specs::Lines::items_of))]
pub fn items_of(alloc: Global, words: &[&[u8]]) -> Result<Option<Vec<ItemWord>>, AllocError>
    ensures { IfOk result (λ items. option_map (λ i. i.items) items ≡ items_of (map (λ w. w.now) words.now)) }
{
    if words.is_empty() {
        return Ok(None);
    }
    let mut items = Vec::new(alloc);
    let mut rest = words;
    while let [word, after @ ..] = rest {
        let Some(item) = item_of(word) else {
            return Ok(None);
        };
        items.push(item)?;
        rest = after;
    }
    Ok(Some(items))
}
