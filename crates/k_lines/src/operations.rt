// The lines of operations.
ghost use Rattle.std.specs.Prelude.{◌≡◌, map};
ghost use Rattle.k_lines.specs.Numbers.{numeral_of};
ghost use Rattle.k_lines.specs.Lines.{one_numeral, timeout_of, send_line, call_line, reply_line, receive_line, create_line, destroy_line, again_line, operation_line};

use crate::forms::{is_word, name_of, value_of, who_of};
use crate::line::OperationLine;
use crate::numeral::{Numeral, numeral_of};

#[tactic(auto, unfolding(crate::specs::Lines::one_numeral))]
pub(crate) fn one_numeral(words: &[&[u8]]) -> Option<Numeral>
    ensures { result ≡ one_numeral (map (λ w. w.now) words.now) }
{
    let [number] = words else { return None };
    numeral_of(number)
}

/// Whether the timeout is zero: so says a last word `now`.
#[tactic(auto, unfolding(crate::specs::Lines::timeout_of))]
fn timeout_of(words: &[&[u8]]) -> Option<bool>
    ensures { result ≡ timeout_of (map (λ w. w.now) words.now) }
{
    match words {
        [] => Some(false),
        [word] if is_word(word, b"now") => Some(true),
        _ => None,
    }
}

#[tactic(auto, unfolding(crate::specs::Lines::send_line))]
fn send_line(words: &[&[u8]]) -> Option<OperationLine>
    ensures { result ≡ send_line (map (λ w. w.now) words.now) }
{
    let [to, low, high, rest @ ..] = words else {
        return None;
    };
    let to = who_of(to)?;
    let low = value_of(low)?;
    let high = value_of(high)?;
    let zero = timeout_of(rest)?;
    Some(OperationLine::Send {
        to,
        low,
        high,
        zero,
    })
}

#[tactic(auto, unfolding(crate::specs::Lines::call_line))]
fn call_line(words: &[&[u8]]) -> Option<OperationLine>
    ensures { result ≡ call_line (map (λ w. w.now) words.now) }
{
    let [to, low, high, rest @ ..] = words else {
        return None;
    };
    let to = who_of(to)?;
    let low = value_of(low)?;
    let high = value_of(high)?;
    let zero = timeout_of(rest)?;
    Some(OperationLine::Call {
        to,
        low,
        high,
        zero,
    })
}

#[tactic(auto, unfolding(crate::specs::Lines::reply_line))]
fn reply_line(words: &[&[u8]]) -> Option<OperationLine>
    ensures { result ≡ reply_line (map (λ w. w.now) words.now) }
{
    let [low, high, rest @ ..] = words else {
        return None;
    };
    let low = value_of(low)?;
    let high = value_of(high)?;
    let zero = timeout_of(rest)?;
    Some(OperationLine::Reply { low, high, zero })
}

#[tactic(auto, unfolding(crate::specs::Lines::receive_line))]
fn receive_line(words: &[&[u8]]) -> Option<OperationLine>
    ensures { result ≡ receive_line (map (λ w. w.now) words.now) }
{
    let [from, rest @ ..] = words else {
        return None;
    };
    let from = who_of(from)?;
    let zero = timeout_of(rest)?;
    Some(OperationLine::Receive { from, zero })
}

#[tactic(auto, unfolding(crate::specs::Lines::create_line))]
fn create_line(words: &[&[u8]]) -> Option<OperationLine>
    ensures { result ≡ create_line (map (λ w. w.now) words.now) }
{
    let [program, priority] = words else {
        return None;
    };
    let program = name_of(program)?;
    let priority = numeral_of(priority)?;
    Some(OperationLine::Create { program, priority })
}

#[tactic(auto, unfolding(crate::specs::Lines::destroy_line))]
fn destroy_line(words: &[&[u8]]) -> Option<OperationLine>
    ensures { result ≡ destroy_line (map (λ w. w.now) words.now) }
{
    let [who] = words else { return None };
    let who = who_of(who)?;
    Some(OperationLine::Destroy { who })
}

#[tactic(auto, unfolding(crate::specs::Lines::again_line))]
fn again_line(words: &[&[u8]]) -> Option<OperationLine>
    ensures { result ≡ again_line (map (λ w. w.now) words.now) }
{
    match words {
        [] => Some(OperationLine::Again),
        _ => None,
    }
}

/// What the words of an operation say, of which the first is given apart.
#[tactic(auto, unfolding(crate::specs::Lines::operation_line))]
pub(crate) fn operation_line(first: &[u8], rest: &[&[u8]]) -> Option<OperationLine>
    ensures { result ≡ operation_line first.now (map (λ w. w.now) rest.now) }
{
    if is_word(first, b"send") {
        return send_line(rest);
    }
    if is_word(first, b"receive") {
        return receive_line(rest);
    }
    if is_word(first, b"wait") {
        let zero = timeout_of(rest)?;
        return Some(OperationLine::Wait { zero });
    }
    if is_word(first, b"call") {
        return call_line(rest);
    }
    if is_word(first, b"reply") {
        return reply_line(rest);
    }
    if is_word(first, b"create") {
        return create_line(rest);
    }
    if is_word(first, b"destroy") {
        return destroy_line(rest);
    }
    if is_word(first, b"work") {
        let count = one_numeral(rest)?;
        return Some(OperationLine::Work { count });
    }
    if is_word(first, b"repeat") {
        let count = one_numeral(rest)?;
        return Some(OperationLine::Repeat { count });
    }
    if is_word(first, b"again") {
        return again_line(rest);
    }
    None
}
