// Reading the words of a history line.
ghost use Rattle.std.specs.Prelude.{◌≡◌, ◌<◌, IfSome, is_some, length, map, position};
ghost use Rattle.k_history.specs.Reading.{act_of, create_of, destroy_of, end_of, entry_of, found_of, full_of, id_of, is_arrow, is_dot, just, made_of, message_of, outcome_of, phase_of, receive_of, receiving_of, reply_of, result_of, send_of, sending_of, shown, silent_of, silent_outcome, spoken_of, status_of, took_of, wait_of, zero_of, alone};

use k_ids::{Act, Entry, Event, Found, Message, Outcome, Phase, Status, ThreadId};
use k_lines::is_word;
use k_text::{read_byte, read_number};

fn dot_at(word: &[u8]) -> Option<usize>
    ensures { result ≡ position is_dot word.now }
{
    word.iter().position(|b| *b == b'.')
}

/// A thread: `NUMBER.VERSION`.
#[tactic(auto, unfolding(crate::specs::Reading::id_of))]
fn id_of(least: u32, word: &[u8]) -> Option<ThreadId>
    ensures { result ≡ id_of least word.now }
{
    let at = dot_at(word)?;
    let number = read_byte(&word[..at], 63)?;
    let version = read_number(&word[at + 1..], 1_048_575)?;
    if version < least {
        return None;
    }
    Some(ThreadId { number, version })
}

#[tactic(auto, unfolding(crate::specs::Reading::message_of))]
fn message_of(low: &[u8], high: &[u8]) -> Option<Message>
    ensures { result ≡ message_of low.now high.now }
{
    let low = read_number(low, u32::MAX)?;
    let high = read_number(high, u32::MAX)?;
    Some(Message { low, high })
}

/// Whether the timeout is zero: `now`, or nothing.
#[tactic(auto, unfolding(crate::specs::Reading::zero_of))]
fn zero_of(words: &[&[u8]]) -> Option<bool>
    ensures { result ≡ zero_of (map (λ w. w.now) words.now) }
{
    match words {
        [] => Some(false),
        [word] => {
            if is_word(word, b"now") {
                Some(true)
            } else {
                None
            }
        }
        _ => None,
    }
}

#[tactic(auto, unfolding(crate::specs::Reading::send_of))]
fn send_of(joined: bool, words: &[&[u8]]) -> Option<Phase>
    ensures { result ≡ send_of joined (map (λ w. w.now) words.now) }
{
    let [to, low, high, rest @ ..] = words else {
        return None;
    };
    let to = id_of(1, to)?;
    let message = message_of(low, high)?;
    let zero = zero_of(rest)?;
    Some(Phase::Send {
        to,
        message,
        zero,
        joined,
    })
}

#[tactic(auto, unfolding(crate::specs::Reading::reply_of))]
fn reply_of(words: &[&[u8]]) -> Option<Phase>
    ensures { result ≡ reply_of (map (λ w. w.now) words.now) }
{
    let [to, low, high, rest @ ..] = words else {
        return None;
    };
    let to = id_of(1, to)?;
    let message = message_of(low, high)?;
    let zero = zero_of(rest)?;
    Some(Phase::Reply { to, message, zero })
}

#[tactic(auto, unfolding(crate::specs::Reading::receive_of))]
fn receive_of(words: &[&[u8]]) -> Option<Phase>
    ensures { result ≡ receive_of (map (λ w. w.now) words.now) }
{
    let [from, rest @ ..] = words else {
        return None;
    };
    let from = id_of(1, from)?;
    let zero = zero_of(rest)?;
    Some(Phase::Receive {
        from: Some(from),
        zero,
    })
}

#[tactic(auto, unfolding(crate::specs::Reading::wait_of))]
fn wait_of(words: &[&[u8]]) -> Option<Phase>
    ensures { result ≡ wait_of (map (λ w. w.now) words.now) }
{
    let zero = zero_of(words)?;
    Some(Phase::Receive { from: None, zero })
}

#[tactic(auto, unfolding(crate::specs::Reading::create_of))]
fn create_of(words: &[&[u8]]) -> Option<Phase>
    ensures { result ≡ create_of (map (λ w. w.now) words.now) }
{
    let [program, priority] = words else {
        return None;
    };
    let program = read_byte(program, 254)?;
    let priority = read_byte(priority, 63)?;
    Some(Phase::Create { program, priority })
}

#[tactic(auto, unfolding(crate::specs::Reading::destroy_of))]
fn destroy_of(words: &[&[u8]]) -> Option<Phase>
    ensures { result ≡ destroy_of (map (λ w. w.now) words.now) }
{
    let [who] = words else { return None };
    let who = id_of(1, who)?;
    Some(Phase::Destroy { who })
}

#[tactic(auto, unfolding(crate::specs::Reading::end_of))]
fn end_of(words: &[&[u8]]) -> Option<Phase>
    ensures { result ≡ end_of (map (λ w. w.now) words.now) }
{
    match words {
        [] => Some(Phase::End),
        _ => None,
    }
}

#[tactic(auto, unfolding(crate::specs::Reading::phase_of))]
fn phase_of(first: &[u8], words: &[&[u8]]) -> Option<Phase>
    ensures { result ≡ phase_of first.now (map (λ w. w.now) words.now) }
{
    if is_word(first, b"send") {
        return send_of(false, words);
    }
    if is_word(first, b"call") {
        return send_of(true, words);
    }
    if is_word(first, b"reply") {
        return reply_of(words);
    }
    if is_word(first, b"receive") {
        return receive_of(words);
    }
    if is_word(first, b"wait") {
        return wait_of(words);
    }
    if is_word(first, b"create") {
        return create_of(words);
    }
    if is_word(first, b"destroy") {
        return destroy_of(words);
    }
    if is_word(first, b"end") {
        return end_of(words);
    }
    None
}

fn alone(act: Act, words: &[&[u8]]) -> Option<Act>
    ensures { result ≡ alone act (map (λ w. w.now) words.now) }
{
    match words {
        [] => Some(act),
        _ => None,
    }
}

#[tactic(auto, unfolding(crate::specs::Reading::act_of))]
fn act_of(words: &[&[u8]]) -> Option<Act>
    ensures { result ≡ act_of (map (λ w. w.now) words.now) }
{
    let [first, rest @ ..] = words else {
        return None;
    };
    if is_word(first, b"gone") {
        return alone(Act::Gone, rest);
    }
    if is_word(first, b"pick") {
        return alone(Act::Pick, rest);
    }
    let phase = phase_of(first, rest)?;
    Some(Act::Call { phase })
}

#[tactic(auto, unfolding(crate::specs::Reading::sending_of))]
fn sending_of(words: &[&[u8]]) -> Option<Status>
    ensures { result ≡ sending_of (map (λ w. w.now) words.now) }
{
    let [to] = words else { return None };
    let to = id_of(1, to)?;
    Some(Status::Sending { to })
}

#[tactic(auto, unfolding(crate::specs::Reading::receiving_of))]
fn receiving_of(words: &[&[u8]]) -> Option<Status>
    ensures { result ≡ receiving_of (map (λ w. w.now) words.now) }
{
    let [from] = words else { return None };
    if is_word(from, b"any") {
        return Some(Status::Receiving { from: None });
    }
    let from = id_of(1, from)?;
    Some(Status::Receiving { from: Some(from) })
}

fn shown(status: Status, words: &[&[u8]]) -> Option<Status>
    ensures { result ≡ shown status (map (λ w. w.now) words.now) }
{
    match words {
        [] => Some(status),
        _ => None,
    }
}

#[tactic(auto, unfolding(crate::specs::Reading::status_of))]
fn status_of(words: &[&[u8]]) -> Option<Status>
    ensures { result ≡ status_of (map (λ w. w.now) words.now) }
{
    let [first, rest @ ..] = words else {
        return None;
    };
    if is_word(first, b"dead") {
        return shown(Status::Dead, rest);
    }
    if is_word(first, b"run") {
        return shown(Status::Run, rest);
    }
    if is_word(first, b"sending") {
        return sending_of(rest);
    }
    if is_word(first, b"receiving") {
        return receiving_of(rest);
    }
    if is_word(first, b"picking") {
        return shown(Status::Picking, rest);
    }
    if is_word(first, b"ended") {
        return shown(Status::Ended, rest);
    }
    None
}

#[tactic(auto, unfolding(crate::specs::Reading::found_of))]
fn found_of(words: &[&[u8]]) -> Option<Found>
    ensures { result ≡ found_of (map (λ w. w.now) words.now) }
{
    let [id, rest @ ..] = words else {
        return None;
    };
    let id = id_of(0, id)?;
    let status = status_of(rest)?;
    Some(Found { id, status })
}

#[tactic(auto, unfolding(crate::specs::Reading::took_of))]
fn took_of(words: &[&[u8]]) -> Option<Outcome>
    ensures { result ≡ took_of (map (λ w. w.now) words.now) }
{
    let [from, low, high] = words else {
        return None;
    };
    let from = id_of(1, from)?;
    let message = message_of(low, high)?;
    Some(Outcome::Took { from, message })
}

#[tactic(auto, unfolding(crate::specs::Reading::made_of))]
fn made_of(words: &[&[u8]]) -> Option<Outcome>
    ensures { result ≡ made_of (map (λ w. w.now) words.now) }
{
    let [id] = words else { return None };
    let id = id_of(1, id)?;
    Some(Outcome::Made { id })
}

#[tactic(auto, unfolding(crate::specs::Reading::full_of))]
fn full_of(words: &[&[u8]]) -> Option<Outcome>
    ensures { result ≡ full_of (map (λ w. w.now) words.now) }
{
    let [first, alive, second, worn] = words else {
        return None;
    };
    if !(is_word(first, b"alive") && is_word(second, b"worn")) {
        return None;
    }
    let alive = read_byte(alive, 64)?;
    let worn = read_byte(worn, 64)?;
    Some(Outcome::Full { alive, worn })
}

fn just(outcome: Outcome, words: &[&[u8]]) -> Option<Outcome>
    ensures { result ≡ just outcome (map (λ w. w.now) words.now) }
{
    match words {
        [] => Some(outcome),
        _ => None,
    }
}

#[tactic(auto, unfolding(crate::specs::Reading::outcome_of))]
fn outcome_of(words: &[&[u8]]) -> Option<Outcome>
    ensures { result ≡ outcome_of (map (λ w. w.now) words.now) }
{
    let [first, rest @ ..] = words else {
        return None;
    };
    if is_word(first, b"passed") {
        return just(Outcome::Passed, rest);
    }
    if is_word(first, b"waits") {
        return just(Outcome::Waits, rest);
    }
    if is_word(first, b"took") {
        return took_of(rest);
    }
    if is_word(first, b"made") {
        return made_of(rest);
    }
    if is_word(first, b"killed") {
        return just(Outcome::Killed, rest);
    }
    if is_word(first, b"absent") {
        return found_of(rest).map(|found| Outcome::Absent { found });
    }
    if is_word(first, b"busy") {
        return found_of(rest).map(|found| Outcome::Busy { found });
    }
    if is_word(first, b"nobody") {
        return just(Outcome::Nobody, rest);
    }
    if is_word(first, b"own") {
        return just(Outcome::Own, rest);
    }
    if is_word(first, b"full") {
        return full_of(rest);
    }
    None
}

/// Whether no outcome is printed behind it.
fn is_silent(act: Act) -> bool
    ensures { result ≡ is_some (silent_outcome act) }
{
    silent_outcome(act).is_some()
}

/// The outcome of what isn't printed with one.
fn silent_outcome(act: Act) -> Option<Outcome>
    ensures { result ≡ silent_outcome act }
{
    match act {
        Act::Call { phase: Phase::End } => Some(Outcome::Ended),
        Act::Gone => Some(Outcome::Freed),
        _ => None,
    }
}

fn arrow_at(words: &[&[u8]]) -> Option<usize>
    ensures place { result ≡ position (λ w. is_arrow w.now) words.now }
    ensures inside { IfSome result (λ at. at < length words.now) }
{
    words.iter().position(|word| is_word(word, b"->"))
}

/// What happens, and its outcome, where none is printed.
#[tactic(auto, unfolding(crate::specs::Reading::silent_of))]
fn silent_of(words: &[&[u8]]) -> Option<(Act, Outcome)>
    ensures { result ≡ silent_of (map (λ w. w.now) words.now) }
{
    let act = act_of(words)?;
    let outcome = silent_outcome(act)?;
    Some((act, outcome))
}

/// What happens, and the printed outcome behind it.
#[tactic(auto, unfolding(crate::specs::Reading::spoken_of))]
fn spoken_of(front: &[&[u8]], back: &[&[u8]]) -> Option<(Act, Outcome)>
    ensures { result ≡ spoken_of (map (λ w. w.now) front.now) (map (λ w. w.now) back.now) }
{
    let act = act_of(front)?;
    if is_silent(act) {
        return None;
    }
    let outcome = outcome_of(back)?;
    Some((act, outcome))
}

/// What happens and what comes of it.
#[tactic(auto, unfolding(crate::specs::Reading::result_of))]
fn result_of(words: &[&[u8]]) -> Option<(Act, Outcome)>
    ensures { result ≡ result_of (map (λ w. w.now) words.now) }
{
    match arrow_at(words) {
        None => silent_of(words),
        Some(at) => spoken_of(&words[..at], &words[at + 1..]),
    }
}

/// The entry that a line's words spell.
#[tactic(auto, unfolding(crate::specs::Reading::entry_of))]
pub fn entry_of(words: &[&[u8]]) -> Option<Entry>
    ensures { result ≡ entry_of (map (λ w. w.now) words.now) }
{
    let [who, serial, rest @ ..] = words else {
        return None;
    };
    let who = id_of(1, who)?;
    let serial = read_number(serial, u32::MAX)?;
    let (act, outcome) = result_of(rest)?;
    let event = Event { who, serial, act };
    Some(Entry { event, outcome })
}
