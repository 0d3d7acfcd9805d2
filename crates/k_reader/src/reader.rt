// Reading a script, line by line.
ghost use Rattle.std.specs.Prelude.{◌≡◌, ℕ, ◌↔◌, ◌≤◌, ◌<◌, ◌+◌, ◌∷◌, length, map, Some, None, Ok, Err, MatchResult, IfOk, OnOk, IfErr, option_and_then};
ghost use Rattle.k_lines.specs.Words.{lines_of, words_of};
ghost use Rattle.k_reader.specs.Draft.{opened};
ghost use Rattle.k_reader.specs.Reading.{accept_words, accept_text, read_lines, read_from, version_of, version_in, first_version, finished, at_end, read_of};
ghost use Rattle.k_reader.specs.Refused.{IsBadLine, IsRead};
ghost use Rattle.k_reader.specs.Grammar.{IsText};
ghost use Rattle.k_script.specs.Script.{Script};
ghost use Rattle.k_script.specs.Limits.{IsScript};

use crate::draft::{Refusal, Sketch};
use crate::fault::{ScriptFault, Why};
use k_lines::{Line, first_line, has_words, is_plain, is_word, items_of, line_of, line_words};
use k_script::{Parts, Script, weight};
use std::alloc::{AllocError, Global};

const MOST_BYTES: usize = 1_048_576;

const MOST_STEPS: u64 = 4_000_000;

#[tactic(auto, unfolding(crate::specs::Reading::accept_words))]
fn read_words(alloc: Global, sketch: &mut Sketch, words: &[&[u8]]) -> Result<(), Refusal>
    ensures ok { OnOk result (accept_words sketch.old (map (λ w. w.now) words.now) ≡ Ok sketch.new) }
    ensures bad { (why : Why) → result ≡ Err (Refusal.Bad why) → accept_words sketch.old (map (λ w. w.now) words.now) ≡ Err why }
{
    let [first, rest @ ..] = words else {
        return Ok(());
    };
    if is_word(first, b"turns") {
        return match items_of(alloc, rest)? {
            None => Err(Refusal::Bad(Why::Word)),
            Some(items) => sketch.accept_turns(alloc, &items),
        };
    }
    match line_of(first, rest) {
        None => Err(Refusal::Bad(Why::Word)),
        Some(line) => sketch.accept(alloc, line),
    }
}

#[tactic(auto, unfolding(crate::specs::Reading::accept_text))]
fn read_text(alloc: Global, sketch: &mut Sketch, line: &[u8]) -> Result<(), Refusal>
    ensures ok { OnOk result (accept_text sketch.old line.now ≡ Ok sketch.new) }
    ensures bad { (why : Why) → result ≡ Err (Refusal.Bad why) → accept_text sketch.old line.now ≡ Err why }
{
    if !is_plain(line) {
        return Err(Refusal::Bad(Why::Word));
    }
    let words = line_words(alloc, line)?;
    read_words(alloc, sketch, &words)
}

/// Takes in the line of this number.
fn read_line(
    alloc: Global,
    sketch: &mut Sketch,
    line: &[u8],
    number: u32,
) -> Result<(), ScriptFault>
    ensures ok { OnOk result (accept_text sketch.old line.now ≡ Ok sketch.new) }
    ensures bad { IfErr result (IsBadLine (λ bad. (accept_text sketch.old line.now ≡ Err bad.why) × (bad.line ≡ number))) }
{
    match read_text(alloc, sketch, line) {
        Ok(()) => Ok(()),
        Err(Refusal::Bad(why)) => Err(ScriptFault::Line { line: number, why }),
        Err(Refusal::NoMemory) => Err(ScriptFault::NoMemory),
    }
}

/// Takes in all lines behind so many, and answers how many there are.
fn read_lines(
    alloc: Global,
    sketch: &mut Sketch,
    bytes: &[u8],
    before: u32,
) -> Result<u32, ScriptFault>
    requires { before + length bytes.now ≤ 1048576 }
    ensures read { MatchResult result
        (λ lines. (read_lines sketch.old (before + 1) (lines_of bytes.now) ≡ Ok sketch.new) × (lines ≡ before + length (lines_of bytes.now)))
        (IsBadLine (λ bad. read_lines sketch.old (before + 1) (lines_of bytes.now) ≡ Err bad)) }
    ensures few { IfOk result (λ lines. lines ≤ 1048576) }
{
    let mut rest = bytes;
    let mut lines = before;
    while !rest.is_empty() {
        let (line, after) = first_line(rest);
        lines += 1;
        read_line(alloc, sketch, line, lines)?;
        rest = after;
    }
    Ok(lines)
}

fn version_in(line: &Line) -> Option<u8>
    ensures { result ≡ version_in line.now }
{
    match line {
        Line::Kernel(version) => version.in_byte_range(1, 2),
        _ => None,
    }
}

fn version_of(words: &[&[u8]]) -> Option<u8>
    ensures { result ≡ version_of (map (λ w. w.now) words.now) }
{
    let [first, rest @ ..] = words else {
        return None;
    };
    let line = line_of(first, rest)?;
    version_in(&line)
}

#[tactic(auto, unfolding(crate::specs::Reading::first_version))]
fn first_version(alloc: Global, line: &[u8]) -> Result<Option<u8>, AllocError>
    ensures { IfOk result (λ version. version ≡ first_version line.now) }
{
    if !is_plain(line) {
        return Ok(None);
    }
    let words = line_words(alloc, line)?;
    Ok(version_of(&words))
}

/// What the first line with words says, what stands behind it, and how many lines stand before that.
#[derive(Drop)]
struct Opening<'a> {
    version: u8,
    rest: &'a [u8],
    lines: u32,
}

/// The first line with words.
fn read_opening(alloc: Global, bytes: &[u8]) -> Result<Opening<'_>, ScriptFault>
    requires { length bytes.now ≤ 1048576 }
    ensures { MatchResult result
        (λ o. (read_from 1 (lines_of bytes.now) ≡ read_lines (opened o.version) (o.lines + 1) (lines_of o.rest.now)) × (o.lines + length o.rest.now ≤ 1048576) × (o.lines + length (lines_of o.rest.now) ≡ length (lines_of bytes.now)))
        (IsBadLine (λ bad. read_from 1 (lines_of bytes.now) ≡ Err bad)) }
{
    let mut rest = bytes;
    let mut lines = 0u32;
    while !rest.is_empty() {
        let (line, after) = first_line(rest);
        lines += 1;
        if has_words(line) {
            return match first_version(alloc, line).map_err(|_| ScriptFault::NoMemory)? {
                None => Err(ScriptFault::Line {
                    line: lines,
                    why: Why::Version,
                }),
                Some(version) => Ok(Opening {
                    version,
                    rest: after,
                    lines,
                }),
            };
        }
        if !is_plain(line) {
            return Err(ScriptFault::Line {
                line: lines,
                why: Why::Word,
            });
        }
        rest = after;
    }
    Err(ScriptFault::Line {
        line: lines + 1,
        why: Why::Version,
    })
}

/// The script, if nothing is missing. Condition: it is within the limits then.
#[tactic(auto, unfolding(crate::specs::Reading::finished))]
fn finish(sketch: Sketch) -> Result<Script, Why>
    requires { (s : Script) → finished sketch ≡ Ok s → IsScript s }
    ensures { result ≡ finished sketch }
{
    if sketch.open_program.is_some() {
        return Err(Why::Nest);
    }
    let Some(table) = sketch.table else {
        return Err(Why::Order);
    };
    if sketch.threads.is_empty() {
        return Err(Why::Order);
    }
    let carriers = sketch.carriers();
    let aged = sketch.aged;
    Ok(Script::of(Parts {
        version: sketch.version,
        table,
        carriers,
        show_steps: sketch.show_steps,
        aged,
        programs: sketch.programs,
        threads: sketch.threads,
        at_lines: sketch.at_lines,
        turns: sketch.turns,
    }))
}

#[tactic(auto, unfolding(crate::specs::Reading::read_of), using(crate::proofs::Meaning::read_within))]
fn read_script(alloc: Global, bytes: &[u8]) -> Result<Script, ScriptFault>
    requires { length bytes.now ≤ 1048576 }
    ensures { MatchResult result (λ s. read_of bytes.now ≡ Ok s) (IsBadLine (λ bad. read_of bytes.now ≡ Err bad)) }
{
    let opening = read_opening(alloc, bytes)?;
    let mut sketch = Sketch::new(alloc, opening.version);
    let lines = read_lines(alloc, &mut sketch, opening.rest, opening.lines)?;
    finish(sketch).map_err(|why| ScriptFault::Line {
        line: lines + 1,
        why,
    })
}

/// The script of which these bytes are a text.
///
/// It is answered exactly where the bytes are a text of one (see the law [`crate::a_text_is_read`]), at most 1,048,576 of
/// them, and its weight is at most 4,000,000, unless there is no memory. The faults are `TooLarge`, `Line` with the first bad
/// line and its first reason, and `TooLong` with the weight.
pub fn read(alloc: Global, bytes: &[u8]) -> Result<Script, ScriptFault>
    ensures text { IfOk result (λ s. IsText bytes.now s) }
    ensures exact { IsRead bytes.now result }
    ensures too_large { (result ≡ Err ScriptFault.TooLarge) ↔ (1048576 < length bytes.now) }
{
    if bytes.len() > MOST_BYTES {
        return Err(ScriptFault::TooLarge);
    }
    let script = read_script(alloc, bytes)?;
    let steps = weight(&script);
    if steps > MOST_STEPS {
        return Err(ScriptFault::TooLong { steps });
    }
    Ok(script)
}
