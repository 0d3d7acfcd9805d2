// The lines of waits.
ghost use Rattle.std.specs.Prelude.{◌≡◌, ◌≤◌, MatchResult, false, length};
ghost use Rattle.k_outside.specs.Outside.{AppendsFront, HasCause, PutsAll};
ghost use Rattle.k_report.specs.Putting.{NextOf, PutOn, link_text};
ghost use Rattle.k_report.specs.Waits.{wait_text, waits_text};

use crate::words::{push_link, wait_line};
use k_carrier::{Link, WaitMark};
use k_outside::{Failed, Sink, put_all};
use k_text::Line;

/// Puts the line of each wait.
pub(crate) fn put_waits<K: Sink>(
    marks: &[WaitMark],
    links: &[Link],
    sink: &mut K,
) -> Result<(), Failed>
    ensures bytes { PutsAll (K.held sink.old) (K.held sink.new) result (waits_text marks.now links.now) }
    ensures cause { HasCause (K.faults sink.old) (K.faults sink.new) result }
{
    for (index, mark) in marks.iter().enumerate() {
        put_wait(index as u64, mark, links, sink)?;
    }
    Ok(())
}

// The first piece goes up to the first link, and each further link is a piece. The line feed ends the last one.
fn put_wait<K: Sink>(
    index: u64,
    mark: &WaitMark,
    links: &[Link],
    sink: &mut K,
) -> Result<(), Failed>
    ensures bytes { PutsAll (K.held sink.old) (K.held sink.new) result (wait_text index mark.now links.now) }
    ensures cause { HasCause (K.faults sink.old) (K.faults sink.new) result }
{
    let mut line = wait_line(mark);
    let mut left = mark.count;
    let mut from = mark.first as usize;
    while left > 0 {
        match next_of(links, from, index) {
            None => left = 0,
            Some(at) => {
                put_link(&mut line, left < mark.count, &links[at], sink)?;
                left -= 1;
                from = at + 1;
            }
        }
    }
    line.end();
    put_all(sink, line.as_bytes())
}

// Appends a link to a line. One that has a link already is a piece, and is put before.
fn put_link<K: Sink>(
    line: &mut Line,
    is_piece: bool,
    link: &Link,
    sink: &mut K,
) -> Result<(), Failed>
    requires short { length line.old ≤ 127 }
    requires first { is_piece ≡ false → length line.old ≤ 90 }
    ensures bytes { MatchResult result (λ _. PutOn (K.held sink.old) (K.held sink.new) line.old (link_text link.now) line.new) (λ _. AppendsFront (K.held sink.old) (K.held sink.new) line.old) }
    ensures short { length line.new ≤ 127 }
    ensures cause { HasCause (K.faults sink.old) (K.faults sink.new) result }
{
    if is_piece {
        put_all(sink, line.as_bytes())?;
        *line = Line::new();
    }
    push_link(line, link);
    Ok(())
}

// Where the next link of a mark stands, from an index on.
fn next_of(links: &[Link], from: usize, index: u64) -> Option<usize>
    ensures { NextOf links.now from index result }
{
    let mut at = from;
    while at < links.len() {
        if links[at].mark == index {
            return Some(at);
        }
        at += 1;
    }
    None
}
