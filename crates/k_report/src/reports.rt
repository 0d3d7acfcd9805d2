// The report of a run.
ghost use Rattle.std.specs.Prelude.{◌≡◌, ◌++◌, codes, length};
ghost use Rattle.std.specs.List.{count_by};
ghost use Rattle.k_calls.specs.Calls.{is_helped};
ghost use Rattle.k_outside.specs.Outside.{HasCause, PutsAll};
ghost use Rattle.k_report.specs.Report.{calls_text, report_text, titled, total_text};
ghost use Rattle.k_report.specs.Waits.{waits_text};

use crate::totals::{Totals, helped};
use crate::waits::put_waits;
use k_calls::CallLine;
use k_carrier::{Link, StepMark, WaitMark};
use k_ids::{Entry, Found, ReplyLine};
use k_outside::{Failed, Sink, put_all};
use k_text::{Printed, put_each, put_line};

/// What a run leaves.
#[derive(Clone, Copy)]
pub struct RunParts<'a> {
    /// The events with their outcomes, in their order.
    pub history: &'a [Entry],
    /// The replies to the calls, by number, version and serial.
    pub replies: &'a [ReplyLine],
    /// The marks of steps, in the order in which they were made.
    pub steps: &'a [StepMark],
    /// The calls that made a step, by number, version and serial.
    pub calls: &'a [CallLine],
    /// The marks of waits, in the order in which they began.
    pub waits: &'a [WaitMark],
    /// The links of all waits, in the order in which they were found.
    pub links: &'a [Link],
    /// What each number of the table shows at the end, from number 0 on.
    pub finals: &'a [Found],
    /// How many atomic steps were made.
    pub made: u64,
}

/// Puts the report of a run: `history` and a line for each entry; `replies` and a line for each reply; where they are to be
/// shown, `calls` and a line for each call; `waits` and a line for each wait; a line for each number; and the totals.
///
/// Each line is one piece, but a wait's: that is one piece up to and with its first link, and each further link is a piece, of
/// which the line feed ends the last. Where a put takes a part of a piece, the rest is the next piece. After `Failed` a front of
/// the report was put. The time is linear in the lists, if the links of each wait stand close to each other.
pub fn report<K: Sink>(end: &RunParts<'_>, show: bool, sink: &mut K) -> Result<(), Failed>
    ensures bytes { PutsAll (K.held sink.old) (K.held sink.new) result (report_text show (record { history = end.now.history.now; replies = end.now.replies.now; steps = end.now.steps.now; calls = end.now.calls.now; waits = end.now.waits.now; links = end.now.links.now; finals = end.now.finals.now; made = end.now.made })) }
    ensures cause { HasCause (K.faults sink.old) (K.faults sink.new) result }
{
    put_titled(b"history\n", end.history, sink)?;
    put_titled(b"replies\n", end.replies, sink)?;
    put_calls(end.calls, show, sink)?;
    put_all_waits(end.waits, end.links, sink)?;
    put_each(sink, end.finals)?;
    put_total(end, sink)
}

/// Puts the last line of the report of a run alone: how many events and how many atomic steps it has, and how many of these were
/// made for another one than their owner. The line is one piece.
pub fn put_total<K: Sink>(end: &RunParts<'_>, sink: &mut K) -> Result<(), Failed>
    ensures bytes { PutsAll (K.held sink.old) (K.held sink.new) result (total_text (length end.now.history.now) end.now.made (count_by is_helped end.now.steps.now)) }
    ensures cause { HasCause (K.faults sink.old) (K.faults sink.new) result }
{
    let totals = Totals {
        events: end.history.len() as u64,
        steps: end.made,
        helped: helped(end.steps),
    };
    put_line(sink, &totals)
}

// A title's line, and a line for each item.
fn put_titled<K: Sink, T: Printed>(title: &[u8], items: &[T], sink: &mut K) -> Result<(), Failed>
    ensures bytes { PutsAll (K.held sink.old) (K.held sink.new) result (titled title.now T.text items.now) }
    ensures cause { HasCause (K.faults sink.old) (K.faults sink.new) result }
{
    put_all(sink, title)?;
    put_each(sink, items)
}

fn put_calls<K: Sink>(calls: &[CallLine], show: bool, sink: &mut K) -> Result<(), Failed>
    ensures bytes { PutsAll (K.held sink.old) (K.held sink.new) result (calls_text show calls.now) }
    ensures cause { HasCause (K.faults sink.old) (K.faults sink.new) result }
{
    if show {
        put_titled(b"calls\n", calls, sink)
    } else {
        Ok(())
    }
}

fn put_all_waits<K: Sink>(marks: &[WaitMark], links: &[Link], sink: &mut K) -> Result<(), Failed>
    ensures bytes { PutsAll (K.held sink.old) (K.held sink.new) result (codes "waits\n" ++ waits_text marks.now links.now) }
    ensures cause { HasCause (K.faults sink.old) (K.faults sink.new) result }
{
    put_all(sink, b"waits\n")?;
    put_waits(marks, links, sink)
}
