// The top call.
ghost use Rattle.std.specs.Prelude.{◌≡◌, ◌≢◌, ◌≤◌, ◌⊎◌, ℕ, map, string_bytes, Some};
ghost use Rattle.k_outside.specs.Outside.{Appends, AppendsFront, HasCause, PutsAll, Rose};
ghost use Rattle.k_report.specs.Report.{report_text};
ghost use Rattle.k_history.specs.Verdicts.{verdict_text};
ghost use Rattle.k_history.specs.declared.verdict.Verdict.TheVariants as verdict;
ghost use Rattle.fiasco_run.specs.Calls.{call_of};
ghost use Rattle.fiasco_run.specs.Exits.{exit_text};
ghost use Rattle.fiasco_run.specs.Due.{ComesTo};
ghost use Rattle.fiasco_run.specs.Served.{IsCalm, IsExact, IsPut, IsPutText, IsServed, TakesFor};
ghost use Rattle.fiasco_run.specs.Headline.{ReportsBig, ReportsLegal, ReportsRun};
ghost use Rattle.fiasco_run.specs.Reported.{big_text, parts_in, reported, summary_text};
ghost use Rattle.fiasco_run.specs.declared.call.Call.TheVariants as call;

use crate::call::{Call, call_of};
use crate::check::check_source;
use crate::due::{Due, Ran};
use crate::exit::{Exit, put_line};
use crate::run::{run_big, run_source};
use itoa::Buffer;
use k_dispatch::RunEnd;
use k_history::Verdict;
use k_outside::{Failed, Sink, Source, put_all};
use k_report::{RunParts, put_total, report};
use k_text::Line;
use std::alloc::Global;

/// What is reported of a run.
fn parts_of(end: &RunEnd) -> RunParts<'_>
    ensures { parts_in result ≡ reported end.now }
{
    RunParts {
        history: &end.history,
        replies: &end.replies,
        steps: &end.steps,
        calls: &end.calls,
        waits: &end.waits,
        links: &end.links,
        finals: &end.finals,
        made: end.made,
    }
}

/// Puts the report of a run, with the steps of each call where its script asks for them.
fn put_report<K: Sink>(ran: &Ran, sink: &mut K) -> Exit
    ensures put { IsPutText result Exit.Done (report_text ran.now.script.show_steps (reported ran.now.end)) (K.held sink.old) (K.held sink.new) (K.faults sink.old) (K.faults sink.new) }
    ensures later { K.faults sink.old ≤ K.faults sink.new }
{
    match report(&parts_of(&ran.end), ran.script.show_steps(), sink) {
        Ok(()) => Exit::Done,
        Err(_) => Exit::WriteFault,
    }
}

/// `big N`
fn big_line(number: u64) -> Line
    ensures { result ≡ big_text number }
{
    let mut buffer = Buffer::new();
    let mut line = Line::new();
    line.push(b"big");
    line.push_word(buffer.format(number).as_bytes());
    line.end();
    line
}

fn put_totals<K: Sink>(number: u64, end: &RunEnd, sink: &mut K) -> Result<(), Failed>
    ensures bytes { PutsAll (K.held sink.old) (K.held sink.new) result (summary_text number (reported end.now)) }
    ensures cause { HasCause (K.faults sink.old) (K.faults sink.new) result }
{
    put_all(sink, big_line(number).as_bytes())?;
    put_total(&parts_of(end), sink)
}

/// Puts the summary of the run of a large script: a line with its number, and the totals.
fn put_summary<K: Sink>(number: u64, end: &RunEnd, sink: &mut K) -> Exit
    ensures put { IsPutText result Exit.Done (summary_text number (reported end.now)) (K.held sink.old) (K.held sink.new) (K.faults sink.old) (K.faults sink.new) }
    ensures later { K.faults sink.old ≤ K.faults sink.new }
{
    match put_totals(number, end, sink) {
        Ok(()) => Exit::Done,
        Err(_) => Exit::WriteFault,
    }
}

/// Puts what is due, and answers its status.
fn put_due<K: Sink>(due: &Due, sink: &mut K) -> Exit
    ensures put { IsPut result due.now (K.held sink.old) (K.held sink.new) (K.faults sink.old) (K.faults sink.new) }
    ensures later { K.faults sink.old ≤ K.faults sink.new }
{
    match due {
        Due::Report(ran) => put_report(ran, sink),
        Due::Legal(events) => {
            let verdict = Verdict::Legal { events: *events };
            put_line(Exit::Done, &verdict.line(), sink)
        }
        Due::Summary(number, end) => put_summary(*number, end, sink),
        Due::Status(exit) => exit.put(sink),
    }
}

/// What is due by the words and the source.
fn due<S: Source>(alloc: Global, words: &[String], source: &mut S) -> Due
    ensures cause { ComesTo (call_of (map string_bytes words.now)) (S.left source.old) (S.faults source.old) (S.faults source.new) result }
    ensures takes { TakesFor (call_of (map string_bytes words.now)) result (S.left source.old) (S.left source.new) }
    ensures calm { IsCalm result (S.faults source.old) (S.faults source.new) }
    ensures later { S.faults source.old ≤ S.faults source.new }
{
    match call_of(words) {
        None => Due::Status(Exit::Usage),
        Some(Call::Run) => match run_source(alloc, source) {
            Ok(ran) => Due::Report(ran),
            Err(exit) => Due::Status(exit),
        },
        Some(Call::Check) => match check_source(alloc, source) {
            Ok(events) => Due::Legal(events),
            Err(exit) => Due::Status(exit),
        },
        Some(Call::Big(number)) => match run_big(alloc, number) {
            Ok(end) => Due::Summary(number, end),
            Err(_) => Due::Status(Exit::NoMemory),
        },
    }
}

/// Serves the words over a source and a sink. `run` reads a script from the source to its end, runs its schedule, and puts the
/// report of the run into the sink. `check` reads a script, a line that is `--`, and the lines of a history, and puts the verdict
/// on the history. `big N` reads nothing; it runs the generated script of the number N, and puts the number and the totals. Every
/// status other than `Done` has a text of its own, but a fault of the sink, after which a front was put of the text that was due.
/// Where there are too many bytes, the source is read up to the first byte that makes it certain, or to its end where none does.
///
/// The causes are tried in this order: words that are not served, a fault of the source, too many bytes, the first bad line,
/// a script that is too long, want of memory, a fault of the sink. Want of memory while reading stands where it comes. A source
/// or sink that failed isn't asked again, but for the text of a read fault.
pub fn top<S: Source, K: Sink>(
    alloc: Global,
    words: &[String],
    source: &mut S,
    sink: &mut K,
) -> Exit
    // What each call says when it is done.
    ensures run { call_of (map string_bytes words.now) ≡ Some call.Run → result ≡ Exit.Done → ReportsRun (S.left source.old) (K.held sink.old) (K.held sink.new) }
    ensures check { call_of (map string_bytes words.now) ≡ Some call.Check → result ≡ Exit.Done → ReportsLegal (S.left source.old) (K.held sink.old) (K.held sink.new) }
    ensures big { (number : ℕ) → call_of (map string_bytes words.now) ≡ Some (call.Big number) → result ≡ Exit.Done → ReportsBig number (K.held sink.old) (K.held sink.new) }

    // The whole call: every status with its cause, what was taken, and what was put.
    ensures served { IsServed (call_of (map string_bytes words.now)) result (record { given = S.left source.old; left = S.left source.new; before = S.faults source.old; now = S.faults source.new }) (record { held = K.held sink.old; holds = K.held sink.new; before = K.faults sink.old; now = K.faults sink.new }) }

    // Exactly where: the status is the one that the bytes call for, unless there was no memory or the outside failed.
    ensures exact { IsExact (call_of (map string_bytes words.now)) result (S.left source.old) (Rose (S.faults source.old) (S.faults source.new)) (Rose (K.faults sink.old) (K.faults sink.new)) }
    // It is done only where neither the source nor the sink failed.
    ensures done { result ≡ Exit.Done → (S.faults source.new ≡ S.faults source.old) × (K.faults sink.new ≡ K.faults sink.old) }
    ensures later { (S.faults source.old ≤ S.faults source.new) × (K.faults sink.old ≤ K.faults sink.new) }
{
    let due = due(alloc, words, source);
    put_due(&due, sink)
}
