// Judging a history.
ghost use Rattle.std.specs.Prelude.{◌≡◌, ◌≤◌, ◌<◌, ◌↔◌, IfNone, IfOk, IfSome, IsTrue, Some, length, true};
ghost use Rattle.k_ids.specs.declared.histories.Entry.{Entry};
ghost use Rattle.k_machine.specs.Machine.{state_of};
ghost use Rattle.k_script.specs.Place.{IsPlace, position_in};
ghost use Rattle.k_script.specs.Plays.{moved, opened_for, phase_next};
ghost use Rattle.k_positions.specs.Positions.{ArePlaces, IsActOf, moved_by, positions_in, reply_to_last};
ghost use Rattle.k_history.specs.Inside.{all_inside, entry_threads};
ghost use Rattle.k_history.specs.Lines.{Tells};
ghost use Rattle.k_history.specs.Judging.{GoesOn, IsJudged, IsLast, LineGoesOn, StopsAt};
ghost use Rattle.k_history.specs.Verdicts.{IsVerdict};

use crate::inside::has_all;
use crate::lines::read_line;
use crate::verdict::Verdict;
use k_ids::{Act, Entry, Event, NoMemory, Outcome, Phase, ThreadId};
use k_lines::first_line;
use k_machine::Machine;
use k_positions::{move_on, starts};
use k_script::{Position, Script, next_call};
use std::alloc::Global;

/// The entry of a line that names only numbers of a table of this size.
fn read_inside(line: &[u8], size: u8) -> Option<Entry>
    ensures tells { IfSome result (Tells size line.now) }
    ensures found { (e : Entry) → Tells size line.now e → result ≡ Some e }
{
    let entry = read_line(line)?;
    if has_all(size, &entry) {
        Some(entry)
    } else {
        None
    }
}

/// What a thread's program gives next.
fn due_call(machine: &Machine, script: &Script, position: &mut Position, who: ThreadId) -> Phase
    requires inside { who.number < (state_of machine.now.lists).size }
    requires placed { IsPlace script.now position.old }
    ensures phase { result ≡ phase_next script.now.version (position_in script.now position.old) (reply_to_last (state_of machine.now.lists) who) }
    ensures moved { position_in script.now position.new ≡ moved (position_in script.now position.old) (reply_to_last (state_of machine.now.lists) who) }
    ensures placed { IsPlace script.now position.new }
{
    let serial = machine.serial(who.number);
    next_call(script, position, machine.reply(who, serial))
}

/// Whether an event is the next call of its thread's program, or no call. A call takes the thread's position on.
fn is_due(machine: &Machine, script: &Script, position: &mut Position, event: Event) -> bool
    requires inside { event.who.number < (state_of machine.now.lists).size }
    requires placed { IsPlace script.now position.old }
    ensures due { IsTrue result ↔ IsActOf (phase_next script.now.version (position_in script.now position.old) (reply_to_last (state_of machine.now.lists) event.who)) event.act }
    ensures moved { position_in script.now position.new ≡ moved_by event.act (position_in script.now position.old) (reply_to_last (state_of machine.now.lists) event.who) }
    ensures placed { IsPlace script.now position.new }
{
    match event.act {
        Act::Call { phase } => phase == due_call(machine, script, position, event.who),
        Act::Gone | Act::Pick => true,
    }
}

fn is_same(a: Outcome, b: Outcome) -> bool
    ensures { IsTrue result ↔ (a ≡ b) }
{
    a == b
}

/// Makes an entry's event on the machine, and answers why the history doesn't go on with it, if it doesn't.
fn judge_entry(
    machine: &mut Machine,
    script: &Script,
    positions: &mut [Position],
    index: u32,
    entry: &Entry,
) -> Option<Verdict>
    requires size { (state_of machine.old.lists).size ≡ script.now.table }
    requires room { 0 < machine.old.room }
    requires inside { all_inside script.now.table (entry_threads entry.now) ≡ true }
    requires places { ArePlaces script.now positions.old }
    ensures goes { IfNone result (GoesOn script.now (state_of machine.old.lists) (positions_in script.now positions.old) entry.now (state_of machine.new.lists) (positions_in script.now positions.new)) }
    ensures stops { IfSome result (StopsAt script.now (state_of machine.old.lists) (positions_in script.now positions.old) index entry.now) }
    ensures size { (state_of machine.new.lists).size ≡ script.now.table }
    ensures places { ArePlaces script.now positions.new }
{
    let event = entry.event;
    let mut position = positions[usize::from(event.who.number)];
    let due = is_due(machine, script, &mut position, event);
    let outcome = match machine.step(event) {
        Ok(outcome) => outcome,
        Err(shown) => {
            return Some(Verdict::Illegal {
                index,
                found: shown.found,
                serial: shown.serial,
            });
        }
    };
    if !due {
        return Some(Verdict::Strange { index });
    }
    if !is_same(entry.outcome, outcome) {
        return Some(Verdict::Differs { index, outcome });
    }
    move_on(script, positions, entry, position);
    None
}

/// Judges a line.
fn judge_line(
    machine: &mut Machine,
    script: &Script,
    positions: &mut [Position],
    index: u32,
    line: &[u8],
) -> Option<Verdict>
    requires size { (state_of machine.old.lists).size ≡ script.now.table }
    requires room { 0 < machine.old.room }
    requires places { ArePlaces script.now positions.old }
    requires few { index < 135266304 }
    ensures goes { IfNone result (LineGoesOn script.now (state_of machine.old.lists) (positions_in script.now positions.old) line.now (state_of machine.new.lists) (positions_in script.now positions.new)) }
    ensures stops { IfSome result (IsJudged script.now (state_of machine.old.lists) (positions_in script.now positions.old) index line.now) }
    ensures size { (state_of machine.new.lists).size ≡ script.now.table }
    ensures places { ArePlaces script.now positions.new }
{
    match read_inside(line, script.table()) {
        None => Some(Verdict::Unreadable { line: index + 1 }),
        Some(entry) => judge_entry(machine, script, positions, index, &entry),
    }
}

/// The machine as the script opens it.
fn opening(alloc: Global, script: &Script) -> Result<Machine, NoMemory>
    ensures { IfOk result (λ m. state_of m.lists ≡ opened_for script.now) }
{
    script.holds();
    Machine::boot(alloc, script.versions(), script.threads().len() as u8, 0)
}

/// What is said where no line is at fault.
fn last_verdict(machine: &Machine, events: u32) -> Verdict
    ensures { IsLast (state_of machine.now.lists) events result }
{
    match machine.idle() {
        Some(who) => Verdict::Unfinished { who },
        None => Verdict::Legal { events },
    }
}

/// Judges a history of a script, given as the bytes of its lines. Each line ends with a line feed, which the last may lack; an
/// empty line is none of a history's. No bytes are the empty history.
///
/// It says [`Verdict::Legal`] exactly where the lines are a legal, playing, finished history of the script, and each other
/// verdict exactly where its reason holds (specs/Verdicts.antt: `IsVerdict`, of which there is one). There are at most
/// 135,266,304 bytes. Its time is linear in the bytes and in the script's weight, since a call is looked for behind the work
/// that its program does before it. It keeps one position for each number of the table, and the replies of the history; the
/// entries themselves are not kept.
pub fn check(alloc: Global, script: &Script, bytes: &[u8]) -> Result<Verdict, NoMemory>
    requires { length bytes.now ≤ 135266304 }
    ensures { IfOk result (IsVerdict script.now bytes.now) }
{
    script.holds();
    let mut machine = opening(alloc, script)?;
    let mut started = starts(alloc, script)?;
    let positions = started.as_mut_slice();
    let mut rest = bytes;
    let mut index = 0;
    while !rest.is_empty() {
        let (line, after) = first_line(rest);
        machine.reserve()?;
        if let Some(verdict) = judge_line(&mut machine, script, positions, index, line) {
            return Ok(verdict);
        }
        index += 1;
        rest = after;
    }
    Ok(last_verdict(&machine, index))
}
