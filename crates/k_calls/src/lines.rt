// The lines of a run's calls.
ghost use Rattle.std.specs.Prelude.{◌≡◌, [], IfOk, OnOk, IsPermutation};
ghost use Rattle.std.specs.List.{fold};
ghost use Rattle.std.specs.List.Sorted.{IsSorted};
ghost use Rattle.k_calls.specs.Calls.{IsCalls, call_order, is_helped};
ghost use Rattle.k_calls.specs.Counting.{added, both, counted, same_call};

use k_carrier::StepMark;
use k_context::Owner;
use k_ids::{NoMemory, ThreadId};
use k_locks::is_same;
use std::alloc::Global;

/// How many steps a call of a thread made.
#[derive(Clone, Copy, Debug, PartialEq, Eq)]
pub struct CallLine {
    pub id: ThreadId,
    /// The call's serial number, from 1.
    pub serial: u32,
    /// How many steps it made.
    pub steps: u32,
    /// How many of them were made for another one than the caller.
    pub helped: u32,
}

/// The calls of threads that have a mark, by number, version and serial, each with the count of its marks, and of those whose
/// runner isn't the owner. Counts stand still at 4,294,967,295. The marks are taken in any order; where those of a call stand
/// together, the time is linear in the marks, but for the sort of the calls.
pub fn calls(alloc: Global, marks: &[StepMark]) -> Result<Vec<CallLine>, NoMemory>
    ensures { IfOk result (λ v. IsCalls marks.now v.items) }
{
    let mut parts = counted(alloc, marks)?;
    sort(&mut parts);
    joined(alloc, parts.as_slice())
}

// The marks that stand side by side and are of one call, in one line.
fn counted(alloc: Global, marks: &[StepMark]) -> Result<Vec<CallLine>, NoMemory>
    ensures { IfOk result (λ v. v.items ≡ fold counted [] marks.now) }
{
    let mut parts = Vec::new(alloc);
    for mark in marks {
        count(&mut parts, *mark)?;
    }
    Ok(parts)
}

// By number, version and serial.
fn sort(lines: &mut Vec<CallLine>)
    ensures same { IsPermutation lines.old.items lines.new.items }
    ensures ordered { IsSorted call_order lines.new.items }
{
    lines.sort_unstable_by_key(|line| (line.id.number, line.id.version, line.serial));
}

// The lines that stand side by side and are of one call, in one line.
fn joined(alloc: Global, parts: &[CallLine]) -> Result<Vec<CallLine>, NoMemory>
    ensures { IfOk result (λ v. v.items ≡ fold added [] parts.now) }
{
    let mut lines = Vec::new(alloc);
    for part in parts {
        add(&mut lines, *part)?;
    }
    Ok(lines)
}

// A mark of a thread's step is counted.
fn count(lines: &mut Vec<CallLine>, mark: StepMark) -> Result<(), NoMemory>
    ensures { OnOk result (lines.new.items ≡ counted lines.old.items mark) }
{
    match mark.owner {
        Owner::Carrier(_) => Ok(()),
        Owner::Thread(id) => {
            let line = CallLine {
                id,
                serial: mark.serial,
                steps: 1,
                helped: u32::from(is_helped(mark)),
            };
            add(lines, line)
        }
    }
}

// The steps of a line are added to those of the last line, if it is of the same call. If not, the line is a new one.
fn add(lines: &mut Vec<CallLine>, line: CallLine) -> Result<(), NoMemory>
    ensures { OnOk result (lines.new.items ≡ added lines.old.items line) }
{
    let len = lines.len();
    if len > 0 {
        let last = lines[len - 1];
        if is_same_call(last, line) {
            lines[len - 1] = both(last, line);
            return Ok(());
        }
    }
    lines.push(line)?;
    Ok(())
}

fn is_same_call(a: CallLine, b: CallLine) -> bool
    ensures { result ≡ same_call a b }
{
    is_same(a.id, b.id) && a.serial == b.serial
}

fn both(a: CallLine, b: CallLine) -> CallLine
    ensures { result ≡ both a b }
{
    CallLine {
        id: a.id,
        serial: a.serial,
        steps: a.steps.saturating_add(b.steps),
        helped: a.helped.saturating_add(b.helped),
    }
}

/// Whether the step was made for another one than its owner.
pub fn is_helped(mark: StepMark) -> bool
    ensures { result ≡ is_helped mark }
{
    match (mark.runner, mark.owner) {
        (Owner::Thread(a), Owner::Thread(b)) => !is_same(a, b),
        (Owner::Carrier(a), Owner::Carrier(b)) => a != b,
        _ => true,
    }
}
