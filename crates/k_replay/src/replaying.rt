// A history is replayed.
ghost use Rattle.std.specs.Prelude.{◌≡◌, ◌*◌, ◌+◌, ◌<◌, ◌^◌, ◌≤◌, IfOk, Ok, length};
ghost use Rattle.k_machine.specs.Machine.{IsInTable, state_of};
ghost use Rattle.k_model.specs.History.{IsReplay};
ghost use Rattle.k_model.specs.State.{KernelState};
ghost use Rattle.k_model.specs.Step.{step};
ghost use Rattle.k_room.specs.Histories.{Follows};
ghost use Rattle.k_script.specs.Plays.{opened_for};
ghost use Rattle.k_replay.specs.Reports.{IsReplies, finals_of};

use crate::finish::{finals, sorted_replies};
use k_ids::{Entry, Found, NoMemory, ReplyLine};
use k_machine::Machine;
use k_script::Script;
use std::alloc::Global;

/// What the replay of a history leaves: the replies by number, version and serial, and what each number of the table shows at
/// the end.
#[derive(Drop)]
pub struct Replayed {
    pub replies: Vec<ReplyLine>,
    pub finals: Vec<Found>,
}

/// The machine as the script opens it, with room for so many events.
fn opening(alloc: Global, script: &Script, events: usize) -> Result<Machine, NoMemory>
    requires { events < 2 ^ 32 }
    ensures kernel { IfOk result (λ m. state_of m.lists ≡ opened_for script.now) }
    ensures room { IfOk result (λ m. m.room ≡ events) }
{
    script.holds();
    let threads = script.threads().len() as u8;
    Machine::boot(alloc, script.versions(), threads, events)
}

/// Makes an entry's event, which may be made and has the entry's outcome.
fn make(machine: &mut Machine, entry: &Entry)
    requires room { 0 < machine.old.room }
    requires inside { IsInTable (state_of machine.old.lists).size entry.now.event }
    requires made { (next : KernelState) × (step (state_of machine.old.lists) entry.now.event ≡ Ok (next, entry.now.outcome)) }
    ensures made { step (state_of machine.old.lists) entry.now.event ≡ Ok (state_of machine.new.lists, entry.now.outcome) }
    ensures room { machine.new.room + 1 ≡ machine.old.room }
{
    match machine.step(entry.event) {
        Ok(_) => {}
        Err(_) => unreachable!(),
    }
}

/// The machine behind all of a history.
fn played(alloc: Global, script: &Script, entries: &[Entry]) -> Result<Machine, NoMemory>
    requires few { length entries.now < 2 ^ 32 }
    requires follows { (end : KernelState) × Follows script.now entries.now end }
    ensures { IfOk result (λ m. IsReplay (opened_for script.now) entries.now (state_of m.lists)) }
{
    script.holds();
    let mut machine = opening(alloc, script, entries.len())?;
    for entry in entries {
        make(&mut machine, entry);
    }
    Ok(machine)
}

/// Replays a legal history that plays the script: the replies and the final statuses of the state that it leaves.
///
/// Condition: it has fewer than 2^32 entries.
pub fn replay(alloc: Global, script: &Script, entries: &[Entry]) -> Result<Replayed, NoMemory>
    requires few { length entries.now < 2 ^ 32 }
    requires follows { (end : KernelState) × Follows script.now entries.now end }
    ensures replies { IfOk result (λ r. (end : KernelState) → IsReplay (opened_for script.now) entries.now end →
        IsReplies end r.replies.items) }
    ensures finals { IfOk result (λ r. (end : KernelState) → IsReplay (opened_for script.now) entries.now end →
        r.finals.items ≡ finals_of end) }
{
    let machine = played(alloc, script, entries)?;
    Ok(Replayed {
        replies: sorted_replies(alloc, &machine)?,
        finals: finals(alloc, &machine)?,
    })
}
