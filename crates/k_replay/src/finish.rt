// What is reported of a machine at its end.
ghost use Rattle.std.specs.Prelude.{◌≡◌, IfOk};
ghost use Rattle.k_machine.specs.Machine.{state_of};
ghost use Rattle.k_replay.specs.Reports.{finals_of, IsReplies};

use k_ids::{Found, ReplyLine};
use k_machine::Machine;
use std::alloc::{AllocError, Global};

/// What each number of the table shows, from 0.
pub(crate) fn finals(alloc: Global, machine: &Machine) -> Result<Vec<Found>, AllocError>
    ensures { IfOk result (λ v. v.items ≡ finals_of (state_of machine.now.lists)) }
{
    let size = machine.size() as u8;
    let mut finals = Vec::new(alloc);
    for number in 0..size {
        finals.push(machine.status(number))?;
    }
    Ok(finals)
}

/// The replies by number, version and serial.
pub(crate) fn sorted_replies(alloc: Global, machine: &Machine) -> Result<Vec<ReplyLine>, AllocError>
    ensures { IfOk result (λ v. IsReplies (state_of machine.now.lists) v.items) }
{
    let mut replies = Vec::from_slice(alloc, machine.replies())?;
    replies.sort_by_key(|r| (r.id.number, r.id.version, r.serial))?;
    Ok(replies)
}
