// Which numbers a line names.
ghost use Rattle.std.specs.Prelude.{◌≡◌, nat_lt};
ghost use Rattle.k_history.specs.Inside.{act_threads, all_inside, entry_threads, found_threads, outcome_threads, phase_threads, status_threads};

use k_ids::{Act, Entry, Found, Outcome, Phase, Status, ThreadId};

fn has(size: u8, id: ThreadId) -> bool
    ensures { result ≡ nat_lt id.number size }
{
    id.number < size
}

fn has_status(size: u8, status: Status) -> bool
    ensures { result ≡ all_inside size (status_threads status) }
{
    match status {
        Status::Sending { to } => has(size, to),
        Status::Receiving { from: Some(from) } => has(size, from),
        _ => true,
    }
}

fn has_found(size: u8, found: Found) -> bool
    ensures { result ≡ all_inside size (found_threads found) }
{
    has(size, found.id) && has_status(size, found.status)
}

fn has_phase(size: u8, phase: Phase) -> bool
    ensures { result ≡ all_inside size (phase_threads phase) }
{
    match phase {
        Phase::Send { to, .. } | Phase::Reply { to, .. } => has(size, to),
        Phase::Receive {
            from: Some(from),
            ..
        } => has(size, from),
        Phase::Destroy { who } => has(size, who),
        _ => true,
    }
}

fn has_act(size: u8, act: Act) -> bool
    ensures { result ≡ all_inside size (act_threads act) }
{
    match act {
        Act::Call { phase } => has_phase(size, phase),
        _ => true,
    }
}

fn has_outcome(size: u8, outcome: Outcome) -> bool
    ensures { result ≡ all_inside size (outcome_threads outcome) }
{
    match outcome {
        Outcome::Took { from, .. } => has(size, from),
        Outcome::Made { id } => has(size, id),
        Outcome::Absent { found } | Outcome::Busy { found } => has_found(size, found),
        _ => true,
    }
}

/// Whether a table of this size has all numbers that an entry's line names.
pub fn has_all(size: u8, entry: &Entry) -> bool
    ensures { result ≡ all_inside size (entry_threads entry.now) }
{
    has(size, entry.event.who) && has_act(size, entry.event.act) && has_outcome(size, entry.outcome)
}
