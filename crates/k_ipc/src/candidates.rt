// Whom a receive may take: the entries of its queue whose senders it admits, in their order.
ghost use Rattle.std.specs.Prelude.{if◌then◌else◌, ◌≡◌, ◌≤◌, IfSome, Some, true};
ghost use Rattle.k_model.specs.State.{admits};
ghost use Rattle.k_senders.specs.Entries.{number_of, sender_of};
ghost use Rattle.k_senders.specs.Queue.{entry_of, stands};
ghost use Rattle.k_ipc.specs.Candidates.{IsLink, admitted, first_admitted, linked, onward, past};

use k_ids::ThreadId;
use k_locks::admits;
use k_senders::{SenderEntry, Senders};

/// The first candidate of the queue.
pub fn first_candidate(queue: &Senders, from: Option<ThreadId>) -> Option<SenderEntry>
    ensures candidate { result ≡ first_admitted from queue.now.entries }
    ensures standing { IfSome result (λ e. entry_of (number_of e) queue.now.entries ≡ Some e) }
    ensures wanted { IfSome result (λ e. admits from (sender_of e) ≡ true) }
{
    search(queue, from, queue.first())
}

/// The first candidate after an entry.
pub fn next_candidate(
    queue: &Senders,
    from: Option<ThreadId>,
    entry: SenderEntry,
) -> Option<SenderEntry>
    requires { entry_of (number_of entry) queue.now.entries ≡ Some entry }
    ensures candidate { result ≡ first_admitted from (past (number_of entry) queue.now.entries) }
    ensures standing { IfSome result (λ e. entry_of (number_of e) queue.now.entries ≡ Some e) }
    ensures wanted { IfSome result (λ e. admits from (sender_of e) ≡ true) }
{
    queue.holds();
    search(queue, from, queue.after(entry.number()))
}

/// How many candidates the queue has.
pub fn count_all(queue: &Senders, from: Option<ThreadId>) -> u32
    ensures count { result ≡ admitted from queue.now.entries }
    ensures few { result ≤ 64 }
{
    count(queue, from, queue.first())
}

/// How many candidates the queue has from an entry on.
pub fn count_from(queue: &Senders, from: Option<ThreadId>, entry: SenderEntry) -> u32
    requires { entry_of (number_of entry) queue.now.entries ≡ Some entry }
    ensures count { result ≡ admitted from (onward (number_of entry) queue.now.entries) }
    ensures few { result ≤ 64 }
{
    count(queue, from, Some(entry.number()))
}

// The entry of a number.
fn entry_at(queue: &Senders, number: u8) -> SenderEntry
    requires { stands number queue.now.entries ≡ true }
    ensures { entry_of number queue.now.entries ≡ Some result }
{
    match queue.entry(number) {
        Some(entry) => entry,
        None => unreachable!(),
    }
}

// The first candidate from a link on.
fn search(queue: &Senders, from: Option<ThreadId>, start: Option<u8>) -> Option<SenderEntry>
    requires { IsLink start queue.now.entries }
    ensures candidate { result ≡ first_admitted from (linked start queue.now.entries) }
    ensures standing { IfSome result (λ e. entry_of (number_of e) queue.now.entries ≡ Some e) }
    ensures wanted { IfSome result (λ e. admits from (sender_of e) ≡ true) }
{
    queue.holds();
    let mut at = start;
    while let Some(number) = at {
        let entry = entry_at(queue, number);
        if admits(from, entry.sender()) {
            return Some(entry);
        }
        at = queue.after(number);
    }
    None
}

// How many candidates there are from a link on.
fn count(queue: &Senders, from: Option<ThreadId>, start: Option<u8>) -> u32
    requires { IsLink start queue.now.entries }
    ensures count { result ≡ admitted from (linked start queue.now.entries) }
    ensures few { result ≤ 64 }
{
    queue.holds();
    let mut at = start;
    let mut count = 0;
    while let Some(number) = at {
        let sender = entry_at(queue, number).sender();
        count += one_if(admits(from, sender));
        at = queue.after(number);
    }
    count
}

fn one_if(holds: bool) -> u32
    ensures { result ≡ (if holds then 1 else 0) }
{
    if holds { 1 } else { 0 }
}
