// What becomes of what a lock guards.
ghost use Rattle.std.specs.Prelude.{◌≡◌, ◌≤◌, length};
ghost use Rattle.k_threads.specs.Goods.{unlinked, unlisted, without_first};

use k_ids::ThreadId;
use k_ready::ReadyLists;
use k_senders::{Senders, who_of};

/// How many entries a queue has.
pub fn entries(senders: &Senders) -> u32
    ensures number { result ≡ length senders.now.entries }
    ensures few { result ≤ 64 }
{
    senders.holds();
    senders.len() as u32
}

/// A queue without its first entry.
#[tactic(auto, using(crate::proofs::Entries::first_stands, crate::proofs::Entries::without_rest, crate::proofs::Entries::nothing_rests))]
pub fn without_first(mut senders: Senders) -> Senders
    ensures { result ≡ without_first senders }
{
    if let Some(number) = senders.first() {
        senders.take_number(number);
    }
    senders
}

/// A queue without the entry of a thread, if it has one.
pub fn unlinked(mut senders: Senders, who: ThreadId) -> Senders
    ensures { result ≡ unlinked who senders }
{
    senders.unlink(who_of(who));
    senders
}

/// The ready lists without a thread, if it stands in one.
pub fn unlisted(mut ready: ReadyLists, who: ThreadId) -> ReadyLists
    ensures { result ≡ unlisted who ready }
{
    ready.holds();
    ready.remove(who.number, who.version);
    ready
}
