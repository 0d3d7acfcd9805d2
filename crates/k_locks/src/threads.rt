// Threads by their ids.
ghost use Rattle.std.specs.Prelude.{◌≡◌};
ghost use Rattle.k_model.specs.State.{admits, same_id};

use k_ids::ThreadId;

/// Whether it is the same thread.
pub fn is_same(a: ThreadId, b: ThreadId) -> bool
    ensures { result ≡ same_id a b }
{
    a.number == b.number && a.version == b.version
}

/// Whether one that receives from this thread, or from any where none is named, wants this sender.
pub fn admits(from: Option<ThreadId>, who: ThreadId) -> bool
    ensures { result ≡ admits from who }
{
    match from {
        None => true,
        Some(from) => is_same(from, who),
    }
}
