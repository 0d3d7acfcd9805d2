// Whether owners and wants are the same.
ghost use Rattle.std.specs.Prelude.{◌≡◌};
ghost use Rattle.k_carrier.specs.Rules.{same_lock};
ghost use Rattle.k_world.specs.Marks.{same_owner, same_want};

use k_carrier::Want;
use k_context::Owner;
use k_locks::{Lock, is_same};

/// Whether it is the same thread, or the same carrier.
pub(crate) fn same_owner(a: Owner, b: Owner) -> bool
    ensures { result ≡ same_owner a b }
{
    match (a, b) {
        (Owner::Thread(a), Owner::Thread(b)) => is_same(a, b),
        (Owner::Carrier(a), Owner::Carrier(b)) => a == b,
        _ => false,
    }
}

/// Whether it is the same lock, or the same context.
pub(crate) fn same_want(a: Want, b: Want) -> bool
    ensures { result ≡ same_want a b }
{
    match (a, b) {
        (Want::Lock(a), Want::Lock(b)) => same_lock(a, b),
        (Want::Context(a), Want::Context(b)) => a == b,
        _ => false,
    }
}

fn same_lock(a: Lock, b: Lock) -> bool
    ensures { result ≡ same_lock a b }
{
    match (a, b) {
        (Lock::Table, Lock::Table) | (Lock::Ready, Lock::Ready) => true,
        (Lock::Thread(a), Lock::Thread(b)) => a == b,
        _ => false,
    }
}
