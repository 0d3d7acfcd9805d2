// The links of a wait.
ghost use Rattle.std.specs.Prelude.{◌≡◌};
ghost use Rattle.k_carrier.specs.Running.{holder_of};
ghost use Rattle.k_context.specs.Contexts.{ContextSeen};
ghost use Rattle.k_world.specs.Marks.{is_alike, is_linked, link_of};

use crate::same::{same_owner, same_want};
use k_carrier::{Holder, Link, Want};

/// The link of who holds up a want to the mark of this index.
pub(crate) fn link_of(mark: u64, holder: Holder, wants: Want) -> Link
    ensures link { (v : ContextSeen) → holder ≡ holder_of v wants → result ≡ link_of mark v wants }
    ensures mark { result.mark ≡ mark }
{
    Link {
        mark,
        owner: holder.owner,
        serial: holder.serial,
        wants,
        left: holder.left,
    }
}

/// Whether two links are of the same mark, owner and want.
fn is_alike(a: &Link, b: &Link) -> bool
    ensures { result ≡ is_alike a.now b.now }
{
    a.mark == b.mark && same_owner(a.owner, b.owner) && same_want(a.wants, b.wants)
}

/// Whether one of these links is like it.
pub(crate) fn is_linked(links: &[Link], link: &Link) -> bool
    ensures { result ≡ is_linked link.now links.now }
{
    links.iter().any(|one| is_alike(one, link))
}
