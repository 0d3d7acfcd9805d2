// Laws of the definitions.
ghost use Rattle.std.specs.Prelude.{ℕ, ◌≡◌, ◌<◌, ◌^◌, List, length};
ghost use Rattle.k_carrier.specs.declared.marks.Link.{Link};
ghost use Rattle.k_carrier.specs.declared.marks.WaitMark.{WaitMark};
ghost use Rattle.k_world.specs.Lawful.{IsLawfulWait, links_of};
ghost use Rattle.k_report.specs.Waits.{chain_of};

/// The chain that is printed of a wait in a lawful log is all its links.
pub fn a_wait_shows_its_links()
    ensures { (links : List Link) (k : ℕ) (m : WaitMark) → IsLawfulWait links k m → length (links_of k links) < 2 ^ 32 → chain_of k m links ≡ links_of k links }
{}
