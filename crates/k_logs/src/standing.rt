// The marks that stand: of each carrier the index of one, or none.
ghost use Rattle.std.specs.Prelude.{◌≡◌, ◌<◌, ◌≤◌, IfSome, length};
ghost use Rattle.k_script.specs.Script as scripts;
ghost use Rattle.k_world.specs.Marks.{all_got, broken, counted_in, still_waits, with_got};
ghost use Rattle.k_logs.specs.Seen.{AreInside, carriers_in};
ghost use Rattle.std.specs.Prelude.{map};

use crate::same::same_owner;
use k_carrier::{Carrier, WaitMark};
use k_context::Owner;
use k_locks::one_more;

/// Of a carrier that is interrupted no mark stands.
pub(crate) fn break_interrupted(standing: &mut [Option<u64>], carriers: &[Carrier])
    requires { length carriers.now ≤ length standing.old }
    ensures { (script : scripts.Script) → standing.new ≡ broken (carriers_in script carriers.now) standing.old }
{
    for (c, carrier) in carriers.iter().enumerate() {
        if carrier.is_interrupted() {
            standing[c] = None;
        }
    }
}

/// Whichever carrier made the step of this requester, the marks of its waits are got, and stand no more.
pub(crate) fn end_got(standing: &mut [Option<u64>], marks: &mut [WaitMark], requester: Owner)
    requires { AreInside standing.old marks.old }
    ensures standing { standing.new ≡ map (still_waits requester marks.old) standing.old }
    ensures marks { marks.new ≡ all_got requester standing.old marks.old }
{
    for place in standing.iter_mut() {
        *place = end_if_got(*place, marks, requester);
    }
}

// The same for one mark: the index, if it still stands.
fn end_if_got(place: Option<u64>, marks: &mut [WaitMark], requester: Owner) -> Option<u64>
    requires { IfSome place (λ k. k < length marks.old) }
    ensures place { result ≡ still_waits requester marks.old place }
    ensures marks { marks.new ≡ with_got requester marks.old place }
{
    match place {
        None => None,
        Some(index) => {
            let mark = &mut marks[index as usize];
            if !same_owner(mark.requester, requester) {
                return place;
            }
            mark.got = true;
            None
        }
    }
}

/// A step is counted in the mark that stands, if one does.
pub(crate) fn count_in(place: Option<u64>, marks: &mut [WaitMark])
    requires { IfSome place (λ k. k < length marks.old) }
    ensures { marks.new ≡ counted_in place marks.old }
{
    if let Some(index) = place {
        let mark = &mut marks[index as usize];
        mark.used = one_more(mark.used);
    }
}
