// Where the empty repeats of a program are passed over.
ghost use Rattle.std.specs.Prelude.{◌≡◌, ◌≤◌, ◌<◌, length};
ghost use Rattle.k_script.specs.Skips.{IsSkip, AreSkips, skip_in};

use crate::operation::Operation;

/// The place behind the empty repeats that begin at a place.
pub(crate) fn skip_from(skips: &[u16], place: u16) -> u16
    ensures { result ≡ skip_in skips.now place }
{
    match skips.get(usize::from(place)) {
        Some(skip) => *skip,
        None => place,
    }
}

/// The place behind the empty repeats that begin at a place, given those of the places behind it. A repeat is empty where
/// nothing but empty repeats stands between it and its again.
fn skip_at(operations: &[Operation], skips: &[u16], place: u16) -> u16
    requires short { length operations.now ≤ 4096 }
    requires skips { AreSkips operations.now skips.now }
    requires place { place < length operations.now }
    ensures { IsSkip operations.now place result }
{
    let Operation::Repeat { .. } = operations[usize::from(place)] else {
        return place;
    };
    let end = skip_from(skips, place + 1);
    match operations.get(usize::from(end)) {
        Some(Operation::Again) => skip_from(skips, end + 1),
        _ => place,
    }
}

/// Lets each place skip the empty repeats that begin there. It reads each operation once, from the last to the first.
pub(crate) fn close(operations: &[Operation], skips: &mut [u16])
    requires short { length operations.now ≤ 4096 }
    requires size { length skips.old ≡ length operations.now }
    requires skips { AreSkips operations.now skips.old }
    ensures { AreSkips operations.now skips.new }
{
    for place in (0..operations.len() as u16).rev() {
        skips[usize::from(place)] = skip_at(operations, skips, place);
    }
}
