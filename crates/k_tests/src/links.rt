// A worked list, and each call beside a plain vector.
ghost use Rattle.k_links.specs.Listed.{entry_of, stands};
ghost use Rattle.std.specs.Prelude.{OnOk, true, ◌<◌, ◌≡◌};

use k_ids::{NoMemory, ThreadId};
use k_links::{Links, Numbered, Row};
use std::alloc::AllocError;

fn id(number: u8, version: u32) -> ThreadId
    ensures { result.number ≡ number }
{
    ThreadId { number, version }
}

fn row(entry: Option<ThreadId>, prior: Option<u8>, next: Option<u8>) -> Row<ThreadId> {
    Row { entry, prior, next }
}

#[test]
fn neighbours_are_linked(rt: HostRuntime) -> Result<(), NoMemory> {
    let mut links = Links::opened(rt.alloc(), 3)?;
    links.push(id(1, 7));
    links.push(id(2, 8));
    links.push_first(id(0, 9));
    assert_eq!(rt; links.take_number(1), id(1, 7));
    assert_eq!(rt; links.first(), Some(0));
    assert_eq!(rt; links.after(0), Some(2));
    assert_eq!(rt; links.after(2), None);
    assert_eq!(rt;
        (links.entry(2), links.entry(1), links.entry(3)),
        (Some(id(2, 8)), None, None)
    );
    let rows = [
        row(Some(id(0, 9)), None, Some(2)),
        row(None, None, None),
        row(Some(id(2, 8)), Some(0), None),
    ];
    assert_eq!(rt; links.rows(), rows.as_slice());
    assert_eq!(rt; links.len(), 2);
    Ok(())
}
