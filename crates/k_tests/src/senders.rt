// A worked queue, and worked entries.
ghost use Rattle.k_senders.specs.Entries.{number_of};
ghost use Rattle.std.specs.Prelude.{◌<◌, ◌≡◌};

use k_ids::{Message, NoMemory, ThreadId};
use k_links::Row;
use k_senders::{SenderEntry, Senders, who_of};

// The entry of a thread's first version.
fn entry(number: u8) -> SenderEntry
    requires { number < 64 }
    ensures { number_of result ≡ number }
{
    let who = ThreadId { number, version: 1 };
    SenderEntry::of(who, Message { low: 7, high: 0 })
}

fn row(entry: Option<SenderEntry>, prior: Option<u8>, next: Option<u8>) -> Row<SenderEntry> {
    Row { entry, prior, next }
}

#[test]
fn neighbours_are_linked(rt: HostRuntime) -> Result<(), NoMemory> {
    let mut queue = Senders::opened(rt.alloc(), 3)?;
    queue.push(entry(0));
    queue.push(entry(1));
    queue.push(entry(2));
    assert!(rt; queue.unlink(65));
    assert_eq!(rt; queue.first(), Some(0));
    assert_eq!(rt; queue.after(0), Some(2));
    assert_eq!(rt; queue.after(2), None);
    assert!(rt; !queue.unlink(65));
    assert!(rt; !queue.unlink(129));
    let rows = [
        row(Some(entry(0)), None, Some(2)),
        row(None, None, None),
        row(Some(entry(2)), Some(0), None),
    ];
    assert_eq!(rt; queue.rows(), rows.as_slice());
    assert_eq!(rt;
        (queue.at(1), queue.entry(1), queue.len()),
        (entry(2), None, 2)
    );
    assert_eq!(rt; queue.take(0), entry(0));
    assert_eq!(rt; queue.first(), Some(2));
    assert_eq!(rt; queue.take_number(2), entry(2));
    assert_eq!(rt; queue.len(), 0);
    Ok(())
}

#[test]
fn an_entry_has_its_bits(rt: HostRuntime) {
    let who = ThreadId {
        number: 9,
        version: 5,
    };
    let message = Message { low: 3, high: 2 };
    let entry = SenderEntry::of(who, message);
    assert_eq!(rt; (entry.who, entry.message), (329, 8_589_934_595));
    assert_eq!(rt;
        (entry.sender(), entry.message(), entry.number()),
        (who, message, 9)
    );
    assert_eq!(rt; who_of(who), 329);
}
