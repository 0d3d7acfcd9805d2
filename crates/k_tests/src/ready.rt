// Worked lists, and each call beside a plain vector for each priority.
ghost use Rattle.std.specs.Prelude.{◌<◌, ◌≡◌};

use k_ids::{NoMemory, ThreadId};
use k_ready::ReadyLists;
use std::alloc::AllocError;

// Appends a thread whose number stands in no list. The answer is whether it did.
fn added(ready: &mut ReadyLists, id: ThreadId, priority: u8, at_front: bool) -> bool
    requires number { id.number < 64 }
    requires priority { priority < 64 }
{
    if ready.priority_of(id.number).is_some() {
        return false;
    }
    if at_front {
        ready.push_first(id.number, id.version, priority);
    } else {
        ready.push(id.number, id.version, priority);
    }
    true
}

fn id(number: u8, version: u32) -> ThreadId
    ensures { result.number ≡ number }
{
    ThreadId { number, version }
}

#[test]
fn the_highest_comes_first(rt: HostRuntime) -> Result<(), NoMemory> {
    let mut ready = ReadyLists::opened(rt.alloc())?;
    assert_eq!(rt; ready.pop_highest(), None);
    assert_eq!(rt; (ready.mask(), ready.running()), (0, 0));
    assert!(rt; added(&mut ready, id(5, 1), 63, false));
    assert!(rt; added(&mut ready, id(6, 2), 0, false));
    assert!(rt; added(&mut ready, id(7, 3), 63, false));
    assert!(rt; added(&mut ready, id(8, 4), 63, true));
    assert_eq!(rt; ready.mask(), 9_223_372_036_854_775_809);
    assert!(rt; !ready.remove(7, 4));
    assert!(rt; ready.remove(7, 3));
    assert!(rt; !ready.remove(7, 3));
    assert_eq!(rt; ready.pop_highest(), Some((8, 4, 63)));
    assert_eq!(rt; ready.pop_highest(), Some((5, 1, 63)));
    assert_eq!(rt; ready.mask(), 1);
    assert_eq!(rt; ready.pop_highest(), Some((6, 2, 0)));
    assert_eq!(rt; ready.mask(), 0);
    ready.set_running(3);
    assert_eq!(rt; ready.running(), 3);
    Ok(())
}

// The first entry of the highest priority that has one, and the mask of the priorities.
fn highest(plain: &[(u8, ThreadId)]) -> (Option<usize>, u64) {
    let mut best: Option<(usize, u8)> = None;
    let mut mask: u64 = 0;
    for (at, entry) in plain.iter().enumerate() {
        if entry.0 < 64 {
            mask |= 1 << entry.0;
        }
        match best {
            Some(found) if found.1 >= entry.0 => {}
            _ => best = Some((at, entry.0)),
        }
    }
    match best {
        Some(found) => (Some(found.0), mask),
        None => (None, mask),
    }
}

// The entry at a place, taken out.
fn taken(plain: &mut Vec<(u8, ThreadId)>, at: Option<usize>) -> Option<(u8, u32, u8)> {
    match at {
        Some(at) if at < plain.len() => {
            let entry = plain.remove(at);
            Some((entry.1.number, entry.1.version, entry.0))
        }
        _ => None,
    }
}

// Makes one call on ready lists and on a vector of priorities and threads. The answer is whether both answer alike.
fn make(
    ready: &mut ReadyLists,
    plain: &mut Vec<(u8, ThreadId)>,
    call: u32,
) -> Result<bool, AllocError> {
    let who = id((call / 64 % 64) as u8, call / 4096 % 2);
    let priority = (call / 8192 % 8 * 9) as u8;
    match call % 5 {
        0 => {
            let (at, mask) = highest(plain);
            Ok(ready.mask() == mask && ready.pop_highest() == taken(plain, at))
        }
        1 => {
            let at = plain.iter().position(|e| e.1 == who);
            Ok(ready.remove(who.number, who.version) == taken(plain, at).is_some())
        }
        2 => {
            let is_new = !plain.iter().any(|e| e.1.number == who.number);
            if is_new {
                plain.insert(0, (priority, who))?;
            }
            Ok(added(ready, who, priority, true) == is_new)
        }
        _ => {
            let is_new = !plain.iter().any(|e| e.1.number == who.number);
            if is_new {
                plain.push((priority, who))?;
            }
            Ok(added(ready, who, priority, false) == is_new)
        }
    }
}

#[test]
fn calls_agree_with_a_plain_vector(rt: HostRuntime) -> Result<(), NoMemory> {
    let mut ready = ReadyLists::opened(rt.alloc())?;
    let mut plain = Vec::new(rt.alloc());
    let mut call: u32 = 1;
    for _ in 0..2000 {
        call = call.wrapping_mul(1_664_525).wrapping_add(1_013_904_223);
        assert!(rt; make(&mut ready, &mut plain, call / 256)?);
    }
    for _ in 0..64 {
        let (at, mask) = highest(&plain);
        assert_eq!(rt; ready.mask(), mask);
        assert_eq!(rt; ready.pop_highest(), taken(&mut plain, at));
    }
    assert_eq!(rt; ready.pop_highest(), None);
    Ok(())
}
