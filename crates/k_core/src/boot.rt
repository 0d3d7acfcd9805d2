// The words, slots and carriers with which a run begins.
ghost use Rattle.std.specs.Prelude.{◌≡◌, ◌==◌, ◌≤◌, IfOk, length, map, take};
ghost use Rattle.std.specs.List.{All, flat_map, list_any, range_with_len};
ghost use Rattle.k_ids.specs.ContextWords.{IsContextWord};
ghost use Rattle.k_ids.specs.StateWords.{IsStateWord};
ghost use Rattle.k_script.specs.Limits.{started_by};
ghost use Rattle.k_carrier.specs.Seen.{IsPlaced, new_carrier};
ghost use Rattle.k_world.specs.Boot.{boot_context, boot_home, boot_numbers, boot_ready, boot_resting};
ghost use Rattle.k_world.specs.Boot.{boot_slots, boot_state, boot_words, has_start, has_thread, is_carriers};
ghost use Rattle.k_world.specs.Boot.{places, table_numbers};
ghost use Rattle.k_store.specs.Stores.{IsSlotPlaced, slot_in, slots_in};
ghost use Rattle.k_logs.specs.Seen.{carriers_in};

use k_carrier::Carrier;
use k_context::Context;
use k_ids::{ContextWord, LockWord, NoMemory, StateWord, ThreadId};
use k_locks::{Goods, Numbers};
use k_ready::ReadyLists;
use k_script::{AtLine, AtWhat, Script};
use k_senders::Senders;
use k_store::Slot;
use std::alloc::{AllocError, Global};

/// How many numbers have words and slots.
const NUMBERS: u8 = 74;

/// The number of the table lock.
const TABLE: u8 = 72;

/// The number of the ready lock.
const READY: u8 = 73;

/// The version of a number's first thread, and of a carrier's context.
const FIRST: u32 = 1;

/// The words of each number: state, mail, lock and context.
pub(crate) fn words_of(alloc: Global, script: &Script, carriers: u8) -> Result<Vec<u64>, AllocError>
    ensures { IfOk result (λ v. v.items ≡
        flat_map (boot_words script.now carriers) (range_with_len 0 places)) }
{
    let mut words = Vec::new(alloc);
    for number in 0..NUMBERS {
        words.push(state_of(script, number).bits())?;
        words.push(0)?;
        words.push(LockWord::Free.bits())?;
        words.push(context_of(script, carriers, number).bits())?;
    }
    Ok(words)
}

/// The slots of each number: what its lock guards, and its context.
pub(crate) fn slots_of(alloc: Global, script: &Script, carriers: u8) -> Result<Vec<Slot>, NoMemory>
    requires { carriers ≤ 8 }
    ensures slots { IfOk result (λ v. slots_in script.now v.items ≡ flat_map (boot_slots script.now carriers)
        (range_with_len 0 places)) }
    ensures size { IfOk result (λ v. length v.items ≡ 148) }
    ensures placed { IfOk result (λ v. All (IsSlotPlaced script.now) v.items) }
{
    let mut slots = Vec::new(alloc);
    for number in 0..NUMBERS {
        slots.push(home_at(alloc, script, number)?)?;
        slots.push(resting_at(script, carriers, number))?;
    }
    Ok(slots)
}

/// The carriers: none has a goal, and none has anything in its hand.
pub(crate) fn carriers_of(
    alloc: Global,
    script: &Script,
    carriers: u8,
) -> Result<Vec<Carrier>, NoMemory>
    requires { carriers ≤ 8 }
    ensures carriers { IfOk result (λ v. carriers_in script.now v.items ≡ map
        (λ c. new_carrier c script.now.table) (range_with_len 0 carriers)) }
    ensures placed { IfOk result (λ v. All (IsPlaced script.now) v.items) }
{
    let mut list = Vec::new(alloc);
    let table = script.table();
    script.holds();
    for number in 0..carriers {
        list.push(Carrier::of(number, table))?;
    }
    Ok(list)
}

/// Of each number of the table, whether its first thread waits for its start.
pub(crate) fn unstarted_of(alloc: Global, script: &Script) -> Result<Vec<bool>, AllocError>
    ensures { IfOk result (λ v. v.items ≡ map (has_start script.now) (table_numbers script.now)) }
{
    let mut unstarted = Vec::new(alloc);
    for number in 0..script.table() {
        unstarted.push(has_start(script, number))?;
    }
    Ok(unstarted)
}

// A thread of the script runs. Any other number is dead, with the version that it had last.
fn state_of(script: &Script, number: u8) -> StateWord
    ensures word { result ≡ boot_state script.now number }
    ensures whole { IsStateWord result }
{
    script.holds();
    match script.threads().get(usize::from(number)) {
        Some(thread) => StateWord::created(FIRST, thread.priority),
        None => match script.versions().get(usize::from(number)) {
            Some(version) => StateWord::dead(*version),
            None => StateWord::dead(0),
        },
    }
}

fn has_thread(script: &Script, number: u8) -> bool
    ensures { result ≡ has_thread script.now number }
{
    usize::from(number) < script.threads().len()
}

// Whether it is the number of a carrier's own context.
fn is_carriers(script: &Script, carriers: u8, number: u8) -> bool
    ensures { result ≡ is_carriers script.now carriers number }
{
    script.table() <= number && number - script.table() < carriers
}

// Threads and carriers have contexts, which hold no lock.
fn context_of(script: &Script, carriers: u8, number: u8) -> ContextWord
    ensures word { result ≡ boot_context script.now carriers number }
    ensures whole { IsContextWord result }
{
    if has_thread(script, number) || is_carriers(script, carriers, number) {
        ContextWord::Clean { version: FIRST }
    } else {
        ContextWord::Empty
    }
}

// What the lock of a number guards.
fn home_at(alloc: Global, script: &Script, number: u8) -> Result<Slot, NoMemory>
    ensures home { IfOk result (λ s. slot_in script.now s ≡ boot_home script.now number) }
    ensures placed { IfOk result (IsSlotPlaced script.now) }
{
    script.holds();
    let goods = match number {
        TABLE => Goods::Numbers(numbers_of(script)),
        READY => Goods::Ready(ready_of(alloc, script)?),
        _ if number < script.table() => Goods::Senders(Senders::opened(alloc, script.table())?),
        _ => return Ok(Slot::Away),
    };
    Ok(Slot::Guarded(goods))
}

// The context of a number.
fn resting_at(script: &Script, carriers: u8, number: u8) -> Slot
    requires { carriers ≤ 8 }
    ensures slot { slot_in script.now result ≡ boot_resting script.now carriers number }
    ensures placed { IsSlotPlaced script.now result }
{
    script.holds();
    if let Some(thread) = script.threads().get(usize::from(number)) {
        let version = FIRST;
        let id = ThreadId { number, version };
        return Slot::Resting(Context::of_thread(id, thread.program, thread.priority));
    }
    if is_carriers(script, carriers, number) {
        return Slot::Resting(Context::of_carrier(number - script.table()));
    }
    Slot::Away
}

// The numbers, of which the first ones have the script's threads.
fn numbers_of(script: &Script) -> Numbers
    ensures { result ≡ boot_numbers script.now }
{
    script.holds();
    let mut numbers = Numbers {
        versions: versions_of(script),
        present: 0,
        count: script.table(),
    };
    let threads = script.threads().len() as u8;
    for number in 0..threads {
        numbers = numbers.with_thread(number);
    }
    numbers
}

// The versions that the numbers had last.
fn versions_of(script: &Script) -> [u32; 64]
    ensures size { length result ≡ 64 }
    ensures versions { take script.now.table result ≡ script.now.aged }
{
    script.holds();
    let mut versions = [0; 64];
    let aged = script.versions();
    for (number, version) in aged.iter().enumerate() {
        versions[number] = *version;
    }
    versions
}

// The ready lists: the threads without a start line, in the order of their numbers.
fn ready_of(alloc: Global, script: &Script) -> Result<ReadyLists, NoMemory>
    ensures { IfOk result (λ r. r ≡ boot_ready script.now) }
{
    script.holds();
    let mut lists = ReadyLists::opened(alloc)?;
    let threads = script.threads();
    let count = threads.len() as u8;
    for number in 0..count {
        if !has_start(script, number) {
            lists.push(number, FIRST, threads[usize::from(number)].priority);
        }
    }
    Ok(lists)
}

// Whether a number's first thread waits for its start.
fn has_start(script: &Script, number: u8) -> bool
    ensures { result ≡ has_start script.now number }
{
    starts_any(script.at_lines(), number)
}

fn starts_any(lines: &[AtLine], number: u8) -> bool
    ensures { result ≡ list_any (λ a. list_any (λ t. t == number) (started_by a.what)) lines.now }
{
    lines.iter().any(|line| starts(line.what, number))
}

// Whether an event of the schedule is the start of this number's thread.
fn starts(what: AtWhat, number: u8) -> bool
    ensures { result ≡ list_any (λ t. t == number) (started_by what) }
{
    match what {
        AtWhat::Start(started) => started == number,
        AtWhat::Slice(_) => false,
    }
}
