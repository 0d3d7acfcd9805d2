// Each section walked along its longest way, by answers made by hand: the step, the locks, the steps left and the event at each
// location.
ghost use Rattle.std.specs.Prelude.{◌≡◌, true};
ghost use Rattle.k_ids.specs.StateWords.{IsStateSpelling, state_word_of};
ghost use Rattle.k_locks.specs.Threads.{IsThread};
ghost use Rattle.k_locks.specs.Locks.{guards};
ghost use Rattle.k_locks.specs.Steps.{suits, suits_told};

mod receives;
mod sends;

use k_ids::{Message, NoMemory, StateWord, ThreadId};
use k_locks::{Answer, Goods, Lock, Point, Step, Told, Went, WordName};
use k_ready::ReadyLists;
use k_senders::{SenderEntry, Senders};
use std::alloc::Global;
use std::process::Abort;

/// A step as a test sees it. Of a queue that goes back it sees how many entries there are, and of ready lists the mask.
#[derive(Clone, Copy, Debug, PartialEq, Eq)]
enum Look {
    Load(WordName),
    Store(WordName, u64),
    Exchange(WordName, u64, u64),
    Acquire(Lock),
    Release(Lock, u64),
    Other,
}

/// What a section is told, or the goods that it gets.
#[derive(Clone, Copy)]
enum Given {
    Plain(Told),
    /// The lock is got, with an empty queue.
    Empty,
    /// The lock is got, with a queue in which thread 2.1 waits with 5 6, and then thread 3.1 with 7 8.
    Both,
    /// The ready lock is got, with empty lists.
    Lists,
}

/// A location as a table has it: its step, how many steps are left until the thread lock and the ready lock are released, or 0
/// of a lock that isn't held, what the section is told, how it goes on, and the event of the step.
#[derive(Clone, Copy)]
struct Row(Look, u32, u32, Given, Went, Option<Point>);

fn shown(step: &Step) -> Look {
    match step {
        Step::Load(word) => Look::Load(*word),
        Step::Store { word, value } => Look::Store(*word, *value),
        Step::Exchange { word, old, new } => Look::Exchange(*word, *old, *new),
        Step::Acquire(lock) => Look::Acquire(*lock),
        Step::Release { lock, goods } => Look::Release(*lock, size(goods)),
        Step::Place {
            id: _,
            program: _,
            priority: _,
        }
        | Step::Remove { id: _ } => Look::Other,
    }
}

fn size(goods: &Goods) -> u64 {
    match goods {
        Goods::Senders(queue) => queue.len() as u64,
        Goods::Ready(lists) => lists.mask(),
        Goods::Numbers(numbers) => u64::from(numbers.alive()),
    }
}

// Whether the goods are those of the lock.
fn belong(lock: &Lock, goods: &Goods) -> bool
    ensures { result ≡ true → guards lock.now goods.now ≡ true }
{
    match (lock, goods) {
        (Lock::Thread(_), Goods::Senders(_)) => true,
        (Lock::Ready, Goods::Ready(_)) => true,
        _ => false,
    }
}

// Whether the step can have the answer.
fn fits(step: &Step, answer: &Answer) -> bool
    ensures { result ≡ true → suits step.now answer.now ≡ true }
{
    match (step, answer) {
        (Step::Acquire(lock), Answer::Got(goods)) => belong(lock, goods),
        (_, Answer::Got(_)) => false,
        (_, Answer::Told(told)) => can_tell(step, *told),
    }
}

// Whether this can be told of the step.
fn can_tell(step: &Step, told: Told) -> bool
    ensures { result ≡ true → suits_told step.now told ≡ true }
{
    match (step, told) {
        (Step::Load(_), Told::Loaded(_)) => true,
        (Step::Store { word: _, value: _ }, Told::Stored) => true,
        (
            Step::Exchange {
                word: _,
                old: _,
                new: _,
            },
            Told::Won | Told::Lost { found: _ },
        ) => true,
        (Step::Acquire(_), Told::Owned { owner: _ }) => true,
        (Step::Release { lock: _, goods: _ }, Told::Released) => true,
        _ => false,
    }
}

// Whether the bits spell a word.
fn is_spelling(bits: u64) -> bool
    ensures { result ≡ true → IsStateSpelling bits }
{
    match StateWord::read(bits) {
        Some(_) => true,
        None => false,
    }
}

// Whether the bits spell the word of a thread.
fn is_thread(bits: u64) -> bool
    ensures spelled { result ≡ true → IsStateSpelling bits }
    ensures thread { result ≡ true → IsThread (state_word_of bits) }
{
    match StateWord::read(bits) {
        Some(word) => word.version > 0,
        None => false,
    }
}

// State words by hand. They are of a thread of version 1 with priority 20, and on unless said otherwise.
const DEAD: u64 = 0x0000_0004_0000_0000;

const RUN: u64 = 0x0500_0004_0000_0009;

const SENT: u64 = 0x0500_0004_0000_0049;

const PICKING: u64 = 0x0500_0004_0000_003B;

const FROM_0: u64 = 0x0500_0004_0000_400B;

const FROM_1: u64 = 0x0500_0004_0000_410B;

const TO_1: u64 = 0x0500_0004_0000_410A;

// The same word, off.
fn off(bits: u64) -> u64 {
    bits & !8
}

fn id(number: u8) -> ThreadId
    ensures { result ≡ record { number = number; version = 1 } }
{
    ThreadId { number, version: 1 }
}

// Locations at which no lock is held, or the thread lock alone.
fn load(word: WordName, left: u32, bits: u64) -> Row {
    let told = Given::Plain(Told::Loaded(bits));
    Row(Look::Load(word), left, 0, told, Went::On, None)
}

fn won(word: WordName, left: u32, old: u64, new: u64, point: Option<Point>) -> Row {
    let told = Given::Plain(Told::Won);
    Row(
        Look::Exchange(word, old, new),
        left,
        0,
        told,
        Went::On,
        point,
    )
}

fn lost(word: WordName, left: u32, old: u64, new: u64, found: u64) -> Row {
    let told = Given::Plain(Told::Lost { found });
    Row(
        Look::Exchange(word, old, new),
        left,
        0,
        told,
        Went::On,
        None,
    )
}

fn owned(lock: Lock, left: u32) -> Row {
    let told = Given::Plain(Told::Owned { owner: 3 });
    Row(Look::Acquire(lock), left, 0, told, Went::Again, None)
}

fn got(lock: Lock, left: u32, goods: Given) -> Row {
    Row(Look::Acquire(lock), left, 0, goods, Went::On, None)
}

// The release of the ready lists, with a thread of priority 20 in them.
fn pushed() -> Row {
    let told = Given::Plain(Told::Released);
    let went = Went::Pushed { priority: 20 };
    Row(Look::Release(Lock::Ready, 1 << 20), 2, 1, told, went, None)
}

fn release(number: u8, entries: u64, went: Went) -> Row {
    let told = Given::Plain(Told::Released);
    let step = Look::Release(Lock::Thread(number), entries);
    Row(step, 1, 0, told, went, None)
}

// The steps that are made once this row's answer has come.
fn counted(steps: u32, row: Row) -> u32 {
    if row.4 == Went::Again {
        steps
    } else {
        steps.saturating_add(1)
    }
}

// The locks that are held at a row, by rank.
fn locks(number: u8, row: Row) -> [Option<Lock>; 3] {
    let thread = if row.1 > 0 {
        Some(Lock::Thread(number))
    } else {
        None
    };
    let ready = if row.2 > 0 { Some(Lock::Ready) } else { None };
    [None, thread, ready]
}

fn both(alloc: Global) -> Result<Senders, NoMemory> {
    let mut queue = Senders::opened(alloc, 4)?;
    queue.push(SenderEntry::of(id(2), Message { low: 5, high: 6 }));
    queue.push(SenderEntry::of(id(3), Message { low: 7, high: 8 }));
    Ok(queue)
}

fn answer(alloc: Global, given: Given) -> Result<Answer, NoMemory> {
    Ok(match given {
        Given::Plain(told) => Answer::Told(told),
        Given::Empty => Answer::Got(Goods::Senders(Senders::opened(alloc, 4)?)),
        Given::Both => Answer::Got(Goods::Senders(both(alloc)?)),
        Given::Lists => Answer::Got(Goods::Ready(ReadyLists::opened(alloc)?)),
    })
}
