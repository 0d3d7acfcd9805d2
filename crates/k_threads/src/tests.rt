// A create and a destroy, walked along their longest ways by answers made by hand: the step, the steps left up to the release of
// the table lock, how the section goes on, and the event.
ghost use Rattle.std.specs.Prelude.{true, ℕ, ◌≡◌, ◌≤◌};
ghost use Rattle.k_ids.specs.StateWords.{IsPartner, IsStateSpelling, state_word_of};
ghost use Rattle.k_locks.specs.declared.steps.Answer.TheVariants as answer;
ghost use Rattle.k_locks.specs.Threads.{IsRunOf};
ghost use Rattle.k_ready.specs.Lists.{IsInNone};
ghost use Rattle.k_threads.specs.CreateTable as create;
ghost use Rattle.k_threads.specs.CreateTable.{CreateAt};
ghost use Rattle.k_threads.specs.DestroyTable as destroy;
ghost use Rattle.k_threads.specs.DestroyTable.{DestroyAt};

mod creates;
mod destroys;

use k_ids::{Act, Message, NoMemory, Outcome, Result4, State, StateWord, ThreadId};
use k_locks::{Answer, Goods, Lock, Numbers, Point, Step, Told, Went, WordName};
use k_ready::ReadyLists;
use k_senders::{SenderEntry, Senders};
use std::alloc::Global;

/// A step as a test sees it, without what goes back.
#[derive(Clone, Copy, Debug, PartialEq, Eq)]
enum Look {
    Load(u8),
    Exchange(u8, u64, u64),
    Acquire(Lock),
    Release(Lock),
    Place(ThreadId, u8, u8),
    Remove(ThreadId),
    Other,
}

/// What a section is given for an answer.
#[derive(Clone, Copy)]
enum Given {
    Told(Told),
    /// Four numbers with a thread each, but number 1, which had its seventh.
    Numbers,
    /// A queue in which thread 0.1 waits, or nobody.
    Queue { waits: bool },
    /// Empty ready lists.
    Lists,
}

/// A location as a table has it: its step, how many steps are left until the table lock is released, what the section is given,
/// how it goes on, and the event of the step.
#[derive(Clone, Copy)]
struct Row(Look, u32, Given, Went, Option<Point>);

fn shown(step: &Step) -> Look {
    match step {
        Step::Load(WordName::State(number)) => Look::Load(*number),
        Step::Exchange {
            word: WordName::State(number),
            old,
            new,
        } => Look::Exchange(*number, *old, *new),
        Step::Acquire(lock) => Look::Acquire(*lock),
        Step::Release { lock, goods: _ } => Look::Release(*lock),
        Step::Place {
            id,
            program,
            priority,
        } => Look::Place(*id, *program, *priority),
        Step::Remove { id } => Look::Remove(*id),
        _ => Look::Other,
    }
}

fn answered(alloc: Global, given: Given) -> Result<Answer, NoMemory> {
    Ok(match given {
        Given::Told(told) => Answer::Told(told),
        Given::Numbers => Answer::Got(Goods::Numbers(numbers())),
        Given::Queue { waits } => Answer::Got(Goods::Senders(queue(alloc, waits)?)),
        Given::Lists => Answer::Got(Goods::Ready(ReadyLists::opened(alloc)?)),
    })
}

fn numbers() -> Numbers {
    let mut versions = [1; 64];
    versions[1] = 7;
    Numbers {
        versions,
        present: 0b1101,
        count: 4,
    }
}

fn queue(alloc: Global, waits: bool) -> Result<Senders, NoMemory> {
    let mut queue = Senders::opened(alloc, 4)?;
    if waits {
        let message = Message { high: 0, low: 0 };
        queue.push(SenderEntry::of(id(0, 1), message));
    }
    Ok(queue)
}

fn id(number: u8, version: u32) -> ThreadId
    ensures { result ≡ record { number = number; version = version } }
{
    ThreadId { number, version }
}

/// The bits of a word of a thread of version 1 and priority 5.
fn spelled(on: bool, state: State) -> u64 {
    let word = StateWord {
        version: 1,
        priority: 5,
        on,
        state,
    };
    if word.is_state_word() { word.bits() } else { 0 }
}

/// One that runs with this result, and is on.
fn running(outcome: Result4) -> u64 {
    spelled(true, State::Run { result: outcome })
}

/// The word of a caller that runs.
#[tactic(auto, using(crate::proofs::Tested::own_word))]
fn own(caller: ThreadId) -> u64
    requires { IsPartner caller }
    ensures { IsRunOf caller result }
{
    StateWord::created(caller.version, 5).bits()
}

/// Whether any section can be given this: a loaded word is one of a number that has had a thread.
#[tactic(auto, using(crate::proofs::Tested::create_fits, crate::proofs::Tested::destroy_fits))]
fn is_fit(answer: &Answer) -> bool
    ensures create { result ≡ true → (p : CreateAt) → create.IsFit p answer.now }
    ensures destroy { result ≡ true → (p : DestroyAt) → destroy.IsFit p answer.now }
{
    match answer {
        Answer::Told(Told::Loaded(bits)) => is_thread_word(*bits),
        _ => true,
    }
}

#[tactic(auto, using(crate::proofs::Tested::spelled))]
fn is_thread_word(bits: u64) -> bool
    ensures { result ≡ true → IsStateSpelling bits × (1 ≤ (state_word_of bits).version) }
{
    match StateWord::read(bits) {
        Some(word) => 0 < word.version,
        None => false,
    }
}

/// Whether no thread stands in a list.
#[tactic(auto, using(crate::proofs::Tested::empty_lists))]
fn is_empty(lists: &ReadyLists) -> bool
    ensures { result ≡ true → (n : ℕ) → IsInNone n lists.now.lists }
{
    lists.holds();
    lists.mask() == 0
}

fn on(look: Look, left: u32, given: Given) -> Row {
    Row(look, left, given, Went::On, None)
}

/// An exchange that is won, with its event.
fn won(look: Look, left: u32, who: ThreadId, act: Act, outcome: Outcome) -> Row {
    let point = Point { who, act, outcome };
    Row(look, left, Given::Told(Told::Won), Went::On, Some(point))
}

const RELEASED: Given = Given::Told(Told::Released);

const TABLE: Look = Look::Acquire(Lock::Table);

const READY: Look = Look::Acquire(Lock::Ready);
