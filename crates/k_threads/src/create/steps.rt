// The steps of a create.
ghost use Rattle.std.specs.Prelude.{◌≡◌, ◌<◌, true};
ghost use Rattle.k_ids.specs.declared.state_word.StateWord.{StateWord};
ghost use Rattle.k_ready.specs.Lists.{IsInNone};
ghost use Rattle.k_locks.specs.Hands.{Hand, no_lists, no_queue};
ghost use Rattle.k_locks.specs.Numbers.{ThreadNumbers};
ghost use Rattle.k_threads.specs.CreateTable.{CanPush, IsSoundLocation, IsSoundLocked, IsSoundRelease, Locked, Outside, PushCreated, asked_location, at_of, can_ask, hand_of, next_of};

use crate::create::{CreateCall, CreateLocation, CreateLocked, CreateOutside, CreateRelease};
use crate::words::{created_bits, dead_bits};
use k_ids::ThreadId;
use k_locks::{Goods, Lock, Numbers, Step, WordName};
use k_ready::ReadyLists;

impl CreateLocation {
    // The step of the location, and what is left of the section.
    pub(crate) fn asked(self, call: CreateCall) -> (Step, CreateLocation)
        requires open { can_ask self ≡ true }
        requires priority { call.priority < 64 }
        requires sound { IsSoundLocation self }
        requires room { CanPush call (hand_of self) (at_of self) }
        ensures step { (own : StateWord) → result.0 ≡ next_of call own (hand_of self) (at_of self) }
        ensures left { result.1 ≡ asked_location self }
        ensures sound { IsSoundLocation result.1 }
    {
        match self {
            CreateLocation::Outside(at) => (outside_step(call, at), CreateLocation::Outside(at)),
            CreateLocation::Locked(at, numbers) => locked_step(call, at, numbers),
            CreateLocation::PushCreated(id, numbers, lists) => {
                (
                    pushing_step(call, id, lists),
                    CreateLocation::ListsReturned(id, numbers),
                )
            }
            CreateLocation::ListsReturned(_, _) | CreateLocation::NumbersReturned(_) =>
                unreachable!(),
        }
    }
}

fn outside_step(call: CreateCall, at: CreateOutside) -> Step
    ensures { (own : StateWord) (h : Hand) → result ≡ next_of call own h (Outside at) }
{
    match at {
        CreateOutside::AcquireTable => Step::Acquire(Lock::Table),
        CreateOutside::Ended(_) => Step::Load(WordName::State(call.caller.number)),
    }
}

// A release takes the thread numbers along.
fn locked_step(call: CreateCall, at: CreateLocked, numbers: Numbers) -> (Step, CreateLocation)
    requires priority { call.priority < 64 }
    requires sound { IsSoundLocked at numbers }
    ensures step { (own : StateWord) → result.0 ≡ next_of call own (record { numbers = numbers; queue = no_queue; lists = no_lists }) (Locked at) }
    ensures left { result.1 ≡ asked_location (CreateLocation.Locked at numbers) }
    ensures sound { IsSoundLocation result.1 }
{
    let step = match at {
        CreateLocked::LoadCaller => Step::Load(WordName::State(call.caller.number)),
        CreateLocked::PlaceContext(id) => Step::Place {
            id,
            program: call.program,
            priority: call.priority,
        },
        CreateLocked::CommitCreate(id) => Step::Exchange {
            word: WordName::State(id.number),
            old: dead_bits(id.version - 1),
            new: created_bits(id.version, call.priority),
        },
        CreateLocked::AcquireReady(_) => Step::Acquire(Lock::Ready),
        CreateLocked::Release(end) => {
            return (release(end, numbers), CreateLocation::NumbersReturned(end));
        }
    };
    (step, CreateLocation::Locked(at, numbers))
}

// The release of the thread numbers, with the new thread's where one was made.
fn release(end: CreateRelease, numbers: Numbers) -> Step
    requires { IsSoundRelease end numbers }
    ensures { (call : CreateCall) (own : StateWord) → result ≡ next_of call own (record { numbers = numbers; queue = no_queue; lists = no_lists }) (Locked (CreateLocked.Release end)) }
{
    let numbers = match end {
        CreateRelease::Made(id) => numbers.with_thread(id.number),
        CreateRelease::Full { .. } | CreateRelease::Dead => numbers,
    };
    Step::Release {
        lock: Lock::Table,
        goods: Goods::Numbers(numbers),
    }
}

// The release of the ready lists, with the new thread at the end of the list of its priority.
fn pushing_step(call: CreateCall, id: ThreadId, lists: ReadyLists) -> Step
    requires priority { call.priority < 64 }
    requires number { id.number < 64 }
    requires room { IsInNone id.number lists.lists }
    ensures { (own : StateWord) (numbers : ThreadNumbers) → result ≡ next_of call own (record { numbers = numbers; queue = no_queue; lists = lists }) (PushCreated id) }
{
    let mut lists = lists;
    lists.push(id.number, id.version, call.priority);
    Step::Release {
        lock: Lock::Ready,
        goods: Goods::Ready(lists),
    }
}
