// The steps of a destroy.
ghost use Rattle.std.specs.Prelude.{◌≡◌, ◌<◌, true};
ghost use Rattle.k_ids.specs.declared.state_word.StateWord.{StateWord};
ghost use Rattle.k_ids.specs.StateWords.{state_bits};
ghost use Rattle.k_ready.specs.Lists.{IsInNone};
ghost use Rattle.k_locks.specs.Hands.{Hand, no_lists, no_queue, pushed};
ghost use Rattle.k_locks.specs.Threads.{IsThread};
ghost use Rattle.k_threads.specs.DestroyTable.{CanPush, IsSoundCall, IsSoundLocation, IsSoundLocked, IsSoundVictim, IsSoundVisit, Locked, Outside, Victim, Visit, asked_location, asked_locked, asked_victim, asked_visit, at_of, can_ask, hand_of, next_of};
ghost use Rattle.k_threads.specs.Words.{freed_word, thread_at};

use crate::destroy::{
    DestroyCall, DestroyLocation, DestroyLocked, DestroyOutside, DestroyPushing, DestroyRelease,
    DestroyReturned, DestroyVictim, DestroyVisit,
};
use crate::goods::{unlinked, unlisted};
use crate::words::{dead_bits, freed_bits};
use k_ids::StateWord;
use k_locks::{Goods, Lock, Numbers, Step, WordName};
use k_ready::ReadyLists;
use k_senders::Senders;

impl DestroyLocation {
    // The step of the location, and what is left of the section.
    pub(crate) fn asked(self, call: DestroyCall) -> (Step, DestroyLocation)
        requires open { can_ask self ≡ true }
        requires call { IsSoundCall call }
        requires sound { IsSoundLocation call self }
        requires room { CanPush call (hand_of self) (at_of self) }
        ensures step { (own : StateWord) → result.0 ≡ next_of call own (hand_of self) (at_of self) }
        ensures left { result.1 ≡ asked_location self }
        ensures sound { IsSoundLocation call result.1 }
    {
        match self {
            DestroyLocation::Outside(at) => (outside_step(call, at), DestroyLocation::Outside(at)),
            DestroyLocation::Locked(at, numbers) => locked_step(call, at, numbers),
            DestroyLocation::Victim(at, numbers, queue) => victim_step(call, at, numbers, queue),
            DestroyLocation::Visit(at, numbers, queue) => visit_step(call, at, numbers, queue),
            DestroyLocation::UnlistVictim(numbers, lists) => {
                let left = DestroyReturned::Unlisted(numbers);
                (
                    release_ready(unlisted(lists, call.who)),
                    DestroyLocation::Returned(left),
                )
            }
            DestroyLocation::Pushing(at, numbers, queue, lists) => {
                let step = match at {
                    DestroyPushing::PushSender(sender, seen) => push(sender, &seen, lists),
                    DestroyPushing::PushVisited(visited, seen) => push(visited, &seen, lists),
                };
                let left = DestroyReturned::Pushed(at, numbers, queue);
                (step, DestroyLocation::Returned(left))
            }
            DestroyLocation::Returned(_) => unreachable!(),
        }
    }
}

fn outside_step(call: DestroyCall, at: DestroyOutside) -> Step
    ensures { (own : StateWord) (h : Hand) → result ≡ next_of call own h (Outside at) }
{
    match at {
        DestroyOutside::AcquireTable => Step::Acquire(Lock::Table),
        DestroyOutside::LoadOwn | DestroyOutside::Ended(_) => Step::Load(WordName::State(
            call.caller.number,
        )),
    }
}

// A release takes the thread numbers along.
fn locked_step(call: DestroyCall, at: DestroyLocked, numbers: Numbers) -> (Step, DestroyLocation)
    requires call { IsSoundCall call }
    requires sound { IsSoundLocked call at }
    ensures step { (own : StateWord) → result.0 ≡ next_of call own (record { numbers = numbers; queue = no_queue; lists = no_lists }) (Locked at) }
    ensures left { result.1 ≡ asked_locked at numbers }
    ensures sound { IsSoundLocation call result.1 }
{
    let step = match at {
        DestroyLocked::LoadCaller => Step::Load(WordName::State(call.caller.number)),
        DestroyLocked::AcquireVictimLock => Step::Acquire(Lock::Thread(call.who.number)),
        DestroyLocked::AcquireReadyForVictim => Step::Acquire(Lock::Ready),
        DestroyLocked::RemoveContext => Step::Remove { id: call.who },
        DestroyLocked::AcquireVisitedLock(visited) => Step::Acquire(Lock::Thread(visited)),
        DestroyLocked::Release(end) => {
            let left = DestroyReturned::Numbers(end);
            return (release(call, end, numbers), DestroyLocation::Returned(left));
        }
    };
    (step, DestroyLocation::Locked(at, numbers))
}

// The release of the thread numbers, without the victim's where it was killed.
fn release(call: DestroyCall, end: DestroyRelease, numbers: Numbers) -> Step
    requires { IsSoundCall call }
    ensures { (own : StateWord) → result ≡ next_of call own (record { numbers = numbers; queue = no_queue; lists = no_lists }) (Locked (DestroyLocked.Release end)) }
{
    let numbers = match end {
        DestroyRelease::Killed => numbers.without_thread(call.who.number),
        DestroyRelease::Absent(_) | DestroyRelease::Dead => numbers,
    };
    Step::Release {
        lock: Lock::Table,
        goods: Goods::Numbers(numbers),
    }
}

// A release takes the victim's queue along.
fn victim_step(
    call: DestroyCall,
    at: DestroyVictim,
    numbers: Numbers,
    queue: Senders,
) -> (Step, DestroyLocation)
    requires call { IsSoundCall call }
    requires sound { IsSoundVictim at queue }
    ensures step { (own : StateWord) → result.0 ≡ next_of call own (record { numbers = numbers; queue = queue; lists = no_lists }) (Victim at) }
    ensures left { result.1 ≡ asked_victim at numbers queue }
    ensures sound { IsSoundLocation call result.1 }
{
    let step = match at {
        DestroyVictim::LoadVictim => Step::Load(WordName::State(call.who.number)),
        DestroyVictim::CommitKill(seen) => Step::Exchange {
            word: WordName::State(call.who.number),
            old: seen.bits(),
            new: dead_bits(call.who.version),
        },
        DestroyVictim::LoadSender(sender) => Step::Load(WordName::State(sender)),
        DestroyVictim::FreeSender(sender, seen) => freeing_step(sender, &seen),
        DestroyVictim::AcquireReadyForSender(_, _) => Step::Acquire(Lock::Ready),
        DestroyVictim::ReleaseVictimLock => {
            let left = DestroyReturned::VictimLock(numbers);
            let step = release_thread(call.who.number, queue);
            return (step, DestroyLocation::Returned(left));
        }
        DestroyVictim::ReleaseVictimLockAbsent(found) => {
            let left = DestroyReturned::VictimLockAbsent(found, numbers);
            let step = release_thread(call.who.number, queue);
            return (step, DestroyLocation::Returned(left));
        }
    };
    (step, DestroyLocation::Victim(at, numbers, queue))
}

// A release takes the queue of the visited number along, without the victim's entry.
fn visit_step(
    call: DestroyCall,
    at: DestroyVisit,
    numbers: Numbers,
    queue: Senders,
) -> (Step, DestroyLocation)
    requires sound { IsSoundVisit call at }
    ensures step { (own : StateWord) → result.0 ≡ next_of call own (record { numbers = numbers; queue = queue; lists = no_lists }) (Visit at) }
    ensures left { result.1 ≡ asked_visit at numbers queue }
    ensures sound { IsSoundLocation call result.1 }
{
    let step = match at {
        DestroyVisit::LoadVisited(visited) => Step::Load(WordName::State(visited)),
        DestroyVisit::FreeVisited(visited, seen) => freeing_step(visited, &seen),
        DestroyVisit::AcquireReadyForVisited(_, _) => Step::Acquire(Lock::Ready),
        DestroyVisit::ReleaseVisitedLock(visited) => {
            let left = DestroyReturned::VisitedLock(visited, numbers);
            let step = release_thread(visited, unlinked(queue, call.who));
            return (step, DestroyLocation::Returned(left));
        }
    };
    (step, DestroyLocation::Visit(at, numbers, queue))
}

// The exchange that frees a thread.
fn freeing_step(number: u8, seen: &StateWord) -> Step
    requires { IsThread seen.now }
    ensures { result ≡ Step.Exchange (WordName.State number) (state_bits seen.now) (state_bits (freed_word seen.now)) }
{
    Step::Exchange {
        word: WordName::State(number),
        old: seen.bits(),
        new: freed_bits(seen),
    }
}

// The release of the ready lists, with a freed thread at the end of the list of its priority.
fn push(number: u8, seen: &StateWord, mut lists: ReadyLists) -> Step
    requires number { number < 64 }
    requires seen { IsThread seen.now }
    requires room { IsInNone number lists.lists }
    ensures { result ≡ Step.Release Lock.Ready (Goods.Ready (pushed (thread_at number seen.now) seen.now.priority lists)) }
{
    lists.push(number, seen.version, seen.priority);
    release_ready(lists)
}

fn release_thread(number: u8, queue: Senders) -> Step
    ensures { result ≡ Step.Release (Lock.Thread number) (Goods.Senders queue) }
{
    Step::Release {
        lock: Lock::Thread(number),
        goods: Goods::Senders(queue),
    }
}

fn release_ready(lists: ReadyLists) -> Step
    ensures { result ≡ Step.Release Lock.Ready (Goods.Ready lists) }
{
    Step::Release {
        lock: Lock::Ready,
        goods: Goods::Ready(lists),
    }
}
