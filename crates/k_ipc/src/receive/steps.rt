// The steps of a receive.
ghost use Rattle.std.specs.Prelude.{if◌then◌else◌, ◌≡◌, ◌<◌, false, true, IfSome};
ghost use Rattle.k_ids.specs.declared.state_word.StateWord.{StateWord};
ghost use Rattle.k_ids.specs.StateWords.{IsPartner, state_bits};
ghost use Rattle.k_ready.specs.Lists.{IsInNone};
ghost use Rattle.k_senders.specs.Entries.{number_of, sender_of};
ghost use Rattle.k_locks.specs.declared.locks.WordName.TheVariants as word;
ghost use Rattle.k_locks.specs.declared.steps.Step.TheVariants as step;
ghost use Rattle.k_locks.specs.Asks as asks;
ghost use Rattle.k_locks.specs.Hands.{Hand, nothing, pushed};
ghost use Rattle.k_locks.specs.declared.goods.Goods.TheVariants as goods;
ghost use Rattle.k_locks.specs.declared.locks.Lock.TheVariants as lock;
ghost use Rattle.k_locks.specs.Threads.{IsThread};
ghost use Rattle.k_ipc.specs.declared.receive.ReceiveLocation.TheVariants as location;
ghost use Rattle.k_ipc.specs.declared.receive.ReceiveLocked.TheVariants.{Release};
ghost use Rattle.k_ipc.specs.Words.{freed, is_joined_to};
ghost use Rattle.k_ipc.specs.ReceiveTable.{CanPush, IsSoundLocation, IsSoundLocked, IsSoundPushing, Locked, Outside, Pushing, asked_location, at_of, can_ask, hand_after, hand_of, is_pushed, is_release, next_of, own_of};

use crate::receive::{
    ReceiveCall, ReceiveLocation, ReceiveLocked, ReceiveOutside, ReceivePushing, ReceiveRelease,
};
use k_ids::{Result4, State, StateWord, ThreadId};
use k_locks::{Goods, Lock, Step, WordName};
use k_ready::ReadyLists;
use k_senders::{SenderEntry, Senders};

impl ReceiveLocation {
    // The step of the location, and what is left of the section.
    pub(crate) fn asked(self, call: ReceiveCall, own: StateWord) -> (Step, ReceiveLocation)
        requires open { can_ask self ≡ true }
        requires caller { IsPartner call.caller }
        requires from { IfSome call.from IsPartner }
        requires own { IsThread own }
        requires sound { IsSoundLocation call self }
        requires room { CanPush call (hand_of self) (at_of self) }
        ensures step { result.0 ≡ next_of call own (hand_of self) (at_of self) }
        ensures left { result.1 ≡ asked_location self }
    {
        match self {
            ReceiveLocation::Outside(at) => (outside_step(call, at), ReceiveLocation::Outside(at)),
            ReceiveLocation::Locked(at, queue) => locked_step(call, own, at, queue),
            ReceiveLocation::Pushing(at, queue, lists) => pushing_step(call, at, queue, lists),
            ReceiveLocation::ListsReturned(_, _, _) | ReceiveLocation::QueueReturned(_) =>
                unreachable!(),
        }
    }
}

fn outside_step(call: ReceiveCall, at: ReceiveOutside) -> Step
    ensures { (own : StateWord) (h : Hand) → result ≡ next_of call own h (Outside at) }
{
    match at {
        ReceiveOutside::AcquireOwn => Step::Acquire(Lock::Thread(call.caller.number)),
        ReceiveOutside::LoadCaller | ReceiveOutside::Ended(_) => Step::Load(WordName::State(
            call.caller.number,
        )),
    }
}

// A release takes the queue along.
fn locked_step(
    call: ReceiveCall,
    own: StateWord,
    at: ReceiveLocked,
    queue: Senders,
) -> (Step, ReceiveLocation)
    requires caller { IsPartner call.caller }
    requires from { IfSome call.from IsPartner }
    requires own { IsThread own }
    requires sound { IsSoundLocked call at queue }
    ensures step { result.0 ≡ next_of call own (record nothing { queue = queue }) (Locked at) }
    ensures left { result.1 ≡ asked_location (location.Locked at queue) }
{
    match at {
        ReceiveLocked::Release(end) => (
            release(call, end, queue),
            ReceiveLocation::QueueReturned(end),
        ),
        ReceiveLocked::LoadOwn
        | ReceiveLocked::LoadSender(_)
        | ReceiveLocked::FreeSender(_, _)
        | ReceiveLocked::AcquireReady(_)
        | ReceiveLocked::CommitWait
        | ReceiveLocked::LoadPartner(_)
        | ReceiveLocked::CommitGone(_)
        | ReceiveLocked::LoadPicking
        | ReceiveLocked::LoadNext(_)
        | ReceiveLocked::FreeNext(_, _)
        | ReceiveLocked::EndPick(_, _)
        | ReceiveLocked::SettlePick => {
            (
                word_step(call, own, at, &queue),
                ReceiveLocation::Locked(at, queue),
            )
        }
    }
}

// The release of the queue, without the entry that was taken.
#[tactic(auto, using(crate::proofs::Scanned::entry_stands))]
fn release(call: ReceiveCall, end: ReceiveRelease, queue: Senders) -> Step
    requires { IsSoundLocked call (Release end) queue }
    ensures { result ≡ step.Release (lock.Thread call.caller.number) (goods.Senders (hand_after call (record nothing { queue = queue }) (Locked (Release end)) asks.Released).queue) }
{
    let mut queue = queue;
    match end {
        ReceiveRelease::Taken(entry) => {
            queue.take_number(entry.number());
        }
        ReceiveRelease::Waits
        | ReceiveRelease::Delivered
        | ReceiveRelease::Gone
        | ReceiveRelease::Nobody
        | ReceiveRelease::Dead => {}
    }
    Step::Release {
        lock: Lock::Thread(call.caller.number),
        goods: Goods::Senders(queue),
    }
}

// The steps under the caller's lock that take nothing along.
fn word_step(call: ReceiveCall, own: StateWord, at: ReceiveLocked, queue: &Senders) -> Step
    requires caller { IsPartner call.caller }
    requires from { IfSome call.from IsPartner }
    requires own { IsThread own }
    requires sound { IsSoundLocked call at queue.now }
    requires plain { is_release at ≡ false }
    ensures { result ≡ next_of call own (record nothing { queue = queue.now }) (Locked at) }
{
    match at {
        ReceiveLocked::LoadOwn | ReceiveLocked::LoadPicking => Step::Load(WordName::State(
            call.caller.number,
        )),
        ReceiveLocked::LoadSender(entry) | ReceiveLocked::LoadNext(entry) => Step::Load(
            WordName::State(entry.number()),
        ),
        ReceiveLocked::FreeSender(entry, word) | ReceiveLocked::FreeNext(entry, word) => exchange(
            entry.sender(),
            word,
            freed(call.caller, word),
        ),
        ReceiveLocked::AcquireReady(_) => Step::Acquire(Lock::Ready),
        ReceiveLocked::LoadPartner(from) => Step::Load(WordName::State(from.number)),
        ReceiveLocked::CommitWait
        | ReceiveLocked::CommitGone(_)
        | ReceiveLocked::EndPick(_, _)
        | ReceiveLocked::SettlePick => exchange(call.caller, own, own_after(call, own, at)),
        ReceiveLocked::Release(_) => unreachable!(),
    }
}

fn exchange(who: ThreadId, old: StateWord, new: StateWord) -> Step
    requires old { IsThread old }
    requires new { IsThread new }
    ensures { result ≡ step.Exchange (word.State who.number) (state_bits old) (state_bits new) }
{
    Step::Exchange {
        word: WordName::State(who.number),
        old: old.bits(),
        new: new.bits(),
    }
}

// The word of a sender whose message is taken.
fn freed(receiver: ThreadId, word: StateWord) -> StateWord
    requires receiver { IsPartner receiver }
    requires word { IsThread word }
    ensures word { result ≡ freed receiver word }
    ensures sound { IsThread result }
{
    if is_joined_to(word.state) {
        word.with_state(State::Receiving {
            from: Some(receiver),
        })
    } else {
        word.woken(Result4::Sent)
    }
}

/// Whether the thread's send was joined.
pub(crate) fn is_joined_to(state: State) -> bool
    ensures { result ≡ is_joined_to state }
{
    match state {
        State::Sending { to: _, joined } => joined,
        State::Dead
        | State::Run { result: _ }
        | State::Receiving { from: _ }
        | State::Picking
        | State::Ended => false,
    }
}

/// The caller's own word once the exchange of the location is won.
pub(crate) fn own_after(call: ReceiveCall, own: StateWord, at: ReceiveLocked) -> StateWord
    requires from { IfSome call.from IsPartner }
    requires own { IsThread own }
    ensures word { result ≡ own_of call own (Locked at) asks.Won }
    ensures sound { IsThread result }
{
    match at {
        ReceiveLocked::CommitWait => own.with_state(State::Receiving { from: call.from }),
        ReceiveLocked::CommitGone(_) => own.with_state(State::Run {
            result: Result4::Gone,
        }),
        ReceiveLocked::EndPick(_, _) => own.woken(Result4::Plain),
        ReceiveLocked::SettlePick => StateWord {
            on: true,
            ..own.with_state(State::Receiving { from: None })
        },
        ReceiveLocked::LoadOwn
        | ReceiveLocked::LoadSender(_)
        | ReceiveLocked::FreeSender(_, _)
        | ReceiveLocked::AcquireReady(_)
        | ReceiveLocked::LoadPartner(_)
        | ReceiveLocked::LoadPicking
        | ReceiveLocked::LoadNext(_)
        | ReceiveLocked::FreeNext(_, _)
        | ReceiveLocked::Release(_) => own,
    }
}

/// Whether the thread whose message was taken still runs, so that it is put into a ready list.
pub(crate) fn is_pushed(entry: SenderEntry, word: StateWord) -> bool
    ensures { result ≡ is_pushed entry word }
{
    let runs = match word.state {
        State::Run { result: _ } => true,
        State::Dead
        | State::Sending { to: _, joined: _ }
        | State::Receiving { from: _ }
        | State::Picking
        | State::Ended => false,
    };
    runs && word.version == entry.sender().version
}

// The steps under the ready lock. Its release takes the lists along.
fn pushing_step(
    call: ReceiveCall,
    at: ReceivePushing,
    queue: Senders,
    lists: ReadyLists,
) -> (Step, ReceiveLocation)
    requires sound { IsSoundPushing call at queue }
    requires room { CanPush call (record nothing { queue = queue; lists = lists }) (Pushing at) }
    ensures step { (own : StateWord) → result.0 ≡ next_of call own (record nothing { queue = queue; lists = lists }) (Pushing at) }
    ensures left { result.1 ≡ asked_location (location.Pushing at queue lists) }
{
    match at {
        ReceivePushing::LoadFreed(entry) => (
            Step::Load(WordName::State(entry.number())),
            ReceiveLocation::Pushing(at, queue, lists),
        ),
        ReceivePushing::PushFreed(entry, word) => (
            release_lists(entry, word, lists),
            ReceiveLocation::ListsReturned(entry, word, queue),
        ),
    }
}

// The release of the ready lists, with the sender at the end of the list of its priority.
fn release_lists(entry: SenderEntry, word: StateWord, lists: ReadyLists) -> Step
    requires priority { word.priority < 64 }
    requires room { is_pushed entry word ≡ true → IsInNone (number_of entry) lists.lists }
    ensures { result ≡ step.Release lock.Ready (goods.Ready (if is_pushed entry word then pushed (sender_of entry) word.priority lists else lists)) }
{
    let mut lists = lists;
    if is_pushed(entry, word) {
        let sender = entry.sender();
        lists.push(sender.number, sender.version, word.priority);
    }
    Step::Release {
        lock: Lock::Ready,
        goods: Goods::Ready(lists),
    }
}
