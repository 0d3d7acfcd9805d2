// The steps of a send.
ghost use Rattle.std.specs.Prelude.{◌≡◌, false, true};
ghost use Rattle.k_ids.specs.StateWords.{IsPartner, state_bits};
ghost use Rattle.k_ids.specs.declared.state_word.StateWord.{StateWord};
ghost use Rattle.k_ready.specs.Lists.{IsInNone};
ghost use Rattle.k_senders.specs.Queue.{Queue};
ghost use Rattle.k_locks.specs.declared.locks.WordName.TheVariants as word;
ghost use Rattle.k_locks.specs.declared.steps.Step.TheVariants as step;
ghost use Rattle.k_locks.specs.declared.goods.Goods.TheVariants as goods;
ghost use Rattle.k_locks.specs.declared.locks.Lock.TheVariants as lock;
ghost use Rattle.k_locks.specs.Asks as asks;
ghost use Rattle.k_locks.specs.Hands.{Hand, nothing};
ghost use Rattle.k_locks.specs.Threads.{IsThread};
ghost use Rattle.k_ipc.specs.declared.send.SendLocation.TheVariants as location;
ghost use Rattle.k_ipc.specs.declared.send.SendLocked.TheVariants.{Release};
ghost use Rattle.k_ipc.specs.SendTable.{CanPush, IsSoundAt, Locked, Outside, Pushing, asked_location, at_of, can_ask, hand_after, hand_of, is_release, next_of, passed_word, waiting_word};

use crate::send::{
    Manner, SendCall, SendLocation, SendLocked, SendOutside, SendPushing, SendRelease,
};
use k_ids::{Result4, State, StateWord};
use k_locks::{Goods, Lock, Step, WordName};
use k_ready::ReadyLists;
use k_senders::{SenderEntry, Senders};

impl SendLocation {
    // The step of the location, and what is left of the section.
    pub(crate) fn asked(self, call: SendCall, own: StateWord) -> (Step, SendLocation)
        requires open { can_ask self ≡ true }
        requires caller { IsPartner call.caller }
        requires to { IsPartner call.to }
        requires own { IsThread own }
        requires sound { IsSoundAt (at_of self) }
        requires room { CanPush call (hand_of self) (at_of self) }
        ensures step { result.0 ≡ next_of call own (hand_of self) (at_of self) }
        ensures left { result.1 ≡ asked_location self }
    {
        match self {
            SendLocation::Outside(at) => (outside_step(call, at), SendLocation::Outside(at)),
            SendLocation::Locked(at, queue) => locked_step(call, own, at, queue),
            SendLocation::Pushing(at, queue, lists) => {
                (
                    pushing_step(call, at, lists),
                    SendLocation::ListsReturned(at, queue),
                )
            }
            SendLocation::ListsReturned(_, _) | SendLocation::QueueReturned(_) => unreachable!(),
        }
    }
}

fn outside_step(call: SendCall, at: SendOutside) -> Step
    ensures { (own : StateWord) (h : Hand) → result ≡ next_of call own h (Outside at) }
{
    match at {
        SendOutside::AcquireReceiver => Step::Acquire(Lock::Thread(call.to.number)),
        SendOutside::LoadCaller | SendOutside::CheckCaller(_) | SendOutside::Ended(_) => Step::Load(
            WordName::State(call.caller.number),
        ),
    }
}

// A release takes the queue along.
fn locked_step(
    call: SendCall,
    own: StateWord,
    at: SendLocked,
    queue: Senders,
) -> (Step, SendLocation)
    requires caller { IsPartner call.caller }
    requires to { IsPartner call.to }
    requires own { IsThread own }
    requires sound { IsSoundAt (Locked at) }
    requires room { CanPush call (record nothing { queue = queue }) (Locked at) }
    ensures step { result.0 ≡ next_of call own (record nothing { queue = queue }) (Locked at) }
    ensures left { result.1 ≡ asked_location (location.Locked at queue) }
{
    match at {
        SendLocked::Release(end) => (release(call, end, queue), SendLocation::QueueReturned(end)),
        SendLocked::LoadReceiver
        | SendLocked::StoreMail(_)
        | SendLocked::CommitPass(_)
        | SendLocked::WakeReceiver(_)
        | SendLocked::ReloadReceiver
        | SendLocked::AcquireReady(_)
        | SendLocked::CommitWait => (word_step(call, own, at), SendLocation::Locked(at, queue)),
    }
}

// The release of the queue, with the caller at its end where it waits.
fn release(call: SendCall, end: SendRelease, queue: Senders) -> Step
    requires caller { IsPartner call.caller }
    requires room { CanPush call (record nothing { queue = queue }) (Locked (Release end)) }
    ensures { result ≡ step.Release (lock.Thread call.to.number) (goods.Senders (hand_after call (record nothing { queue = queue }) (Locked (Release end)) asks.Released).queue) }
{
    let mut queue = queue;
    match end {
        SendRelease::Queued => queue.push(SenderEntry::of(call.caller, call.message)),
        SendRelease::Passed | SendRelease::Dead | SendRelease::Refused(_) => {}
    }
    Step::Release {
        lock: Lock::Thread(call.to.number),
        goods: Goods::Senders(queue),
    }
}

// The steps under the receiver's lock that take nothing along.
fn word_step(call: SendCall, own: StateWord, at: SendLocked) -> Step
    requires caller { IsPartner call.caller }
    requires to { IsPartner call.to }
    requires own { IsThread own }
    requires sound { IsSoundAt (Locked at) }
    requires plain { is_release at ≡ false }
    ensures { (h : Hand) → result ≡ next_of call own h (Locked at) }
{
    let receiver = WordName::State(call.to.number);
    match at {
        SendLocked::StoreMail(_) => Step::Store {
            word: WordName::Mail(call.to.number),
            value: call.message.packed(),
        },
        SendLocked::CommitPass(_) => own_exchange(call, own, passed_word(call, own)),
        SendLocked::CommitWait => own_exchange(call, own, waiting_word(call, own)),
        SendLocked::WakeReceiver(word) => Step::Exchange {
            word: receiver,
            old: word.bits(),
            new: word.woken(Result4::Delivered { from: call.caller }).bits(),
        },
        SendLocked::AcquireReady(_) => Step::Acquire(Lock::Ready),
        SendLocked::LoadReceiver | SendLocked::ReloadReceiver => Step::Load(receiver),
        SendLocked::Release(_) => unreachable!(),
    }
}

fn own_exchange(call: SendCall, own: StateWord, next: StateWord) -> Step
    requires own { IsThread own }
    requires next { IsThread next }
    ensures { result ≡ step.Exchange (word.State call.caller.number) (state_bits own) (state_bits next) }
{
    Step::Exchange {
        word: WordName::State(call.caller.number),
        old: own.bits(),
        new: next.bits(),
    }
}

/// The caller's word once its message has passed.
pub(crate) fn passed_word(call: SendCall, own: StateWord) -> StateWord
    requires to { IsPartner call.to }
    requires own { IsThread own }
    ensures word { result ≡ passed_word call.manner call.to own }
    ensures sound { IsThread result }
{
    match call.manner {
        Manner::Plain => own.with_state(State::Run {
            result: Result4::Sent,
        }),
        Manner::Joined => own.with_state(State::Receiving {
            from: Some(call.to),
        }),
        Manner::Reply => StateWord {
            on: true,
            ..own.with_state(State::Picking)
        },
    }
}

/// The caller's word while it waits.
pub(crate) fn waiting_word(call: SendCall, own: StateWord) -> StateWord
    requires to { IsPartner call.to }
    requires own { IsThread own }
    ensures word { result ≡ waiting_word call own }
    ensures sound { IsThread result }
{
    let joined = match call.manner {
        Manner::Joined => true,
        Manner::Plain | Manner::Reply => false,
    };
    own.with_state(State::Sending {
        to: call.to,
        joined,
    })
}

// The release of the ready lists, with the receiver at the end of the list of its priority.
fn pushing_step(call: SendCall, at: SendPushing, lists: ReadyLists) -> Step
    requires to { IsPartner call.to }
    requires sound { IsSoundAt (Pushing at) }
    requires room { IsInNone call.to.number lists.lists }
    ensures { (own : StateWord) (queue : Queue) → result ≡ next_of call own (record nothing { queue = queue; lists = lists }) (Pushing at) }
{
    let SendPushing::PushReceiver(priority) = at;
    let mut lists = lists;
    lists.push(call.to.number, call.to.version, priority);
    Step::Release {
        lock: Lock::Ready,
        goods: Goods::Ready(lists),
    }
}
