// The section of a receive, and of the pick that follows a reply.
ghost use Rattle.std.specs.Prelude.{◌≡◌, ◌≤◌, false, true, None, IfSome};
ghost use Rattle.k_ids.specs.StateWords.{IsPartner, state_word_of};
ghost use Rattle.k_model.specs.Step.{is_own};
ghost use Rattle.k_locks.specs.declared.steps.Answer.{Answer};
ghost use Rattle.k_locks.specs.Hands.{Hand, nothing};
ghost use Rattle.k_locks.specs.Steps.{goes_on, suits};
ghost use Rattle.k_locks.specs.Threads.{IsRunOf};
ghost use Rattle.k_ipc.specs.Words.{IsPickingOf};
ghost use Rattle.k_ipc.specs.ReceiveTable.{CanPush, IsFit, IsSound, IsSoundLocation, IsSoundLocked, Locked, asked, at_of, can_ask, hand_of, heard, is_open, is_settled, left_of, left_own, left_picking, left_thread, left_wait, locks_of, receive_of, resumed, step_of, went_of};

mod moves;
mod points;
mod steps;

use crate::candidates::{count_all, count_from};
use k_ids::{StateWord, ThreadId};
use k_locks::{Answer, Lock, Step, Went, is_same, state_word};
use k_ready::ReadyLists;
use k_senders::{SenderEntry, Senders};
use std::mem;

/// What a receive is asked for.
#[derive(Clone, Copy)]
pub struct ReceiveCall {
    pub caller: ThreadId,
    /// The thread from which it receives, or any where none is named.
    pub from: Option<ThreadId>,
    /// Its timeout is zero.
    pub zero: bool,
    /// It is the pick that follows a reply: from any, and without a timeout.
    pub picks: bool,
}

/// The locations of a receive at which it holds no lock.
#[derive(Clone, Copy)]
pub enum ReceiveOutside {
    /// The caller names itself: is it still there?
    LoadCaller,
    /// The first location of all other receives, and of a pick.
    AcquireOwn,
    /// The section is over.
    Ended(Went),
}

/// The locations of a receive at which it holds the caller's own lock. An entry is the candidate that is tried, and a state
/// word that of its sender, as it was loaded last.
#[derive(Clone, Copy)]
pub enum ReceiveLocked {
    LoadOwn,
    LoadSender(SenderEntry),
    /// The sender's message is taken, if it still waits.
    FreeSender(SenderEntry, StateWord),
    /// The sender runs, and has to be put into a ready list.
    AcquireReady(SenderEntry),
    /// The caller begins to wait.
    CommitWait,
    /// The caller waits for this thread: is it there?
    LoadPartner(ThreadId),
    /// The thread for which the caller waits isn't there.
    CommitGone(ThreadId),
    /// Of a pick: has somebody sent to the caller meanwhile?
    LoadPicking,
    LoadNext(SenderEntry),
    FreeNext(SenderEntry, StateWord),
    /// The pick has taken a message: the caller runs.
    EndPick(SenderEntry, StateWord),
    /// The pick finds nobody: the caller waits for whoever comes.
    SettlePick,
    Release(ReceiveRelease),
}

/// The locations of a receive at which it releases the caller's lock.
#[derive(Clone, Copy)]
pub enum ReceiveRelease {
    /// This message was taken: its entry leaves the queue.
    Taken(SenderEntry),
    /// The caller waits.
    Waits,
    /// Of a pick: a message was delivered to the caller meanwhile. It finds the message by its word, as one that waits does.
    Delivered,
    /// The thread for which it waited isn't there.
    Gone,
    /// Nobody waits to send to it.
    Nobody,
    /// The caller was destroyed.
    Dead,
}

/// The locations of a receive at which it holds the ready lock too.
#[derive(Clone, Copy)]
pub enum ReceivePushing {
    /// The sender may have been destroyed since its message was taken.
    LoadFreed(SenderEntry),
    /// The sender is put into a ready list, if its word, which is this one, still shows that it runs.
    PushFreed(SenderEntry, StateWord),
}

/// The location of a receive, with what is in hand.
#[derive(Drop)]
pub enum ReceiveLocation {
    Outside(ReceiveOutside),
    Locked(ReceiveLocked, Senders),
    Pushing(ReceivePushing, Senders, ReadyLists),
    /// The release of the ready lists was asked for, and they went with it.
    ListsReturned(SenderEntry, StateWord, Senders),
    /// The step of this location was asked for, and the queue went with it.
    QueueReturned(ReceiveRelease),
}

/// A receive, or a pick.
#[derive(Drop)]
pub struct ReceiveSection {
    pub(crate) call: ReceiveCall,
    pub(crate) own: StateWord,
    pub(crate) location: ReceiveLocation,
    pub(crate) done: u32,
}

impl ReceiveSection {
    /// A receive by the caller from one thread, or from any where none is named, at its first location. `own` is the caller's
    /// state word: it runs. Where `zero` is set it doesn't wait.
    pub fn of(caller: ThreadId, own: u64, from: Option<ThreadId>, zero: bool) -> ReceiveSection
        requires caller { IsPartner caller }
        requires own { IsRunOf caller own }
        requires from { IfSome from IsPartner }
        ensures section { result ≡ receive_of (record { caller = caller; from = from; zero = zero; picks = false }) (state_word_of own) }
        ensures sound { IsSound result }
    {
        let call = ReceiveCall {
            caller,
            from,
            zero,
            picks: false,
        };
        ReceiveSection::first(call, state_word(own))
    }

    /// The pick of a caller that has replied, at its first location. `own` is the caller's state word: it picks.
    pub fn of_pick(caller: ThreadId, own: u64) -> ReceiveSection
        requires caller { IsPartner caller }
        requires own { IsPickingOf caller own }
        ensures section { result ≡ receive_of (record { caller = caller; from = None; zero = false; picks = true }) (state_word_of own) }
        ensures sound { IsSound result }
    {
        let call = ReceiveCall {
            caller,
            from: None,
            zero: false,
            picks: true,
        };
        ReceiveSection::first(call, state_word(own))
    }

    pub(crate) fn first(call: ReceiveCall, own: StateWord) -> ReceiveSection
        ensures { result ≡ receive_of call own }
    {
        let first = if is_own(call.from, call.caller) {
            ReceiveOutside::LoadCaller
        } else {
            ReceiveOutside::AcquireOwn
        };
        ReceiveSection {
            call,
            own,
            location: ReceiveLocation::Outside(first),
            done: 0,
        }
    }

    /// The step of the section's location. What a release puts back leaves the section with it.
    pub fn next(&mut self) -> Step
        requires open { can_ask self.old.location ≡ true }
        requires sound { IsSound self.old }
        requires room { CanPush self.old.call (hand_of self.old.location) (at_of self.old.location) }
        ensures step { result ≡ step_of self.old }
        ensures section { self.new ≡ asked self.old }
        ensures sound { IsSound self.new }
        ensures same { at_of self.new.location ≡ at_of self.old.location }
        ensures answers { (a : Answer) → suits result a ≡ true → suits (step_of self.new) a ≡ true }
    {
        let nowhere = ReceiveLocation::Outside(ReceiveOutside::AcquireOwn);
        let location = mem::replace(&mut self.location, nowhere);
        let (step, left) = location.asked(self.call, self.own);
        self.location = left;
        step
    }

    /// Goes on by the answer to the section's step.
    pub fn resume(&mut self, answer: Answer) -> Went
        requires open { is_open (at_of self.old.location) ≡ true }
        requires sound { IsSound self.old }
        requires suits { suits (step_of self.old) answer ≡ true }
        requires fit { IsFit (at_of self.old.location) answer }
        ensures section { self.new ≡ resumed self.old answer }
        ensures went { result ≡ went_of self.old.call (hand_of self.old.location) (at_of self.old.location) (heard self.old answer) }
        ensures sound { IsSound self.new }
        ensures onward { can_ask self.new.location ≡ goes_on result }
    {
        if answer.is_again() {
            return Went::Again;
        }
        let pushed = self.location.pushed();
        let nowhere = ReceiveLocation::Outside(ReceiveOutside::AcquireOwn);
        let section = ReceiveSection {
            call: self.call,
            own: self.own,
            location: mem::replace(&mut self.location, nowhere),
            done: self.done,
        };
        let section = section.moved(answer);
        let went = section.location.went(pushed);
        self.own = section.own;
        self.done = section.done;
        self.location = section.location;
        went
    }
}

// What it holds, and how far it is.
impl ReceiveSection {
    /// The locks that the section holds, by rank.
    pub fn holds(&self) -> [Option<Lock>; 3]
        ensures { result ≡ locks_of self.now.call (at_of self.now.location) }
    {
        let caller = Some(Lock::Thread(self.call.caller.number));
        match self.location {
            ReceiveLocation::Outside(_) => [None, None, None],
            ReceiveLocation::Locked(_, _) | ReceiveLocation::QueueReturned(_) => [
                None, caller, None,
            ],
            ReceiveLocation::Pushing(_, _, _) | ReceiveLocation::ListsReturned(_, _, _) => [
                None,
                caller,
                Some(Lock::Ready),
            ],
        }
    }

    /// How many steps are left until a lock is released, that release included: the greatest number where no exchange is lost
    /// but the one at the section's location. It is 0 of a lock that isn't held.
    pub fn left(&self, lock: Lock) -> u32
        requires { IsSound self.now }
        ensures { result ≡ left_of self.now.call (hand_of self.now.location) (at_of self.now.location) lock }
    {
        match lock {
            Lock::Table => 0,
            Lock::Thread(number) => if number == self.call.caller.number {
                left_thread(self.call, &self.location)
            } else {
                0
            },
            Lock::Ready => match self.location {
                ReceiveLocation::Pushing(ReceivePushing::LoadFreed(_), _, _) => 2,
                ReceiveLocation::Pushing(ReceivePushing::PushFreed(_, _), _, _)
                | ReceiveLocation::ListsReturned(_, _, _) => 1,
                ReceiveLocation::Outside(_)
                | ReceiveLocation::Locked(_, _)
                | ReceiveLocation::QueueReturned(_) => 0,
            },
        }
    }

    /// How many steps the section has made. One that had to be asked for again isn't counted. It stays at the end of its type.
    pub fn done(&self) -> u32
        ensures { result ≡ self.now.done }
    {
        self.done
    }

    /// The caller's state word, as the section knows it: its own exchanges have changed it.
    pub fn own(&self) -> StateWord
        ensures { result ≡ self.now.own }
    {
        self.own
    }
}

// Whether a receiver names itself.
fn is_own(from: Option<ThreadId>, me: ThreadId) -> bool
    ensures { result ≡ is_own from me }
{
    match from {
        None => false,
        Some(from) => is_same(from, me),
    }
}

fn left_thread(call: ReceiveCall, location: &ReceiveLocation) -> u32
    requires { IsSoundLocation call location.now }
    ensures { result ≡ left_thread call (hand_of location.now) (at_of location.now) }
{
    match location {
        ReceiveLocation::Outside(_) => 0,
        ReceiveLocation::Locked(at, queue) => left_locked(call, *at, queue),
        ReceiveLocation::QueueReturned(_) => 1,
        ReceiveLocation::Pushing(ReceivePushing::LoadFreed(_), _, _) => 3,
        ReceiveLocation::Pushing(ReceivePushing::PushFreed(_, _), _, _)
        | ReceiveLocation::ListsReturned(_, _, _) => 2,
    }
}

fn left_locked(call: ReceiveCall, at: ReceiveLocked, queue: &Senders) -> u32
    requires { IsSoundLocked call at queue.now }
    ensures { result ≡ left_thread call (record nothing { queue = queue.now }) (Locked at) }
{
    match at {
        ReceiveLocked::LoadOwn => left_own(call, count_all(queue, call.from)),
        ReceiveLocked::LoadSender(entry) => count_from(queue, call.from, entry) + 5,
        ReceiveLocked::FreeSender(entry, _) | ReceiveLocked::LoadNext(entry) => count_from(
            queue, call.from, entry,
        ) + 6,
        ReceiveLocked::FreeNext(entry, _) => count_from(queue, call.from, entry) + 7,
        ReceiveLocked::LoadPicking => left_picking(count_all(queue, call.from)),
        ReceiveLocked::AcquireReady(_)
        | ReceiveLocked::CommitWait
        | ReceiveLocked::LoadPartner(_)
        | ReceiveLocked::CommitGone(_)
        | ReceiveLocked::EndPick(_, _)
        | ReceiveLocked::SettlePick
        | ReceiveLocked::Release(_) => left_settled(call, at),
    }
}

// Where no candidate is tried any more.
fn left_settled(call: ReceiveCall, at: ReceiveLocked) -> u32
    requires { is_settled at ≡ true }
    ensures { (h : Hand) → result ≡ left_thread call h (Locked at) }
{
    match at {
        ReceiveLocked::AcquireReady(_) => 4,
        ReceiveLocked::CommitWait => left_wait(call),
        ReceiveLocked::LoadPartner(_) => 3,
        ReceiveLocked::CommitGone(_) | ReceiveLocked::SettlePick => 2,
        ReceiveLocked::EndPick(_, _) => 5,
        ReceiveLocked::Release(_) => 1,
        ReceiveLocked::LoadOwn
        | ReceiveLocked::LoadSender(_)
        | ReceiveLocked::FreeSender(_, _)
        | ReceiveLocked::LoadPicking
        | ReceiveLocked::LoadNext(_)
        | ReceiveLocked::FreeNext(_, _) => unreachable!(),
    }
}

fn left_wait(call: ReceiveCall) -> u32
    ensures { result ≡ left_wait call.from }
{
    match call.from {
        None => 2,
        Some(_) => 4,
    }
}

fn left_own(call: ReceiveCall, candidates: u32) -> u32
    requires { candidates ≤ 64 }
    ensures { result ≡ left_own call candidates }
{
    if candidates > 0 {
        return candidates + 6;
    }
    if call.zero { 2 } else { 1 + left_wait(call) }
}

fn left_picking(candidates: u32) -> u32
    requires { candidates ≤ 64 }
    ensures { result ≡ left_picking candidates }
{
    if candidates > 0 { candidates + 7 } else { 3 }
}
