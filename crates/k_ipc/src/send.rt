// The section of a send.
ghost use Rattle.std.specs.Prelude.{◌≡◌, true};
ghost use Rattle.k_ids.specs.StateWords.{IsPartner, state_word_of};
ghost use Rattle.k_locks.specs.declared.steps.Answer.{Answer};
ghost use Rattle.k_locks.specs.Steps.{goes_on, suits};
ghost use Rattle.k_locks.specs.Threads.{IsRunOf};
ghost use Rattle.k_ipc.specs.declared.send.Manner.TheVariants as manner;
ghost use Rattle.k_ipc.specs.SendTable.{CanPush, IsFit, IsSound, Locked, asked, at_of, can_ask, hand_of, heard, is_open, left_of, left_thread, locks_of, manner_of, resumed, send_of, step_of, went_of};

mod moves;
mod points;
mod steps;

use k_ids::{Message, Reply, StateWord, ThreadId};
use k_locks::{Answer, Lock, Step, Went, is_same, state_word};
use k_ready::ReadyLists;
use k_senders::Senders;
pub(crate) use moves::alive_or_dead;
use std::mem;

/// How a send goes on once its message has passed.
#[derive(Clone, Copy)]
pub enum Manner {
    /// The caller runs on.
    Plain,
    /// The send is joined: the caller waits for its partner's answer.
    Joined,
    /// The send is a reply: the caller picks its next sender.
    Reply,
}

/// What a send is asked for.
#[derive(Clone, Copy)]
pub struct SendCall {
    pub caller: ThreadId,
    pub to: ThreadId,
    pub message: Message,
    /// Its timeout is zero.
    pub zero: bool,
    pub manner: Manner,
}

/// The locations of a send at which it holds no lock.
#[derive(Clone, Copy)]
pub enum SendOutside {
    /// The caller names itself: is it still there?
    LoadCaller,
    /// The first location of all other sends.
    AcquireReceiver,
    /// The send is refused with this reply: is the caller still there?
    CheckCaller(Reply),
    /// The section is over.
    Ended(Went),
}

/// The locations of a send at which it holds the receiver's lock. A state word is the receiver's, as it was loaded last.
#[derive(Clone, Copy)]
pub enum SendLocked {
    LoadReceiver,
    StoreMail(StateWord),
    /// The message passes, if the caller is still there.
    CommitPass(StateWord),
    WakeReceiver(StateWord),
    ReloadReceiver,
    /// The receiver runs, and has to be put into the ready list of this priority.
    AcquireReady(u8),
    /// The caller begins to wait, if it is still there.
    CommitWait,
    Release(SendRelease),
}

/// The locations of a send at which it releases the receiver's lock.
#[derive(Clone, Copy)]
pub enum SendRelease {
    /// The message has passed.
    Passed,
    /// The caller was destroyed.
    Dead,
    /// The send is refused with this reply.
    Refused(Reply),
    /// The caller waits: its message is appended to the queue.
    Queued,
}

/// The locations of a send at which it holds the ready lock too.
#[derive(Clone, Copy)]
pub enum SendPushing {
    PushReceiver(u8),
}

/// The location of a send, with what is in hand.
#[derive(Drop)]
pub enum SendLocation {
    Outside(SendOutside),
    Locked(SendLocked, Senders),
    Pushing(SendPushing, Senders, ReadyLists),
    /// The step of this location was asked for, and the ready lists went with it.
    ListsReturned(SendPushing, Senders),
    /// The step of this location was asked for, and the queue went with it.
    QueueReturned(SendRelease),
}

/// A send.
#[derive(Drop)]
pub struct SendSection {
    pub(crate) call: SendCall,
    pub(crate) own: StateWord,
    pub(crate) location: SendLocation,
    pub(crate) done: u32,
}

impl SendSection {
    /// A send of `message` from the caller to a thread, at its first location. `own` is the caller's state word: it runs. Where
    /// `zero` is set it doesn't wait, and where `joined` is set the caller waits for its partner's answer afterwards.
    pub fn of(
        caller: ThreadId,
        own: u64,
        to: ThreadId,
        message: Message,
        zero: bool,
        joined: bool,
    ) -> SendSection
        requires caller { IsPartner caller }
        requires own { IsRunOf caller own }
        requires to { IsPartner to }
        ensures section { result ≡ send_of (record { caller = caller; to = to; message = message; zero = zero; manner = manner_of joined }) (state_word_of own) }
        ensures sound { IsSound result }
    {
        let manner = if joined {
            Manner::Joined
        } else {
            Manner::Plain
        };
        let call = SendCall {
            caller,
            to,
            message,
            zero,
            manner,
        };
        SendSection::first(call, state_word(own))
    }

    /// The same of a reply: once its message has passed, the caller picks its next sender.
    pub fn of_reply(
        caller: ThreadId,
        own: u64,
        to: ThreadId,
        message: Message,
        zero: bool,
    ) -> SendSection
        requires caller { IsPartner caller }
        requires own { IsRunOf caller own }
        requires to { IsPartner to }
        ensures section { result ≡ send_of (record { caller = caller; to = to; message = message; zero = zero; manner = manner.Reply }) (state_word_of own) }
        ensures sound { IsSound result }
    {
        let call = SendCall {
            caller,
            to,
            message,
            zero,
            manner: Manner::Reply,
        };
        SendSection::first(call, state_word(own))
    }

    pub(crate) fn first(call: SendCall, own: StateWord) -> SendSection
        ensures { result ≡ send_of call own }
    {
        let first = if is_same(call.to, call.caller) {
            SendOutside::LoadCaller
        } else {
            SendOutside::AcquireReceiver
        };
        SendSection {
            call,
            own,
            location: SendLocation::Outside(first),
            done: 0,
        }
    }

    /// The step of the section's location. What a release puts back leaves the section with it.
    pub fn next(&mut self) -> Step
        requires open { can_ask self.old.location ≡ true }
        requires sound { IsSound self.old }
        requires room { CanPush self.old.call (hand_of self.old.location) (at_of self.old.location) }
        ensures step { result ≡ step_of self.old }
        ensures section { self.new ≡ asked self.old }
        ensures sound { IsSound self.new }
        ensures same { at_of self.new.location ≡ at_of self.old.location }
        ensures answers { (a : Answer) → suits result a ≡ true → suits (step_of self.new) a ≡ true }
    {
        let nowhere = SendLocation::Outside(SendOutside::AcquireReceiver);
        let location = mem::replace(&mut self.location, nowhere);
        let (step, left) = location.asked(self.call, self.own);
        self.location = left;
        step
    }

    /// Goes on by the answer to the section's step.
    pub fn resume(&mut self, answer: Answer) -> Went
        requires open { is_open (at_of self.old.location) ≡ true }
        requires sound { IsSound self.old }
        requires suits { suits (step_of self.old) answer ≡ true }
        requires fit { IsFit (at_of self.old.location) answer }
        ensures section { self.new ≡ resumed self.old answer }
        ensures went { result ≡ went_of self.old.call (hand_of self.old.location) (at_of self.old.location) (heard self.old answer) }
        ensures sound { IsSound self.new }
        ensures onward { can_ask self.new.location ≡ goes_on result }
    {
        if answer.is_again() {
            return Went::Again;
        }
        let pushed = self.location.pushed();
        let nowhere = SendLocation::Outside(SendOutside::AcquireReceiver);
        let section = SendSection {
            call: self.call,
            own: self.own,
            location: mem::replace(&mut self.location, nowhere),
            done: self.done,
        };
        let section = section.moved(answer);
        let went = section.location.went(pushed);
        self.own = section.own;
        self.done = section.done;
        self.location = section.location;
        went
    }
}

// What it holds, and how far it is.
impl SendSection {
    /// The locks that the section holds, by rank.
    pub fn holds(&self) -> [Option<Lock>; 3]
        ensures { result ≡ locks_of self.now.call (at_of self.now.location) }
    {
        let receiver = Some(Lock::Thread(self.call.to.number));
        match self.location {
            SendLocation::Outside(_) => [None, None, None],
            SendLocation::Locked(_, _) | SendLocation::QueueReturned(_) => [None, receiver, None],
            SendLocation::Pushing(_, _, _) | SendLocation::ListsReturned(_, _) => [
                None,
                receiver,
                Some(Lock::Ready),
            ],
        }
    }

    /// How many steps are left until a lock is released, that release included: the greatest number where no exchange is lost
    /// but the one at the section's location. Where the receiver was on when it was loaded, one lost exchange is counted
    /// before. It is 0 of a lock that isn't held.
    pub fn left(&self, lock: Lock) -> u32
        ensures { result ≡ left_of self.now.call (hand_of self.now.location) (at_of self.now.location) lock }
    {
        match lock {
            Lock::Table => 0,
            Lock::Thread(number) => if number == self.call.to.number {
                left_thread(&self.location)
            } else {
                0
            },
            Lock::Ready => match self.location {
                SendLocation::Pushing(_, _, _) | SendLocation::ListsReturned(_, _) => 1,
                SendLocation::Outside(_)
                | SendLocation::Locked(_, _)
                | SendLocation::QueueReturned(_) => 0,
            },
        }
    }

    /// How many steps the section has made. One that had to be asked for again isn't counted. It stays at the end of its type.
    pub fn done(&self) -> u32
        ensures { result ≡ self.now.done }
    {
        self.done
    }

    /// The caller's state word, as the section knows it: its own exchanges have changed it.
    pub fn own(&self) -> StateWord
        ensures { result ≡ self.now.own }
    {
        self.own
    }
}

fn left_thread(location: &SendLocation) -> u32
    ensures { result ≡ left_thread (at_of location.now) }
{
    match location {
        SendLocation::Outside(_) => 0,
        SendLocation::Locked(at, _) => left_locked(*at),
        SendLocation::QueueReturned(_) => 1,
        SendLocation::Pushing(_, _, _) | SendLocation::ListsReturned(_, _) => 2,
    }
}

fn left_locked(at: SendLocked) -> u32
    ensures { result ≡ left_thread (Locked at) }
{
    match at {
        SendLocked::LoadReceiver => 7,
        SendLocked::StoreMail(word) => if word.on { 8 } else { 6 },
        SendLocked::CommitPass(word) => if word.on { 7 } else { 5 },
        SendLocked::WakeReceiver(_) => 6,
        SendLocked::ReloadReceiver => 5,
        SendLocked::AcquireReady(_) => 3,
        SendLocked::CommitWait => 2,
        SendLocked::Release(_) => 1,
    }
}
