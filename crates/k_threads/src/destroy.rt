// The section that destroys a thread.
ghost use Rattle.std.specs.Prelude.{[], ◌≡◌, ◌<◌, ◌≤◌, false, true};
ghost use Rattle.k_ids.specs.StateWords.{IsPartner, state_word_of};
ghost use Rattle.k_locks.specs.declared.goods.Goods.TheVariants as goods;
ghost use Rattle.k_locks.specs.declared.locks.Lock.TheVariants as lock;
ghost use Rattle.k_locks.specs.declared.steps.Step.TheVariants as step;
ghost use Rattle.k_locks.specs.Asks.{hand_asked};
ghost use Rattle.k_locks.specs.Steps.{goes_on, suits};
ghost use Rattle.k_locks.specs.Threads.{IsRunOf};
ghost use Rattle.k_threads.specs.declared.destroy.DestroyVictim.TheVariants.{ReleaseVictimLock};
ghost use Rattle.k_threads.specs.Went.{went_on};
ghost use Rattle.k_threads.specs.Words.{done_after};
ghost use Rattle.k_threads.specs.DestroyTable.{CanPush, IsFit, IsSound, Victim, ask_of, asked, at_of, can_ask, destroy_of, hand_of, heard, is_open, left_of, locks_of, resumed, step_of, went_of};

mod counts;
mod moves;
mod points;
mod steps;

use crate::words::done_after;
use k_ids::{Found, StateWord, ThreadId};
use k_locks::{Answer, Lock, Numbers, Step, Went, is_same, state_word};
use k_ready::ReadyLists;
use k_senders::Senders;
use std::mem;

/// What the section was begun with.
#[derive(Clone, Copy)]
pub struct DestroyCall {
    caller: ThreadId,
    who: ThreadId,
    count: u8,
}

/// The locations of a destroy at which it holds no lock.
#[derive(Clone, Copy)]
pub enum DestroyOutside {
    /// The victim is the caller: is it still there?
    LoadOwn,
    /// The first location of all other destroys.
    AcquireTable,
    /// The section is over.
    Ended(Went),
}

/// The locations of a destroy at which it holds the table lock alone. A number is that of the thread that is visited.
#[derive(Clone, Copy)]
pub enum DestroyLocked {
    LoadCaller,
    AcquireVictimLock,
    AcquireReadyForVictim,
    RemoveContext,
    AcquireVisitedLock(u8),
    Release(DestroyRelease),
}

/// The locations of a destroy at which it releases the table lock.
#[derive(Clone, Copy)]
pub enum DestroyRelease {
    Killed,
    /// There is no such thread. This is what its number shows.
    Absent(Found),
    /// The caller was destroyed.
    Dead,
}

/// The locations of a destroy at which it holds the victim's lock too. A number is that of the first sender in the queue, and
/// a state word is the one that was loaded last.
#[derive(Clone, Copy)]
pub enum DestroyVictim {
    LoadVictim,
    CommitKill(StateWord),
    LoadSender(u8),
    FreeSender(u8, StateWord),
    AcquireReadyForSender(u8, StateWord),
    ReleaseVictimLock,
    /// There is no such thread. This is what its number shows.
    ReleaseVictimLockAbsent(Found),
}

/// The locations of a destroy at which it holds the lock of the number that it visits too.
#[derive(Clone, Copy)]
pub enum DestroyVisit {
    LoadVisited(u8),
    FreeVisited(u8, StateWord),
    AcquireReadyForVisited(u8, StateWord),
    ReleaseVisitedLock(u8),
}

/// The locations of a destroy at which it holds all three locks: it pushes a thread that it has freed.
#[derive(Clone, Copy)]
pub enum DestroyPushing {
    PushSender(u8, StateWord),
    PushVisited(u8, StateWord),
}

/// Where the step was asked for, a release, and what the lock guards went with it: with what is still in hand.
#[derive(Drop)]
pub enum DestroyReturned {
    Numbers(DestroyRelease),
    VictimLock(Numbers),
    VictimLockAbsent(Found, Numbers),
    VisitedLock(u8, Numbers),
    Unlisted(Numbers),
    Pushed(DestroyPushing, Numbers, Senders),
}

/// The location of a destroy, with what is in hand.
#[derive(Drop)]
pub enum DestroyLocation {
    Outside(DestroyOutside),
    Locked(DestroyLocked, Numbers),
    Victim(DestroyVictim, Numbers, Senders),
    Visit(DestroyVisit, Numbers, Senders),
    /// It takes the victim out of the ready lists.
    UnlistVictim(Numbers, ReadyLists),
    Pushing(DestroyPushing, Numbers, Senders, ReadyLists),
    Returned(DestroyReturned),
}

/// The destruction of a thread: a critical section that can stop before any step.
#[derive(Drop)]
pub struct DestroySection {
    pub(crate) call: DestroyCall,
    pub(crate) own: StateWord,
    pub(crate) location: DestroyLocation,
    pub(crate) done: u32,
}

impl DestroySection {
    /// A destroy of `who` by `caller`, whose state word is `own`, at its first location. The table has `count` numbers, 1 to 64.
    pub fn of(caller: ThreadId, own: u64, who: ThreadId, count: u8) -> DestroySection
        requires caller { IsPartner caller }
        requires own { IsRunOf caller own }
        requires victim { IsPartner who }
        requires size { count ≤ 64 }
        requires caller_inside { caller.number < count }
        requires victim_inside { who.number < count }
        ensures section { result ≡ destroy_of (record { caller = caller; who = who; count = count }) (state_word_of own) }
        ensures sound { IsSound result }
        ensures open { can_ask result.location ≡ true }
    {
        let first = if is_same(who, caller) {
            DestroyOutside::LoadOwn
        } else {
            DestroyOutside::AcquireTable
        };
        DestroySection {
            call: DestroyCall { caller, who, count },
            own: state_word(own),
            location: DestroyLocation::Outside(first),
            done: 0,
        }
    }

    /// The step of the location. What a lock guards goes with its release. The step before must have been answered.
    pub fn next(&mut self) -> Step
        requires open { can_ask self.old.location ≡ true }
        requires sound { IsSound self.old }
        requires room { CanPush self.old.call (hand_of self.old.location) (at_of self.old.location) }
        ensures step { result ≡ step_of self.old }
        ensures section { self.new ≡ asked self.old }
        ensures same { at_of self.new.location ≡ at_of self.old.location }
        ensures hand { hand_of self.new.location ≡ hand_asked (ask_of self.old.call self.old.own (at_of self.old.location)) (hand_of self.old.location) }
        ensures sound { IsSound self.new }
        ensures answers { (a : Answer) → suits result a ≡ true → suits (step_of self.new) a ≡ true }
        ensures empty { at_of self.old.location ≡ Victim ReleaseVictimLock → result ≡ step.Release (lock.Thread self.old.call.who.number) (goods.Senders (record { entries = []; room = (hand_of self.old.location).queue.room })) }
    {
        let nowhere = DestroyLocation::Outside(DestroyOutside::AcquireTable);
        let location = mem::replace(&mut self.location, nowhere);
        let (step, left) = location.asked(self.call);
        self.location = left;
        step
    }

    /// Goes on by what came of the step. What a lock guards comes with it. Then the section can be asked for its next step. An
    /// answer that the step can't have leaves the section where it is.
    pub fn resume(&mut self, answer: Answer) -> Went
        requires sound { IsSound self.old }
        requires fit { IsFit (at_of self.old.location) answer }
        ensures section { suits (step_of self.old) answer ≡ true → self.new ≡ resumed self.old answer }
        ensures went { suits (step_of self.old) answer ≡ true → result ≡ went_of self.old.call (hand_of self.old.location) (at_of self.old.location) (heard self.old answer) }
        ensures kept { suits (step_of self.old) answer ≡ false → self.new ≡ record self.old { done = done_after answer self.old.done } }
        ensures told { suits (step_of self.old) answer ≡ false → result ≡ went_on answer }
        ensures sound { IsSound self.new }
        ensures onward { suits (step_of self.old) answer ≡ true → is_open (at_of self.old.location) ≡ true → can_ask self.new.location ≡ goes_on result }
        ensures answered { suits (step_of self.old) answer ≡ true → can_ask self.new.location ≡ is_open (at_of self.new.location) }
        ensures open { is_open (at_of self.old.location) ≡ true → is_open (at_of self.new.location) ≡ goes_on result }
    {
        self.done = done_after(&answer, self.done);
        let nowhere = DestroyLocation::Outside(DestroyOutside::AcquireTable);
        let location = mem::replace(&mut self.location, nowhere);
        let (went, location) = location.resumed(self.call, answer);
        self.location = location;
        went
    }

    /// How many steps the section has made. One that had to be asked for again isn't counted. It stays at the end of its type.
    pub fn done(&self) -> u32
        ensures { result ≡ self.now.done }
    {
        self.done
    }

    /// The caller's state word, as the section knows it.
    pub fn own(&self) -> StateWord
        ensures { result ≡ self.now.own }
    {
        self.own
    }
}
