// The section that creates a thread.
ghost use Rattle.std.specs.Prelude.{◌≡◌, ◌<◌, false, true};
ghost use Rattle.k_ids.specs.StateWords.{IsPartner, state_word_of};
ghost use Rattle.k_locks.specs.Asks.{hand_asked};
ghost use Rattle.k_locks.specs.Steps.{goes_on, suits};
ghost use Rattle.k_locks.specs.Threads.{IsRunOf};
ghost use Rattle.k_threads.specs.Went.{went_on};
ghost use Rattle.k_threads.specs.Words.{done_after};
ghost use Rattle.k_threads.specs.CreateTable.{CanPush, IsFit, IsSound, ask_of, asked, at_of, can_ask, create_of, hand_of, heard, is_open, left_of, left_table, locks_of, resumed, step_of, went_of};

mod moves;
mod points;
mod steps;

use crate::words::done_after;
use k_ids::{StateWord, ThreadId};
use k_locks::{Answer, Lock, Numbers, Step, Went, state_word};
use k_ready::ReadyLists;
use std::mem;

/// What the section was begun with.
#[derive(Clone, Copy)]
pub struct CreateCall {
    caller: ThreadId,
    program: u8,
    priority: u8,
}

/// The locations of a create at which it holds no lock.
#[derive(Clone, Copy)]
pub enum CreateOutside {
    AcquireTable,
    /// The section is over.
    Ended(Went),
}

/// The locations of a create at which it holds the table lock.
#[derive(Clone, Copy)]
pub enum CreateLocked {
    LoadCaller,
    PlaceContext(ThreadId),
    CommitCreate(ThreadId),
    AcquireReady(ThreadId),
    Release(CreateRelease),
}

/// The locations of a create at which it releases the table lock.
#[derive(Clone, Copy)]
pub enum CreateRelease {
    Made(ThreadId),
    /// No number is free. So many have a thread, and so many have had their last.
    Full { alive: u8, worn: u8 },
    /// The caller was destroyed.
    Dead,
}

/// The location of a create, with what is in hand.
#[derive(Drop)]
pub enum CreateLocation {
    Outside(CreateOutside),
    Locked(CreateLocked, Numbers),
    /// It puts the new thread into the ready lists.
    PushCreated(ThreadId, Numbers, ReadyLists),
    /// That step was asked for, and the ready lists went with it.
    ListsReturned(ThreadId, Numbers),
    /// The step of this location was asked for, and the thread numbers went with it.
    NumbersReturned(CreateRelease),
}

/// The creation of a thread: a critical section that can stop before any step.
#[derive(Drop)]
pub struct CreateSection {
    pub(crate) call: CreateCall,
    pub(crate) own: StateWord,
    pub(crate) location: CreateLocation,
    pub(crate) done: u32,
}

impl CreateSection {
    /// A create of `caller`, whose state word is `own`, at its first location. The new thread runs this program with this
    /// priority, 0 to 63.
    pub fn of(caller: ThreadId, own: u64, program: u8, priority: u8) -> CreateSection
        requires caller { IsPartner caller }
        requires own { IsRunOf caller own }
        requires priority { priority < 64 }
        ensures section { result ≡ create_of (record { caller = caller; program = program; priority = priority }) (state_word_of own) }
        ensures sound { IsSound result }
        ensures open { can_ask result.location ≡ true }
    {
        CreateSection {
            call: CreateCall {
                caller,
                program,
                priority,
            },
            own: state_word(own),
            location: CreateLocation::Outside(CreateOutside::AcquireTable),
            done: 0,
        }
    }

    /// The step of the location. What a lock guards goes with its release. The step before must have been answered.
    pub fn next(&mut self) -> Step
        requires open { can_ask self.old.location ≡ true }
        requires sound { IsSound self.old }
        requires room { CanPush self.old.call (hand_of self.old.location) (at_of self.old.location) }
        ensures step { result ≡ step_of self.old }
        ensures section { self.new ≡ asked self.old }
        ensures same { at_of self.new.location ≡ at_of self.old.location }
        ensures hand { hand_of self.new.location ≡ hand_asked (ask_of self.old.call self.old.own (at_of self.old.location)) (hand_of self.old.location) }
        ensures sound { IsSound self.new }
        ensures answers { (a : Answer) → suits result a ≡ true → suits (step_of self.new) a ≡ true }
    {
        let nowhere = CreateLocation::Outside(CreateOutside::AcquireTable);
        let location = mem::replace(&mut self.location, nowhere);
        let (step, left) = location.asked(self.call);
        self.location = left;
        step
    }

    /// Goes on by what came of the step. What a lock guards comes with it. Then the section can be asked for its next step. An
    /// answer that the step can't have leaves the section where it is.
    pub fn resume(&mut self, answer: Answer) -> Went
        requires sound { IsSound self.old }
        requires fit { IsFit (at_of self.old.location) answer }
        ensures section { suits (step_of self.old) answer ≡ true → self.new ≡ resumed self.old answer }
        ensures went { suits (step_of self.old) answer ≡ true → result ≡ went_of self.old.call (hand_of self.old.location) (at_of self.old.location) (heard self.old answer) }
        ensures kept { suits (step_of self.old) answer ≡ false → self.new ≡ record self.old { done = done_after answer self.old.done } }
        ensures told { suits (step_of self.old) answer ≡ false → result ≡ went_on answer }
        ensures sound { IsSound self.new }
        ensures onward { suits (step_of self.old) answer ≡ true → is_open (at_of self.old.location) ≡ true → can_ask self.new.location ≡ goes_on result }
        ensures answered { suits (step_of self.old) answer ≡ true → can_ask self.new.location ≡ is_open (at_of self.new.location) }
        ensures open { is_open (at_of self.old.location) ≡ true → is_open (at_of self.new.location) ≡ goes_on result }
    {
        self.done = done_after(&answer, self.done);
        let nowhere = CreateLocation::Outside(CreateOutside::AcquireTable);
        let location = mem::replace(&mut self.location, nowhere);
        let (went, location) = location.resumed(self.call, answer);
        self.location = location;
        went
    }
}

// What it holds, and how far it is.
impl CreateSection {
    /// The locks that the section holds, by rank.
    pub fn holds(&self) -> [Option<Lock>; 3]
        ensures { result ≡ locks_of self.now.call (at_of self.now.location) }
    {
        match self.location {
            CreateLocation::Outside(_) => [None, None, None],
            CreateLocation::Locked(_, _) | CreateLocation::NumbersReturned(_) => {
                [Some(Lock::Table), None, None]
            }
            CreateLocation::PushCreated(_, _, _) | CreateLocation::ListsReturned(_, _) => {
                [Some(Lock::Table), None, Some(Lock::Ready)]
            }
        }
    }

    /// How many steps are left until a lock is released, that release included. It is 0 of a lock that isn't held.
    pub fn left(&self, lock: Lock) -> u32
        ensures { result ≡ left_of self.now.call (hand_of self.now.location) (at_of self.now.location) lock }
    {
        match lock {
            Lock::Table => left_table(&self.location),
            Lock::Thread(_) => 0,
            Lock::Ready => match self.location {
                CreateLocation::PushCreated(_, _, _) | CreateLocation::ListsReturned(_, _) => 1,
                CreateLocation::Outside(_)
                | CreateLocation::Locked(_, _)
                | CreateLocation::NumbersReturned(_) => 0,
            },
        }
    }

    /// How many steps the section has made. One that had to be asked for again isn't counted. It stays at the end of its type.
    pub fn done(&self) -> u32
        ensures { result ≡ self.now.done }
    {
        self.done
    }

    /// The caller's state word, as the section knows it.
    pub fn own(&self) -> StateWord
        ensures { result ≡ self.now.own }
    {
        self.own
    }
}

fn left_table(location: &CreateLocation) -> u32
    ensures { result ≡ left_table (at_of location.now) }
{
    match location {
        CreateLocation::Outside(_) => 0,
        CreateLocation::Locked(at, _) => match at {
            CreateLocked::LoadCaller => 6,
            CreateLocked::PlaceContext(_) => 5,
            CreateLocked::CommitCreate(_) => 4,
            CreateLocked::AcquireReady(_) => 3,
            CreateLocked::Release(_) => 1,
        },
        CreateLocation::PushCreated(_, _, _) | CreateLocation::ListsReturned(_, _) => 2,
        CreateLocation::NumbersReturned(_) => 1,
    }
}
