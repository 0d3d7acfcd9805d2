// A switch: a carrier gives the processor to the thread that is to go on.
ghost use Rattle.std.specs.Prelude.{◌≡◌, ◌≤◌, ◌<◌, false, true, IfSome, is_none};
ghost use Rattle.k_ids.specs.StateWords.{IsStateWord};
ghost use Rattle.k_ready.specs.Lists.{IsInNone};
ghost use Rattle.k_locks.specs.declared.steps.Answer.{Answer};
ghost use Rattle.k_locks.specs.declared.steps.Answer.TheVariants as answer;
ghost use Rattle.k_locks.specs.declared.locks.WordName.TheVariants as word;
ghost use Rattle.k_locks.specs.declared.steps.Step.TheVariants as step;
ghost use Rattle.k_locks.specs.Asks as plain;
ghost use Rattle.k_locks.specs.Hands.{Hand};
ghost use Rattle.k_locks.specs.Steps.{is_again, suits};
ghost use Rattle.k_switch.specs.declared.switch.SwitchLocation.TheVariants as location;
ghost use Rattle.k_switch.specs.Switches.{CanFill, CanPush, IsFit, IsGoal, IsSound, IsSoundAt, IsSoundLocked, Locked, asked, asked_location, at_of, can_ask, entered, filled, hand_of, is_asked, leads, left_locked, left_of, location_after, locks_of, put_back, resumed, shown_on, step_of, switch_of, switched_at, switched_by, taken, to_goal, to_start, uncounted};

use crate::goal::{Goal, Switched};
use k_ids::{StateWord, ThreadId};
use k_locks::{Answer, Goods, Lock, Step, Told, WordName, is_present_in, state_word};
use k_ready::ReadyLists;
use std::mem;

/// What a switch is given.
#[derive(Clone, Copy, Debug, PartialEq, Eq)]
pub struct SwitchCall {
    /// The thread that the carrier ran.
    pub goal: Option<Goal>,
    /// The carrier is counted as running a thread.
    pub counted: bool,
    /// The slice of time has ended: the thread that ran goes to the end of its list.
    pub slice_ended: bool,
    /// The number whose first thread is started.
    pub start: Option<u8>,
}

/// The locations of a switch at which it holds the ready lock.
#[derive(Clone, Copy, Debug, PartialEq, Eq)]
pub enum SwitchLocked {
    /// Is the thread that ran still there, and on?
    LoadGoal(Goal),
    /// Is the thread that is to be started still there?
    LoadStart {
        /// The thread that goes back into its list.
        back: Option<Goal>,
        number: u8,
    },
    /// The next thread is taken, and the lists go home.
    ReleaseReady {
        back: Option<Goal>,
        /// The thread that is started.
        started: Option<Goal>,
    },
}

/// The location of a switch, with what is in hand.
#[derive(Drop)]
pub enum SwitchLocation {
    AcquireReady,
    Locked(SwitchLocked, ReadyLists),
    /// The release was asked for, and the ready lists went with it. This has come of them.
    ListsReturned(Switched),
    /// The switch is over.
    Finished(Switched),
}

/// A switch.
#[derive(Drop)]
pub struct Switch {
    pub(crate) call: SwitchCall,
    pub(crate) location: SwitchLocation,
}

impl Switch {
    /// A switch at its first location.
    pub fn of(call: SwitchCall) -> Switch
        ensures { result ≡ switch_of call }
    {
        Switch {
            call,
            location: SwitchLocation::AcquireReady,
        }
    }

    /// The step of the location. The ready lists go with their release.
    pub fn next(&mut self) -> Step
        requires open { can_ask self.old.location ≡ true }
        requires sound { IsSound self.old }
        requires room { CanPush self.old.call (hand_of self.old.location) (at_of self.old.location) }
        ensures step { result ≡ step_of self.old }
        ensures switch { self.new ≡ asked self.old }
        ensures sound { IsSound self.new }
        ensures asked { is_asked (at_of self.new.location) ≡ true }
        ensures answers { (a : Answer) → suits result a ≡ true → suits (step_of self.new) a ≡ true }
    {
        match mem::replace(&mut self.location, SwitchLocation::AcquireReady) {
            SwitchLocation::Locked(at, lists) => {
                let (step, location) = asked_locked(self.call, at, lists);
                self.location = location;
                step
            }
            _ => Step::Acquire(Lock::Ready),
        }
    }

    /// Goes on by the answer to the step. Its next step can be asked for, unless it is over.
    #[tactic(auto, using(crate::proofs::Onward::again_onward))]
    pub fn resume(&mut self, answer: Answer)
        requires asked { is_asked (at_of self.old.location) ≡ true }
        requires sound { IsSound self.old }
        requires suits { suits (step_of self.old) answer ≡ true }
        requires fit { IsFit answer }
        ensures switch { self.new ≡ resumed self.old answer }
        ensures sound { IsSound self.new }
        ensures onward { can_ask self.new.location ≡ is_none (switched_at self.new.location) }
    {
        if answer.is_again() {
            return;
        }
        let location = mem::replace(&mut self.location, SwitchLocation::AcquireReady);
        self.location = location.moved(self.call, answer);
    }
}

impl SwitchLocation {
    // Where the switch stands after an answer that isn't for the same step again.
    fn moved(self, call: SwitchCall, answer: Answer) -> SwitchLocation
        requires sound { IsSoundAt (at_of self) }
        requires goal { IfSome call.goal IsGoal }
        requires start { IfSome call.start (λ number. number < 64) }
        requires suits { suits (step_of (record { call = call; location = self })) answer ≡ true }
        requires asked { is_asked (at_of self) ≡ true }
        requires onward { is_again answer ≡ false }
        requires fit { IsFit answer }
        ensures location { result ≡ location_after call self answer }
        ensures sound { IsSoundAt (at_of result) }
        ensures onward { can_ask result ≡ is_none (switched_at result) }
    {
        match answer {
            Answer::Got(goods) => self.got(call, goods),
            Answer::Told(told) => self.told(call, told),
        }
    }

    // Where it stands once it has what a lock guards.
    fn got(self, call: SwitchCall, goods: Goods) -> SwitchLocation
        requires goal { IfSome call.goal IsGoal }
        requires start { IfSome call.start (λ number. number < 64) }
        requires suits { suits (step_of (record { call = call; location = self })) (answer.Got goods) ≡ true }
        requires asked { is_asked (at_of self) ≡ true }
        ensures location { result ≡ location_after call self (answer.Got goods) }
        ensures sound { IsSoundAt (at_of result) }
        ensures onward { can_ask result ≡ is_none (switched_at result) }
    {
        match goods {
            Goods::Ready(lists) => SwitchLocation::Locked(first_locked(call), lists),
            Goods::Numbers(_numbers) => unreachable!(),
            Goods::Senders(_senders) => unreachable!(),
        }
    }

    // Where it stands once it was told this.
    fn told(self, call: SwitchCall, told: Told) -> SwitchLocation
        requires sound { IsSoundAt (at_of self) }
        requires start { IfSome call.start (λ number. number < 64) }
        requires suits { suits (step_of (record { call = call; location = self })) (answer.Told told) ≡ true }
        requires asked { is_asked (at_of self) ≡ true }
        requires onward { is_again (answer.Told told) ≡ false }
        requires fit { IsFit (answer.Told told) }
        ensures location { result ≡ location_after call self (answer.Told told) }
        ensures sound { IsSoundAt (at_of result) }
        ensures onward { can_ask result ≡ is_none (switched_at result) }
    {
        match self {
            SwitchLocation::Locked(at, lists) => match told {
                Told::Loaded(bits) => {
                    SwitchLocation::Locked(at.loaded(call, state_word(bits)), lists)
                }
                _ => unreachable!(),
            },
            SwitchLocation::ListsReturned(switched) => SwitchLocation::Finished(switched),
            SwitchLocation::AcquireReady | SwitchLocation::Finished(_) => unreachable!(),
        }
    }
}

// The step at a location with the ready lock, and where the switch stands then.
fn asked_locked(call: SwitchCall, at: SwitchLocked, lists: ReadyLists) -> (Step, SwitchLocation)
    requires sound { IsSoundLocked at }
    requires room { CanPush call (hand_of (location.Locked at lists)) (Locked at) }
    ensures step { result.0 ≡ step_of (record { call = call; location = location.Locked at lists }) }
    ensures location { result.1 ≡ asked_location call (location.Locked at lists) }
{
    match at {
        SwitchLocked::LoadGoal(goal) => (load(goal.id.number), SwitchLocation::Locked(at, lists)),
        SwitchLocked::LoadStart { number, .. } => {
            (load(number), SwitchLocation::Locked(at, lists))
        }
        SwitchLocked::ReleaseReady { back, started } => {
            let (lists, switched) = switch_lists(call, back, started, lists);
            let step = Step::Release {
                lock: Lock::Ready,
                goods: Goods::Ready(lists),
            };
            (step, SwitchLocation::ListsReturned(switched))
        }
    }
}

fn load(number: u8) -> Step
    ensures { result ≡ step.Load (word.State number) }
{
    Step::Load(WordName::State(number))
}

/// What the release makes of the ready lists: who ran goes back, who is started comes in, and the next one is taken.
fn switch_lists(
    call: SwitchCall,
    back: Option<Goal>,
    started: Option<Goal>,
    lists: ReadyLists,
) -> (ReadyLists, Switched)
    requires back { IfSome back IsGoal }
    requires started { IfSome started IsGoal }
    requires fill { CanFill call back started lists }
    ensures lists { result.0 ≡ taken (filled call back started lists) }
    ensures switched { result.1 ≡ switched_by (filled call back started lists) }
{
    let lists = put_back(call.slice_ended, back, uncounted(call.counted, lists));
    take_next(entered(started, lists))
}

fn uncounted(is_counted: bool, mut lists: ReadyLists) -> ReadyLists
    requires { is_counted ≡ true → 1 ≤ lists.running }
    ensures { result ≡ uncounted is_counted lists }
{
    if is_counted {
        lists.set_running(lists.running() - 1);
    }
    lists
}

/// Puts a thread back: to the front of its list, or to its end where its slice of time has ended.
fn put_back(slice_ended: bool, back: Option<Goal>, mut lists: ReadyLists) -> ReadyLists
    requires goal { IfSome back IsGoal }
    requires fresh { IfSome back (λ g. IsInNone g.id.number lists.lists) }
    ensures { result ≡ put_back slice_ended back lists }
{
    match back {
        None => {}
        Some(goal) if slice_ended => {
            lists.push(goal.id.number, goal.id.version, goal.priority);
        }
        Some(goal) => lists.push_first(goal.id.number, goal.id.version, goal.priority),
    }
    lists
}

/// Puts a thread that is started to the end of its list.
fn entered(started: Option<Goal>, mut lists: ReadyLists) -> ReadyLists
    requires goal { IfSome started IsGoal }
    requires fresh { IfSome started (λ g. IsInNone g.id.number lists.lists) }
    ensures { result ≡ entered started lists }
{
    if let Some(goal) = started {
        lists.push(goal.id.number, goal.id.version, goal.priority);
    }
    lists
}

/// Takes the first thread of the highest list, and counts it as run.
fn take_next(mut lists: ReadyLists) -> (ReadyLists, Switched)
    requires { lists.running ≤ 8 }
    ensures lists { result.0 ≡ taken lists }
    ensures switched { result.1 ≡ switched_by lists }
{
    let running = lists.running();
    match lists.pop_highest() {
        None => {
            let switched = Switched {
                goal: None,
                idle: running == 0,
            };
            (lists, switched)
        }
        Some((number, version, priority)) => {
            lists.set_running(running + 1);
            let id = ThreadId { number, version };
            let switched = Switched {
                goal: Some(Goal { id, priority }),
                idle: false,
            };
            (lists, switched)
        }
    }
}

// The first location with the ready lock.
fn first_locked(call: SwitchCall) -> SwitchLocked
    requires goal { IfSome call.goal IsGoal }
    requires start { IfSome call.start (λ number. number < 64) }
    ensures location { result ≡ to_goal call.start call.goal }
    ensures sound { IsSoundLocked result }
{
    match call.goal {
        Some(goal) => SwitchLocked::LoadGoal(goal),
        None => to_start(call.start, None),
    }
}

// On to the thread that is started, if there is one.
fn to_start(start: Option<u8>, back: Option<Goal>) -> SwitchLocked
    requires start { IfSome start (λ number. number < 64) }
    requires back { IfSome back IsGoal }
    ensures location { result ≡ to_start start back }
    ensures sound { IsSoundLocked result }
{
    match start {
        Some(number) => SwitchLocked::LoadStart { back, number },
        None => SwitchLocked::ReleaseReady {
            back,
            started: None,
        },
    }
}

/// The thread with its priority, where its word shows that it is there and on.
fn shown_on(id: ThreadId, word: StateWord) -> Option<Goal>
    requires word { IsStateWord word }
    requires number { id.number < 64 }
    ensures goal { result ≡ shown_on id word }
    ensures sound { IfSome result IsGoal }
{
    if is_present_in(&word, id) && word.on {
        Some(Goal {
            id,
            priority: word.priority,
        })
    } else {
        None
    }
}

impl SwitchLocked {
    // Where a load leads.
    fn loaded(self, call: SwitchCall, word: StateWord) -> SwitchLocked
        requires sound { IsSoundLocked self }
        requires start { IfSome call.start (λ number. number < 64) }
        requires word { IsStateWord word }
        ensures location { (h : Hand) → Locked result ≡ leads call h (Locked self) (plain.Word word) }
        ensures sound { IsSoundLocked result }
    {
        match self {
            SwitchLocked::LoadGoal(goal) => to_start(call.start, shown_on(goal.id, word)),
            SwitchLocked::LoadStart { back, number } => SwitchLocked::ReleaseReady {
                back,
                started: shown_on(ThreadId { number, version: 1 }, word),
            },
            SwitchLocked::ReleaseReady { .. } => self,
        }
    }
}

// What it holds, and how far it is.
impl Switch {
    /// What it has come to, once it is over.
    pub fn switched(&self) -> Option<Switched>
        ensures { result ≡ switched_at self.now.location }
    {
        match self.location {
            SwitchLocation::Finished(switched) => Some(switched),
            _ => None,
        }
    }

    /// The locks that it holds, by rank.
    pub fn holds(&self) -> [Option<Lock>; 3]
        ensures { result ≡ locks_of (at_of self.now.location) }
    {
        match self.location {
            SwitchLocation::Locked(..) | SwitchLocation::ListsReturned(_) => [
                None,
                None,
                Some(Lock::Ready),
            ],
            SwitchLocation::AcquireReady | SwitchLocation::Finished(_) => [None, None, None],
        }
    }

    /// How many steps are left until the ready lock is released, that release included; 0 where it isn't held.
    pub fn left(&self, lock: Lock) -> u32
        ensures { result ≡ left_of self.now.call (at_of self.now.location) lock }
    {
        match lock {
            Lock::Table | Lock::Thread(_) => 0,
            Lock::Ready => match &self.location {
                SwitchLocation::Locked(at, _) => left_locked(self.call, *at),
                SwitchLocation::ListsReturned(_) => 1,
                SwitchLocation::AcquireReady | SwitchLocation::Finished(_) => 0,
            },
        }
    }
}

fn left_locked(call: SwitchCall, at: SwitchLocked) -> u32
    ensures { result ≡ left_locked call at }
{
    match at {
        SwitchLocked::LoadGoal(_) => if call.start.is_some() { 3 } else { 2 },
        SwitchLocked::LoadStart { .. } => 2,
        SwitchLocked::ReleaseReady { .. } => 1,
    }
}
