// What a thread's context is about: a section, or one of the thread's own locations.
ghost use Rattle.std.specs.Prelude.{◌≡◌, true, false, ℕ, None};
ghost use Rattle.k_ids.specs.declared.state_word.StateWord.{StateWord};
ghost use Rattle.k_ids.specs.declared.threads.ThreadId.{ThreadId};
ghost use Rattle.k_ids.specs.StateWords.{IsPartner};
ghost use Rattle.k_locks.specs.declared.steps.Answer.{Answer};
ghost use Rattle.k_locks.specs.Steps as steps;
ghost use Rattle.k_locks.specs.Steps.{is_again, suits};
ghost use Rattle.k_caller.specs.declared.activity.Activity.TheVariants as activity;
ghost use Rattle.k_caller.specs.Owns.{EndOwns, IsPicking};
ghost use Rattle.k_ipc.specs.SendTable as send;
ghost use Rattle.k_ipc.specs.ReceiveTable as receive;
ghost use Rattle.k_threads.specs.CreateTable as create;
ghost use Rattle.k_threads.specs.DestroyTable as destroy;
ghost use Rattle.k_caller.specs.Activities.{CanPush, IsFitAt, IsSoundAt, IsSoundCreate, IsSoundDestroy, IsSoundReceive, IsSoundSend, activity_after, after_went, asked_activity, can_ask, goes_on, has_next, is_asleep, is_dead, is_of_call, is_open, left_of, locks_of, own_after, points_at, ran_after, ran_at, section_own, section_resumed, section_went, step_at};
ghost use Rattle.k_caller.specs.Waits as alone;

use crate::ran::Ran;
use crate::thread::ThreadLocation;
use k_ids::{StateWord, ThreadId};
use k_ipc::{ReceiveSection, SendSection};
use k_locks::{Answer, Lock, Point, Step, Went};
use k_threads::{CreateSection, DestroySection};

/// What a thread is about.
#[derive(Drop)]
pub enum Activity {
    /// No critical section.
    Alone(ThreadLocation),
    Send(SendSection),
    /// A receive, or the pick that follows a reply.
    Receive(ReceiveSection),
    Create(CreateSection),
    Destroy(DestroySection),
}

impl Activity {
    /// The step that it asks for, and what is left of it.
    pub fn asked(self, me: ThreadId, own: StateWord) -> (Step, Activity)
        requires open { can_ask self ≡ true }
        requires sound { IsSoundAt me own self }
        requires room { CanPush self }
        ensures step { result.0 ≡ step_at me own self }
        ensures left { result.1 ≡ asked_activity self }
        ensures open { is_open result.1 ≡ true }
        ensures sound { IsSoundAt me own result.1 }
        ensures answers { (a : Answer) → suits result.0 a ≡ true → suits (step_at me own result.1) a ≡ true }
    {
        match self {
            Activity::Alone(at) => (at.step(me, own), Activity::Alone(at)),
            Activity::Send(mut section) => (section.next(), Activity::Send(section)),
            Activity::Receive(mut section) => (section.next(), Activity::Receive(section)),
            Activity::Create(mut section) => (section.next(), Activity::Create(section)),
            Activity::Destroy(mut section) => (section.next(), Activity::Destroy(section)),
        }
    }

    /// What it is after an answer that isn't for the same step again, the thread's own word then, and what is told in the call
    /// of this serial.
    pub fn resumed(
        self,
        me: ThreadId,
        own: StateWord,
        serial: u32,
        answer: Answer,
    ) -> (Activity, StateWord, Ran)
        requires id { IsPartner me }
        requires sound { IsSoundAt me own self }
        requires going { is_open self ≡ true }
        requires suiting { suits (step_at me own self) answer ≡ true }
        requires fit { IsFitAt me own self answer }
        requires onward { is_again answer ≡ false }
        ensures activity { result.0 ≡ activity_after me own self answer }
        ensures own { result.1 ≡ own_after me own self answer }
        ensures ran { result.2 ≡ ran_at serial me own self answer }
        ensures sound { IsSoundAt me result.1 result.0 }
        ensures onward { has_next result.0 ≡ goes_on result.2 }
    {
        match self {
            Activity::Alone(at) => alone_resumed(at, me, own, serial, answer),
            Activity::Send(section) => send_resumed(section, me, own, serial, answer),
            Activity::Receive(section) => receive_resumed(section, me, own, serial, answer),
            Activity::Create(section) => create_resumed(section, me, own, serial, answer),
            Activity::Destroy(section) => destroy_resumed(section, me, own, serial, answer),
        }
    }

    /// The locks that it holds, by rank.
    pub fn holds(&self) -> [Option<Lock>; 3]
        ensures { result ≡ locks_of self.now }
    {
        match self {
            Activity::Alone(_at) => [None, None, None],
            Activity::Send(section) => section.holds(),
            Activity::Receive(section) => section.holds(),
            Activity::Create(section) => section.holds(),
            Activity::Destroy(section) => section.holds(),
        }
    }

    /// How many steps are left until a lock that it holds is released, that release included.
    pub fn left(&self, me: ThreadId, own: StateWord, lock: Lock) -> u32
        requires { IsSoundAt me own self.now }
        ensures { result ≡ left_of self.now lock }
    {
        match self {
            Activity::Alone(_at) => 0,
            Activity::Send(section) => section.left(lock),
            Activity::Receive(section) => section.left(lock),
            Activity::Create(section) => section.left(lock),
            Activity::Destroy(section) => section.left(lock),
        }
    }

    /// The event that its step makes where it has this answer, if any. `caller` is the thread's state word at this very step.
    pub fn point(
        &self,
        me: ThreadId,
        own: StateWord,
        caller: &StateWord,
        answer: &Answer,
    ) -> Option<Point>
        requires sound { IsSoundAt me own self.now }
        requires fit { IsFitAt me own self.now answer.now }
        ensures { result ≡ points_at me own self.now caller.now answer.now }
    {
        match self {
            Activity::Alone(at) => match answer {
                Answer::Got(_goods) => None,
                Answer::Told(told) => at.point(me, *told),
            },
            Activity::Send(section) => section.point(caller, answer),
            Activity::Receive(section) => section.point(caller, answer),
            Activity::Create(section) => section.point(caller, answer),
            Activity::Destroy(section) => section.point(caller, answer),
        }
    }

    /// Whether it waits and isn't on.
    pub fn is_asleep(&self) -> bool
        ensures { result ≡ is_asleep self.now }
    {
        matches!(self, Activity::Alone(ThreadLocation::Asleep))
    }

    /// Whether its thread was destroyed.
    pub fn is_dead(&self) -> bool
        ensures { result ≡ is_dead self.now }
    {
        matches!(self, Activity::Alone(ThreadLocation::Dead))
    }

    /// Whether its step belongs to a call.
    pub fn is_of_call(&self) -> bool
        ensures { result ≡ is_of_call self.now }
    {
        match self {
            Activity::Alone(at) => at.is_of_call(),
            _ => true,
        }
    }
}

// A step of a thread that is in no section.
#[tactic(auto, using(crate::proofs::Onward::alone_next))]
fn alone_resumed(
    at: ThreadLocation,
    me: ThreadId,
    own: StateWord,
    serial: u32,
    answer: Answer,
) -> (Activity, StateWord, Ran)
    requires sound { alone.IsSoundAt me own at }
    requires going { alone.can_ask at ≡ true }
    requires fit { IsFitAt me own (activity.Alone at) answer }
    ensures activity { result.0 ≡ activity_after me own (activity.Alone at) answer }
    ensures own { result.1 ≡ own_after me own (activity.Alone at) answer }
    ensures ran { result.2 ≡ ran_at serial me own (activity.Alone at) answer }
    ensures sound { IsSoundAt me result.1 result.0 }
    ensures onward { has_next result.0 ≡ goes_on result.2 }
{
    match answer {
        Answer::Got(_goods) => unreachable!(),
        Answer::Told(told) => {
            let (location, own) = at.resumed(me, own, told);
            (Activity::Alone(location), own, location.ran(serial))
        }
    }
}

// What a thread is about, and what is told, where its section has gone on so.
#[tactic(auto, using(crate::proofs::Onward::ended_next))]
fn ended(
    section: Activity,
    me: ThreadId,
    own: StateWord,
    serial: u32,
    went: Went,
) -> (Activity, StateWord, Ran)
    requires id { IsPartner me }
    requires section { IsSoundAt me own section }
    requires own { EndOwns me own went }
    requires going { steps.goes_on went ≡ true → can_ask section ≡ true }
    ensures activity { result.0 ≡ after_went me own section went }
    ensures own { result.1 ≡ own }
    ensures ran { result.2 ≡ ran_after serial went }
    ensures sound { IsSoundAt me own result.0 }
    ensures onward { has_next result.0 ≡ goes_on result.2 }
{
    (
        after_went(section, me, own, went),
        own,
        ran_after(serial, went),
    )
}

// Where its section goes on, the thread stays in it; else it waits, is between two calls, was destroyed, or picks.
#[tactic(auto, using(crate::proofs::Resumed::ended_sound))]
fn after_went(section: Activity, me: ThreadId, own: StateWord, went: Went) -> Activity
    requires id { IsPartner me }
    requires section { IsSoundAt me own section }
    requires own { EndOwns me own went }
    ensures activity { result ≡ after_went me own section went }
    ensures sound { IsSoundAt me own result }
{
    match went {
        Went::On | Went::Again | Went::Pushed { .. } => section,
        Went::Waits => Activity::Alone(ThreadLocation::FallAsleep),
        Went::Ends(reply) => Activity::Alone(ThreadLocation::Between(Some(reply))),
        Went::CallerDead => Activity::Alone(ThreadLocation::Dead),
        Went::Picks => Activity::Receive(pick(me, own)),
    }
}

// The pick of a thread that has replied.
fn pick(me: ThreadId, own: StateWord) -> ReceiveSection
    requires id { IsPartner me }
    requires own { IsPicking me own }
    ensures { result ≡ receive.receive_of (record { caller = me; from = None; zero = false; picks = true }) own }
{
    ReceiveSection::of_pick(me, own.bits())
}

fn ran_after(serial: u32, went: Went) -> Ran
    ensures { result ≡ ran_after serial went }
{
    match went {
        Went::On | Went::Waits | Went::Picks => Ran::On,
        Went::Again => Ran::Again,
        Went::Pushed { priority } => Ran::Pushed { priority },
        Went::Ends(reply) => Ran::Replied { serial, reply },
        Went::CallerDead => Ran::Dead,
    }
}

// A step of a send.
#[tactic(auto, using(crate::proofs::Owned::send_section_goes, crate::proofs::Resumed::send_resumed))]
fn send_resumed(
    mut section: SendSection,
    me: ThreadId,
    own: StateWord,
    serial: u32,
    answer: Answer,
) -> (Activity, StateWord, Ran)
    requires id { IsPartner me }
    requires sound { IsSoundSend me section }
    requires going { send.is_open (send.at_of section.location) ≡ true }
    requires suiting { suits (send.step_of section) answer ≡ true }
    requires fit { send.IsFit (send.at_of section.location) answer }
    requires onward { is_again answer ≡ false }
    ensures activity { result.0 ≡ activity_after me own (activity.Send section) answer }
    ensures own { result.1 ≡ own_after me own (activity.Send section) answer }
    ensures ran { result.2 ≡ ran_at serial me own (activity.Send section) answer }
    ensures sound { IsSoundAt me result.1 result.0 }
    ensures onward { has_next result.0 ≡ goes_on result.2 }
{
    let went = section.resume(answer);
    let now = section.own();
    ended(Activity::Send(section), me, now, serial, went)
}

// A step of a receive.
#[tactic(auto, using(crate::proofs::Owned::receive_section_goes, crate::proofs::Resumed::receive_resumed))]
fn receive_resumed(
    mut section: ReceiveSection,
    me: ThreadId,
    own: StateWord,
    serial: u32,
    answer: Answer,
) -> (Activity, StateWord, Ran)
    requires id { IsPartner me }
    requires sound { IsSoundReceive me section }
    requires going { receive.is_open (receive.at_of section.location) ≡ true }
    requires suiting { suits (receive.step_of section) answer ≡ true }
    requires fit { receive.IsFit (receive.at_of section.location) answer }
    requires onward { is_again answer ≡ false }
    ensures activity { result.0 ≡ activity_after me own (activity.Receive section) answer }
    ensures own { result.1 ≡ own_after me own (activity.Receive section) answer }
    ensures ran { result.2 ≡ ran_at serial me own (activity.Receive section) answer }
    ensures sound { IsSoundAt me result.1 result.0 }
    ensures onward { has_next result.0 ≡ goes_on result.2 }
{
    let went = section.resume(answer);
    let now = section.own();
    ended(Activity::Receive(section), me, now, serial, went)
}

// A step of a create.
#[tactic(auto, using(crate::proofs::Owned::create_section_goes, crate::proofs::Resumed::create_resumed))]
fn create_resumed(
    mut section: CreateSection,
    me: ThreadId,
    own: StateWord,
    serial: u32,
    answer: Answer,
) -> (Activity, StateWord, Ran)
    requires id { IsPartner me }
    requires sound { IsSoundCreate me section }
    requires going { create.is_open (create.at_of section.location) ≡ true }
    requires suiting { suits (create.step_of section) answer ≡ true }
    requires fit { create.IsFit (create.at_of section.location) answer }
    requires onward { is_again answer ≡ false }
    ensures activity { result.0 ≡ activity_after me own (activity.Create section) answer }
    ensures own { result.1 ≡ own_after me own (activity.Create section) answer }
    ensures ran { result.2 ≡ ran_at serial me own (activity.Create section) answer }
    ensures sound { IsSoundAt me result.1 result.0 }
    ensures onward { has_next result.0 ≡ goes_on result.2 }
{
    let went = section.resume(answer);
    let now = section.own();
    ended(Activity::Create(section), me, now, serial, went)
}

// A step of a destroy.
#[tactic(auto, using(crate::proofs::Owned::destroy_section_goes, crate::proofs::Resumed::destroy_resumed))]
fn destroy_resumed(
    mut section: DestroySection,
    me: ThreadId,
    own: StateWord,
    serial: u32,
    answer: Answer,
) -> (Activity, StateWord, Ran)
    requires id { IsPartner me }
    requires sound { IsSoundDestroy me section }
    requires going { destroy.is_open (destroy.at_of section.location) ≡ true }
    requires suiting { suits (destroy.step_of section) answer ≡ true }
    requires fit { destroy.IsFit (destroy.at_of section.location) answer }
    requires onward { is_again answer ≡ false }
    ensures activity { result.0 ≡ activity_after me own (activity.Destroy section) answer }
    ensures own { result.1 ≡ own_after me own (activity.Destroy section) answer }
    ensures ran { result.2 ≡ ran_at serial me own (activity.Destroy section) answer }
    ensures sound { IsSoundAt me result.1 result.0 }
    ensures onward { has_next result.0 ≡ goes_on result.2 }
{
    let went = section.resume(answer);
    let now = section.own();
    ended(Activity::Destroy(section), me, now, serial, went)
}
