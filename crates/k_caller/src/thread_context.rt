// A thread's context.
ghost use Rattle.std.specs.Prelude.{◌≡◌, ◌<◌, ◌≤◌, ℕ, IfSome, if◌then◌else◌, true, false, Some, None};
ghost use Rattle.k_ids.specs.StateWords.{IsPartner, state_word_of};
ghost use Rattle.k_ids.specs.declared.calls.Phase.TheVariants as phase;
ghost use Rattle.k_locks.specs.Threads.{IsRunOf};
ghost use Rattle.k_script.specs.Plays.{IsInRange};
ghost use Rattle.k_locks.specs.declared.steps.Answer.{Answer};
ghost use Rattle.k_locks.specs.Steps.{one_more, suits};
ghost use Rattle.k_script.specs.Script as scripts;
ghost use Rattle.k_script.specs.Limits.{IsScript};
ghost use Rattle.k_caller.specs.Activities.{IsFitAt, IsSoundAt, IsSoundCreate, goes_on};
ghost use Rattle.k_caller.specs.Threads.{CanPush, IsFit, IsSound, NamesIn, asked, begun, begun_after, begun_by, can_ask, is_asleep, is_dead, is_open, left_of, locks_of, points_of, ran_of, resumed, step_of, thread_of, woken};
ghost use Rattle.k_caller.specs.Seen.{IsPlaced, thread_in};
ghost use Rattle.k_threads.specs.CreateTable as create;
ghost use Rattle.k_caller.specs.Owns.{IsRunning};
ghost use Rattle.k_caller.specs.declared.activity.Activity.TheVariants as activity;
ghost use Rattle.k_caller.specs.declared.thread.ThreadLocation.TheVariants as location;

use crate::activity::Activity;
use crate::ran::Ran;
use crate::thread::ThreadLocation;
use k_ids::{Message, Phase, Reply, StateWord, ThreadId};
use k_ipc::{ReceiveSection, SendSection};
use k_locks::{Answer, Lock, Point, Step, one_more};
use k_script::{Next, Position, Script, next_phase};
use k_threads::{CreateSection, DestroySection};
use std::mem;

/// A thread's context: it makes the calls of its program, one critical section each. It has a constant size.
#[derive(Drop)]
pub struct ThreadContext {
    pub(crate) id: ThreadId,
    pub(crate) position: Position,
    /// The thread's state word as the context knows it, where no section has its own.
    pub(crate) own: StateWord,
    /// Of its last call; 0 before the first.
    pub(crate) serial: u32,
    /// The steps that were made for this call.
    pub(crate) done: u32,
    pub(crate) activity: Activity,
}

impl ThreadContext {
    /// A new thread's context, at the start of its program. Its word says that it runs, and is on. The priority is 0 to 63.
    pub fn of(id: ThreadId, program: u8, priority: u8) -> ThreadContext
        requires id { IsPartner id }
        requires priority { priority < 64 }
        ensures seen { (script : scripts.Script) → IsScript script → thread_in script result ≡ thread_of script id program priority }
        ensures placed { (script : scripts.Script) → IsScript script → IsPlaced script result }
        ensures sound { (script : scripts.Script) → IsScript script → IsInRange script.table id → IsSound script (thread_in script result) }
    {
        ThreadContext {
            id,
            position: Position::start(program, id),
            own: StateWord::created(id.version, priority),
            serial: 0,
            done: 0,
            activity: Activity::Alone(ThreadLocation::Between(None)),
        }
    }

    /// The step that the context asks for. Between two calls the next one of its program begins, and takes its serial, which
    /// stays at the end of its type.
    pub fn next(&mut self, script: &Script) -> Step
        requires placed { IsPlaced script.now self.old }
        requires sound { IsSound script.now (thread_in script.now self.old) }
        requires open { can_ask (begun script.now (thread_in script.now self.old)) ≡ true }
        requires room { CanPush (begun script.now (thread_in script.now self.old)) }
        ensures step { result ≡ step_of (begun script.now (thread_in script.now self.old)) }
        ensures seen { thread_in script.now self.new ≡ asked (begun script.now (thread_in script.now self.old)) }
        ensures open { is_open (thread_in script.now self.new) ≡ true }
        ensures placed { IsPlaced script.now self.new }
        ensures sound { IsSound script.now (thread_in script.now self.new) }
        ensures answers { (a : Answer) → suits result a ≡ true → suits (step_of (thread_in script.now self.new)) a ≡ true }
    {
        self.begin(script);
        let activity = self.take_activity();
        let (step, left) = activity.asked(self.id, self.own);
        self.activity = left;
        step
    }

    /// Goes on by the answer to its step, and says what came of it. A step of a call is counted, up to the end of the count's
    /// type; an answer for the same step again changes nothing.
    pub fn resume(&mut self, script: &Script, answer: Answer) -> Ran
        requires placed { IsPlaced script.now self.old }
        requires sound { IsSound script.now (thread_in script.now self.old) }
        requires open { is_open (thread_in script.now self.old) ≡ true }
        requires suiting { suits (step_of (thread_in script.now self.old)) answer ≡ true }
        requires fit { IsFit script.now (thread_in script.now self.old) answer }
        ensures seen { thread_in script.now self.new ≡ resumed (thread_in script.now self.old) answer }
        ensures ran { result ≡ ran_of (thread_in script.now self.old) answer }
        ensures placed { IsPlaced script.now self.new }
        ensures sound { IsSound script.now (thread_in script.now self.new) }
        ensures onward { can_ask (begun script.now (thread_in script.now self.new)) ≡ goes_on result }
    {
        if answer.is_again() {
            return Ran::Again;
        }
        self.done = counted(self.activity.is_of_call(), self.done);
        let activity = self.take_activity();
        let (activity, own, ran) = activity.resumed(self.id, self.own, self.serial, answer);
        self.activity = activity;
        self.own = own;
        ran
    }

    /// Wakes it. A thread that is asleep looks at its word again; any other goes on as it was.
    pub fn wake(&mut self)
        ensures seen { (script : scripts.Script) → thread_in script self.new ≡ woken (thread_in script self.old) }
        ensures placed { (script : scripts.Script) → IsPlaced script self.old → IsPlaced script self.new }
        ensures sound { (script : scripts.Script) → IsSound script (thread_in script self.old) → IsSound script (thread_in script self.new) }
    {
        if self.activity.is_asleep() {
            self.activity = Activity::Alone(ThreadLocation::LookAgain);
        }
    }

    /// Between two calls the next one begins; else nothing changes.
    fn begin(&mut self, script: &Script)
        requires placed { IsPlaced script.now self.old }
        requires sound { IsSound script.now (thread_in script.now self.old) }
        ensures seen { thread_in script.now self.new ≡ begun script.now (thread_in script.now self.old) }
        ensures placed { IsPlaced script.now self.new }
        ensures sound { IsSound script.now (thread_in script.now self.new) }
    {
        if let Activity::Alone(ThreadLocation::Between(last)) = self.activity {
            self.begin_after(script, last);
        }
    }

    // The next call begins, or work, given the reply to the last one.
    fn begin_after(&mut self, script: &Script, last: Option<Reply>)
        requires placed { IsPlaced script.now self.old }
        requires sound { IsSound script.now (thread_in script.now self.old) }
        requires between { self.old.activity ≡ activity.Alone (location.Between last) }
        ensures seen { thread_in script.now self.new ≡ begun_after script.now (thread_in script.now self.old) last }
        ensures placed { IsPlaced script.now self.new }
        ensures sound { IsSound script.now (thread_in script.now self.new) }
    {
        script.holds();
        match next_phase(script, &mut self.position, last) {
            Next::Work(count) => {
                self.activity = Activity::Alone(ThreadLocation::Work(count));
            }
            Next::Phase(phase) => {
                self.serial = one_more(self.serial);
                self.done = 0;
                self.activity = call(script.table(), self.id, self.own, phase);
            }
        }
    }

    // Takes out what the thread is about, and leaves it dead for the moment.
    fn take_activity(&mut self) -> Activity
        ensures taken { result ≡ self.old.activity }
        ensures rest { self.new ≡ record self.old { activity = activity.Alone location.Dead } }
    {
        mem::replace(&mut self.activity, Activity::Alone(ThreadLocation::Dead))
    }
}

// What it is, and how far it is.
impl ThreadContext {
    /// The event that its step appends to the history where it has this answer, if any. `caller` is the thread's state word at
    /// this very step.
    pub fn point(&self, caller: &StateWord, answer: &Answer) -> Option<Point>
        requires sound { IsSoundAt self.now.id self.now.own self.now.activity }
        requires fit { IsFitAt self.now.id self.now.own self.now.activity answer.now }
        ensures { (script : scripts.Script) → result ≡ points_of (thread_in script self.now) caller.now answer.now }
    {
        self.activity.point(self.id, self.own, caller, answer)
    }

    /// The locks that it holds, by rank.
    pub fn holds(&self) -> [Option<Lock>; 3]
        ensures { (script : scripts.Script) → result ≡ locks_of (thread_in script self.now) }
    {
        self.activity.holds()
    }

    /// How many steps are left until a lock that it holds is released, that release included; 0 of a lock that it doesn't hold.
    pub fn left(&self, lock: Lock) -> u32
        requires { IsSoundAt self.now.id self.now.own self.now.activity }
        ensures { (script : scripts.Script) → result ≡ left_of (thread_in script self.now) lock }
    {
        self.activity.left(self.id, self.own, lock)
    }

    /// Whether it waits, and isn't on.
    pub fn asleep(&self) -> bool
        ensures { (script : scripts.Script) → result ≡ is_asleep (thread_in script self.now) }
    {
        self.activity.is_asleep()
    }

    /// Whether its thread was destroyed, and it has found that out.
    pub fn dead(&self) -> bool
        ensures { (script : scripts.Script) → result ≡ is_dead (thread_in script self.now) }
    {
        self.activity.is_dead()
    }

    /// Its thread.
    pub fn id(&self) -> ThreadId
        ensures { result ≡ self.now.id }
    {
        self.id
    }

    /// The serial of its last call: 1 for the first, 0 before it. It stays at the end of its type.
    pub fn serial(&self) -> u32
        ensures { result ≡ self.now.serial }
    {
        self.serial
    }

    /// How many steps were made for its last call. One that had to be asked for again isn't counted.
    pub fn done(&self) -> u32
        ensures { result ≡ self.now.done }
    {
        self.done
    }
}

// One step more, where it is one of a call.
fn counted(is_of_call: bool, done: u32) -> u32
    ensures { result ≡ (if is_of_call then one_more done else done) }
{
    if is_of_call { one_more(done) } else { done }
}

// What a call is made by, in a table of this size.
fn call(table: u8, me: ThreadId, own: StateWord, phase: Phase) -> Activity
    requires id { IsPartner me }
    requires own { IsRunning me own }
    requires table { table ≤ 64 }
    requires inside { me.number < table }
    requires names { NamesIn table phase }
    ensures activity { result ≡ begun_by table me own phase }
    ensures sound { IsSoundAt me own result }
{
    match phase {
        Phase::Send {
            to,
            message,
            zero,
            joined,
        } => send(table, me, own, to, message, zero, joined),
        Phase::Reply { to, message, zero } => reply(table, me, own, to, message, zero),
        Phase::Receive { from, zero } => receive(table, me, own, from, zero),
        Phase::Create { program, priority } => create(me, own, program, priority),
        Phase::Destroy { who } => destroy(table, me, own, who),
        Phase::End => Activity::Alone(ThreadLocation::CommitEnd),
    }
}

#[tactic(auto, using(crate::proofs::Begun::send_begun, crate::proofs::Begun::partner))]
fn send(
    table: u8,
    me: ThreadId,
    own: StateWord,
    to: ThreadId,
    message: Message,
    zero: bool,
    joined: bool,
) -> Activity
    requires id { IsPartner me }
    requires own { IsRunning me own }
    requires table { table ≤ 64 }
    requires to { IsInRange table to }
    ensures activity { result ≡ begun_by table me own (phase.Send to message zero joined) }
    ensures sound { IsSoundAt me own result }
{
    Activity::Send(SendSection::of(me, bits(me, own), to, message, zero, joined))
}

#[tactic(auto, using(crate::proofs::Begun::send_begun, crate::proofs::Begun::partner))]
fn reply(
    table: u8,
    me: ThreadId,
    own: StateWord,
    to: ThreadId,
    message: Message,
    zero: bool,
) -> Activity
    requires id { IsPartner me }
    requires own { IsRunning me own }
    requires table { table ≤ 64 }
    requires to { IsInRange table to }
    ensures activity { result ≡ begun_by table me own (phase.Reply to message zero) }
    ensures sound { IsSoundAt me own result }
{
    Activity::Send(SendSection::of_reply(me, bits(me, own), to, message, zero))
}

#[tactic(auto, using(crate::proofs::Begun::receive_begun, crate::proofs::Begun::partners))]
fn receive(table: u8, me: ThreadId, own: StateWord, from: Option<ThreadId>, zero: bool) -> Activity
    requires id { IsPartner me }
    requires own { IsRunning me own }
    requires table { table ≤ 64 }
    requires from { IfSome from (IsInRange table) }
    ensures activity { result ≡ begun_by table me own (phase.Receive from zero) }
    ensures sound { IsSoundAt me own result }
{
    Activity::Receive(ReceiveSection::of(me, bits(me, own), from, zero))
}

fn create(me: ThreadId, own: StateWord, program: u8, priority: u8) -> Activity
    requires id { IsPartner me }
    requires own { IsRunning me own }
    requires priority { priority ≤ 63 }
    ensures activity { result ≡ activity.Create (create.create_of (record { caller = me; program = program; priority = priority }) own) }
    ensures sound { IsSoundCreate me (create.create_of (record { caller = me; program = program; priority = priority }) own) }
{
    Activity::Create(CreateSection::of(me, bits(me, own), program, priority))
}

#[tactic(auto, using(crate::proofs::Begun::partner))]
fn destroy(table: u8, me: ThreadId, own: StateWord, who: ThreadId) -> Activity
    requires id { IsPartner me }
    requires own { IsRunning me own }
    requires table { table ≤ 64 }
    requires inside { me.number < table }
    requires who { IsInRange table who }
    ensures activity { result ≡ begun_by table me own (phase.Destroy who) }
    ensures sound { IsSoundAt me own result }
{
    Activity::Destroy(DestroySection::of(me, bits(me, own), who, table))
}

// The bits of a running thread's word.
fn bits(me: ThreadId, own: StateWord) -> u64
    requires { IsRunning me own }
    ensures of { IsRunOf me result }
    ensures read { state_word_of result ≡ own }
{
    own.bits()
}
