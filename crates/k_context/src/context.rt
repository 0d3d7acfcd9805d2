// A context: a thread's, or a carrier's own.
ghost use Rattle.std.specs.Prelude.{◌≡◌, ◌<◌, true, false, if◌then◌else◌, IsSome};
ghost use Rattle.k_ids.specs.StateWords.{IsPartner};
ghost use Rattle.k_locks.specs.declared.steps.Answer.{Answer};
ghost use Rattle.k_locks.specs.Steps.{is_again, suits};
ghost use Rattle.k_script.specs.Script as scripts;
ghost use Rattle.k_script.specs.Limits.{IsScript};
ghost use Rattle.k_script.specs.Plays.{IsInRange};
ghost use Rattle.k_caller.specs.declared.ran.Ran.TheVariants as ran;
ghost use Rattle.k_switch.specs.Carriers.{IsCall};
ghost use Rattle.k_context.specs.Contexts.{CanPush, IsFit, IsPlaced, IsSound, asked, begun, can_ask, carrier_of, done_of, goes_on, has_switch, is_asleep, is_dead, is_open, is_threads, left_of, locks_of, owner_of, points, ran_of, resumed, seen_in, serial_of, step_of, switched_of, thread_of, with_switch, without_switch, woken};

use crate::owner::Owner;
use k_caller::{Ran, ThreadContext};
use k_ids::{StateWord, ThreadId};
use k_locks::{Answer, Lock, Point, Step};
use k_script::Script;
use k_switch::{CarrierContext, SwitchCall, Switched};

/// What makes the steps of a thread, or of a carrier. It has a constant size.
#[derive(Drop)]
pub enum Context {
    /// It makes the calls of the thread's program.
    Thread(ThreadContext),
    /// It makes the carrier's switches.
    Carrier(CarrierContext),
}

impl Context {
    /// A new thread's context, at the start of its program. The priority is 0 to 63.
    pub fn of_thread(id: ThreadId, program: u8, priority: u8) -> Context
        requires id { IsPartner id }
        requires priority { priority < 64 }
        ensures seen { (script : scripts.Script) → IsScript script → seen_in script result ≡ thread_of script id program priority }
        ensures placed { (script : scripts.Script) → IsScript script → IsPlaced script result }
        ensures sound { (script : scripts.Script) → IsScript script → IsInRange script.table id → IsSound script (seen_in script result) }
    {
        Context::Thread(ThreadContext::of(id, program, priority))
    }

    /// The context of a carrier, 0 to 7, without a switch.
    pub fn of_carrier(carrier: u8) -> Context
        requires { carrier < 8 }
        ensures seen { (script : scripts.Script) → seen_in script result ≡ carrier_of carrier }
        ensures placed { (script : scripts.Script) → IsPlaced script result }
        ensures sound { (script : scripts.Script) → IsSound script (seen_in script result) }
    {
        Context::Carrier(CarrierContext::of(carrier))
    }

    /// Begins a switch in a carrier's context that has none, finished or not.
    pub fn begin_switch(&mut self, call: SwitchCall)
        requires sound { (script : scripts.Script) × IsSound script (seen_in script self.old) }
        requires carrier { (script : scripts.Script) × (is_threads (seen_in script self.old) ≡ false) }
        requires free { (script : scripts.Script) × (has_switch (seen_in script self.old) ≡ false) }
        requires call { IsCall call }
        ensures seen { (script : scripts.Script) → seen_in script self.new ≡ with_switch call (seen_in script self.old) }
        ensures placed { (script : scripts.Script) → IsPlaced script self.new }
        ensures sound { (script : scripts.Script) → IsSound script (seen_in script self.new) }
    {
        match self {
            Context::Thread(_thread) => unreachable!(),
            Context::Carrier(carrier) => carrier.begin_switch(call),
        }
    }

    /// What its switch has come to, if one is in it and is finished.
    pub fn switched(&self) -> Option<Switched>
        ensures { (script : scripts.Script) → result ≡ switched_of (seen_in script self.now) }
    {
        match self {
            Context::Thread(_thread) => None,
            Context::Carrier(carrier) => carrier.switched(),
        }
    }

    /// Takes out its switch, which is finished.
    pub fn end_switch(&mut self)
        requires sound { (script : scripts.Script) × IsSound script (seen_in script self.old) }
        requires finished { (script : scripts.Script) × IsSome (switched_of (seen_in script self.old)) }
        ensures seen { (script : scripts.Script) → seen_in script self.new ≡ without_switch (seen_in script self.old) }
        ensures placed { (script : scripts.Script) → IsPlaced script self.new }
        ensures sound { (script : scripts.Script) → IsSound script (seen_in script self.new) }
    {
        match self {
            Context::Thread(_thread) => unreachable!(),
            Context::Carrier(carrier) => carrier.end_switch(),
        }
    }

    /// Whether a switch is in it, finished or not.
    pub fn has_switch(&self) -> bool
        ensures { (script : scripts.Script) → result ≡ has_switch (seen_in script self.now) }
    {
        match self {
            Context::Thread(_thread) => false,
            Context::Carrier(carrier) => carrier.has_switch(),
        }
    }
}

// Its steps.
impl Context {
    /// The step that it asks for. A thread that is between two calls begins the next one of its program.
    pub fn next(&mut self, script: &Script) -> Step
        requires placed { IsPlaced script.now self.old }
        requires sound { IsSound script.now (seen_in script.now self.old) }
        requires open { can_ask (begun script.now (seen_in script.now self.old)) ≡ true }
        requires room { CanPush (begun script.now (seen_in script.now self.old)) }
        ensures step { result ≡ step_of (begun script.now (seen_in script.now self.old)) }
        ensures seen { seen_in script.now self.new ≡ asked (begun script.now (seen_in script.now self.old)) }
        ensures placed { IsPlaced script.now self.new }
        ensures sound { IsSound script.now (seen_in script.now self.new) }
        ensures open { is_open (seen_in script.now self.new) ≡ true }
        ensures answers { (a : Answer) → suits result a ≡ true → suits (step_of (seen_in script.now self.new)) a ≡ true }
    {
        match self {
            Context::Thread(thread) => thread.next(script),
            Context::Carrier(carrier) => carrier.next(),
        }
    }

    /// Goes on by the answer to the step, and tells what came of it. Its next step can be asked for, unless its thread has left or is
    /// dead, or its switch is over.
    pub fn resume(&mut self, script: &Script, answer: Answer) -> Ran
        requires placed { IsPlaced script.now self.old }
        requires sound { IsSound script.now (seen_in script.now self.old) }
        requires open { is_open (seen_in script.now self.old) ≡ true }
        requires suiting { suits (step_of (seen_in script.now self.old)) answer ≡ true }
        requires fit { IsFit script.now (seen_in script.now self.old) answer }
        ensures ran { result ≡ ran_of (seen_in script.now self.old) answer }
        ensures seen { seen_in script.now self.new ≡ resumed (seen_in script.now self.old) answer }
        ensures placed { IsPlaced script.now self.new }
        ensures sound { IsSound script.now (seen_in script.now self.new) }
        ensures onward { can_ask (begun script.now (seen_in script.now self.new)) ≡ goes_on (seen_in script.now self.new) result }
    {
        match self {
            Context::Thread(thread) => thread.resume(script, answer),
            Context::Carrier(carrier) => {
                let ran = switch_ran(&answer);
                carrier.resume(answer);
                ran
            }
        }
    }

    /// Wakes a context that is asleep: it looks at its thread's word again. Any other is left as it is.
    pub fn wake(&mut self)
        ensures seen { (script : scripts.Script) → seen_in script self.new ≡ woken (seen_in script self.old) }
        ensures placed { (script : scripts.Script) → IsPlaced script self.old → IsPlaced script self.new }
        ensures sound { (script : scripts.Script) → IsSound script (seen_in script self.old) → IsSound script (seen_in script self.new) }
    {
        match self {
            Context::Thread(thread) => thread.wake(),
            Context::Carrier(_carrier) => {}
        }
    }

    /// The event that its step makes where it has this answer, if any. `caller` is the thread's state word at this very step; a
    /// switch makes no event.
    pub fn point(&self, caller: &StateWord, answer: &Answer) -> Option<Point>
        requires sound { (script : scripts.Script) × IsSound script (seen_in script self.now) }
        requires fit { (script : scripts.Script) × IsFit script (seen_in script self.now) answer.now }
        ensures { (script : scripts.Script) → result ≡ points (seen_in script self.now) caller.now answer.now }
    {
        match self {
            Context::Thread(thread) => thread.point(caller, answer),
            Context::Carrier(_carrier) => None,
        }
    }
}

// What came of a step of a switch.
fn switch_ran(answer: &Answer) -> Ran
    ensures { result ≡ (if is_again answer.now then ran.Again else ran.On) }
{
    if answer.is_again() {
        Ran::Again
    } else {
        Ran::On
    }
}

// What it holds, and how far it is.
impl Context {
    /// The locks that it holds, by rank.
    pub fn holds(&self) -> [Option<Lock>; 3]
        ensures { (script : scripts.Script) → result ≡ locks_of (seen_in script self.now) }
    {
        match self {
            Context::Thread(thread) => thread.holds(),
            Context::Carrier(carrier) => carrier.holds(),
        }
    }

    /// How many steps are left until this lock is released, that release included; 0 where it isn't held.
    pub fn left(&self, lock: Lock) -> u32
        requires { (script : scripts.Script) × IsSound script (seen_in script self.now) }
        ensures { (script : scripts.Script) → result ≡ left_of (seen_in script self.now) lock }
    {
        match self {
            Context::Thread(thread) => thread.left(lock),
            Context::Carrier(carrier) => carrier.left(lock),
        }
    }

    /// Whether its thread waits and isn't on. A carrier's context never sleeps.
    pub fn asleep(&self) -> bool
        ensures { (script : scripts.Script) → result ≡ is_asleep (seen_in script self.now) }
    {
        match self {
            Context::Thread(thread) => thread.asleep(),
            Context::Carrier(_carrier) => false,
        }
    }

    /// Whether its thread was destroyed.
    pub fn dead(&self) -> bool
        ensures { (script : scripts.Script) → result ≡ is_dead (seen_in script self.now) }
    {
        match self {
            Context::Thread(thread) => thread.dead(),
            Context::Carrier(_carrier) => false,
        }
    }

    /// Whose it is.
    pub fn owner(&self) -> Owner
        ensures { (script : scripts.Script) → result ≡ owner_of (seen_in script self.now) }
    {
        match self {
            Context::Thread(thread) => Owner::Thread(thread.id()),
            Context::Carrier(carrier) => Owner::Carrier(carrier.carrier()),
        }
    }

    /// The serial of its last call, or of its last switch; 0 before the first.
    pub fn serial(&self) -> u32
        ensures { (script : scripts.Script) → result ≡ serial_of (seen_in script self.now) }
    {
        match self {
            Context::Thread(thread) => thread.serial(),
            Context::Carrier(carrier) => carrier.serial(),
        }
    }

    /// The steps that were made for this call, or for this switch.
    pub fn done(&self) -> u32
        ensures { (script : scripts.Script) → result ≡ done_of (seen_in script self.now) }
    {
        match self {
            Context::Thread(thread) => thread.done(),
            Context::Carrier(carrier) => carrier.done(),
        }
    }
}
