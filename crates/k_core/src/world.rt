// The world, and one atomic step of a carrier.
ghost use Rattle.std.specs.Prelude.{◌≡◌, ◌≤◌, ◌*◌, ◌^◌, ◌++◌, ◌<◌, IfOk, OnOk, length, option_map, true};
ghost use Rattle.k_locks.specs.Shown.{found_in};
ghost use Rattle.k_script.specs.Limits.{IsScript};
ghost use Rattle.k_script.specs.Weight.{phases_of};
ghost use Rattle.k_carrier.specs.Flags.{has_hand, is_settled};
ghost use Rattle.k_carrier.specs.Starts.{is_due};
ghost use Rattle.k_world.specs.Boot.{booted};
ghost use Rattle.k_kernel.specs.Moves as kernel;
ghost use Rattle.k_script.specs.Script as scripts;
ghost use Rattle.k_carrier.specs.Running.{holder_of, runner_of};
ghost use Rattle.k_carrier.specs.Seen.{CarrierSeen};
ghost use Rattle.k_world.specs.Lawful.{IsLawfulLog};
ghost use Rattle.k_world.specs.Marks as marks;
ghost use Rattle.k_world.specs.Marks.{marks_by};
ghost use Rattle.k_world.specs.Steps.{is_helping, moved, parked, sliced, started, told_of, waits_by};
ghost use Rattle.k_world.specs.Worlds as worlds;
ghost use Rattle.k_world.specs.Worlds.{carrier_at, context_at, state_at};
ghost use Rattle.k_store.specs.Stores.{with_store};
ghost use Rattle.k_logs.specs.Seen.{HasRoom};
ghost use Rattle.k_running.specs.Turning.{CanFind};
ghost use Rattle.k_core.specs.Conditions.{CanStep};
ghost use Rattle.k_core.specs.Courses.{IfHeldUp, IsCourse, IsHolderOf};
ghost use Rattle.k_core.specs.Parts.{ArePlaced, with_carriers, world_in};
ghost use Rattle.k_core.specs.Running.{IsRunning};

use crate::boot::{carriers_of, slots_of, unstarted_of, words_of};
use crate::history::History;
use crate::laws::{each_step_goes_on, the_kernel_can_step, what_comes_from_outside_goes_on};
use crate::turn::{Course, make_turn};
use k_carrier::{Carrier, Holder, Link, StepMark, Stepped, WaitMark, Want};
use k_ids::{ContextWord, Entry, Found, NoMemory};
use k_locks::{WordName, found_in};
use k_logs::Logs;
use k_script::{Script, phases};
use k_store::Store;
use std::alloc::Global;
use std::marker::Model;

/// All words, slots and carriers, with the logs.
///
/// Contracts see its parts, which show a world (k_world).
#[derive(Drop)]
pub struct World {
    store: Store,
    carriers: Vec<Carrier>,
    /// Of each number of the table: its start hasn't come yet.
    unstarted: Vec<bool>,
    history: History,
    logs: Logs,
    /// How many atomic steps were made. The count stays at the end of its type.
    made: u64,
}

impl Model for World {
    ghost use Rattle.k_core.specs.Parts.{Parts};

    ghost Value = { Parts };

    ghost view = { λ w. record {
      store = w.store;
      carriers = w.carriers.items;
      unstarted = w.unstarted.items;
      recorded = w.history;
      logs = w.logs;
      made = w.made;
    } };
}

impl World {
    /// The world in which a run of this script begins, with so many carriers, 0 to 8. Its threads run, and
    /// have made no call. Those without a start line are ready, in the order of their numbers. No lock is
    /// owned, and all contexts rest. There is room in the history for two events of each call that the
    /// threads may make. It fails for want of memory alone.
    pub fn boot(alloc: Global, script: &Script, carriers: u8) -> Result<World, NoMemory>
        requires carriers { carriers ≤ 8 }
        requires few { phases_of script.now < 2 ^ 32 }
        ensures world { IfOk result (λ w. world_in script.now w ≡ booted script.now carriers) }
        ensures running { IfOk result (IsRunning script.now) }
        ensures carriers { IfOk result (λ w. length w.carriers ≡ carriers) }
    {
        script.holds();
        each_step_goes_on();
        World::opened(alloc, script, carriers)
    }

    // That world, of which nothing else is known yet.
    fn opened(alloc: Global, script: &Script, carriers: u8) -> Result<World, NoMemory>
        requires carriers { carriers ≤ 8 }
        requires few { phases_of script.now < 2 ^ 32 }
        ensures world { IfOk result (λ w. world_in script.now w ≡ booted script.now carriers) }
        ensures placed { IfOk result (ArePlaced script.now) }
        ensures room { IfOk result (λ w. 2 * phases_of script.now ≤ w.recorded.capacity) }
    {
        let words = words_of(alloc, script, carriers)?;
        let slots = slots_of(alloc, script, carriers)?;
        let events = 2 * phases(script) as usize;
        Ok(World {
            store: Store::of(words, slots),
            carriers: carriers_of(alloc, script, carriers)?,
            unstarted: unstarted_of(alloc, script)?,
            history: History::opened(alloc, script.table(), events)?,
            logs: Logs::opened(alloc, carriers)?,
            made: 0,
        })
    }

    /// Takes room for one mark more of each kind. Where there is no memory for it, the world is as before,
    /// too.
    pub fn reserve(&mut self) -> Result<(), NoMemory>
        ensures parts { self.new ≡ record self.old {
          logs = record self.old.logs { room = self.new.logs.room };
        } }
        ensures room { OnOk result (HasRoom self.new.logs.room) }
        ensures running { (script : scripts.Script) → IsRunning script self.old → IsRunning script self.new }
    {
        self.logs.reserve()
    }

    /// Exactly one atomic step of a carrier, and what is told of it. There must be room for one mark more of
    /// each kind; it takes no memory.
    pub fn step(&mut self, script: &Script, c: u8) -> Stepped
        requires carrier { c < length self.old.carriers }
        requires few { kernel.HasRoom script.now }
        requires running { IsRunning script.now self.old }
        requires room { HasRoom self.old.logs.room }
        ensures told { result ≡ told_of script.now c (world_in script.now self.old) }
        ensures world { world_in script.now self.new ≡ moved script.now c (world_in script.now self.old) }
        ensures running { IsRunning script.now self.new }
        ensures carriers { length self.new.carriers ≡ length self.old.carriers }
        ensures capacity { self.new.recorded.capacity ≡ self.old.recorded.capacity }
    {
        script.holds();
        the_kernel_can_step();
        each_step_goes_on();
        self.make_step(script, c)
    }

    // The step, wherever all that it asks for is there.
    fn make_step(&mut self, script: &Script, c: u8) -> Stepped
        requires { CanStep script.now self.old c }
        ensures told { result ≡ told_of script.now c (world_in script.now self.old) }
        ensures world { world_in script.now self.new ≡ moved script.now c (world_in script.now self.old) }
        ensures placed { ArePlaced script.now self.new }
        ensures capacity { self.new.recorded.capacity ≡ self.old.recorded.capacity }
    {
        self.logs.break_interrupted(&self.carriers);
        let carrier = &mut self.carriers[usize::from(c)];
        let turn = make_turn(script, carrier, &mut self.store);
        self.history.record(turn.point);
        let holder = holder_in(turn.course, &self.store, &self.carriers);
        mark(&mut self.logs, c, turn.course, holder);
        if turn.has_left_goal {
            self.logs.drop_goal(c);
        }
        self.made = self.made.saturating_add(1);
        turn.stepped
    }
}

// What is done to a carrier from outside, and is no atomic step. Each carrier has its number.
impl World {
    /// The start of this number's first thread comes: the carrier's next switch starts it. The number is one
    /// of the table, and its start hasn't come yet.
    pub fn start(&mut self, c: u8, number: u8)
        requires carrier { c < length self.old.carriers }
        requires number { number < 64 }
        requires waits { is_due self.old.unstarted number ≡ true }
        ensures world { (script : scripts.Script) → world_in script self.new ≡ started c number
            (world_in script self.old) }
        ensures running { (script : scripts.Script) → IsScript script → IsRunning script self.old →
            IsRunning script self.new }
        ensures carriers { length self.new.carriers ≡ length self.old.carriers }
        ensures rest { self.new ≡ record self.old {
          carriers = self.new.carriers;
          unstarted = self.new.unstarted;
        } }
    {
        what_comes_from_outside_goes_on();
        self.unstarted[usize::from(number)] = false;
        self.carriers[usize::from(c)].start(number);
    }

    /// The carrier's slice of time ends.
    pub fn slice(&mut self, c: u8)
        requires { c < length self.old.carriers }
        ensures world { (script : scripts.Script) →
            world_in script self.new ≡ sliced c (world_in script self.old) }
        ensures running { (script : scripts.Script) → IsScript script → IsRunning script self.old →
            IsRunning script self.new }
        ensures carriers { length self.new.carriers ≡ length self.old.carriers }
        ensures rest { self.new ≡ record self.old { carriers = self.new.carriers } }
    {
        what_comes_from_outside_goes_on();
        self.carriers[usize::from(c)].slice();
    }

    /// The carrier puts down what it has in its hand with its next step.
    pub fn park(&mut self, c: u8)
        requires { c < length self.old.carriers }
        ensures world { (script : scripts.Script) →
            world_in script self.new ≡ parked c (world_in script self.old) }
        ensures running { (script : scripts.Script) → IsScript script → IsRunning script self.old →
            IsRunning script self.new }
        ensures carriers { length self.new.carriers ≡ length self.old.carriers }
        ensures rest { self.new ≡ record self.old { carriers = self.new.carriers } }
    {
        what_comes_from_outside_goes_on();
        self.carriers[usize::from(c)].park();
    }
}

// What it shows.
impl World {
    /// How many atomic steps were made. The count stays at the end of its type.
    pub fn made(&self) -> u64
        ensures { result ≡ self.now.made }
    {
        self.made
    }

    /// Whether a carrier has nothing to do: no goal, nothing in its hand, no switch and no thread to start,
    /// and it isn't counted as running a thread.
    pub fn settled(&self, c: u8) -> bool
        requires { c < length self.now.carriers }
        ensures { (script : scripts.Script) → result ≡ is_settled (carrier_at (world_in script self.now) c) }
    {
        self.carriers[usize::from(c)].settled()
    }

    /// Whether a carrier has a context in its hand.
    pub fn has_hand(&self, c: u8) -> bool
        requires { c < length self.now.carriers }
        ensures { (script : scripts.Script) → result ≡ has_hand (carrier_at (world_in script self.now) c) }
    {
        self.carriers[usize::from(c)].has_hand()
    }

    /// Whether this number's first thread still waits for its start.
    pub fn is_due(&self, number: u8) -> bool
        ensures { result ≡ is_due self.now.unstarted number }
    {
        match self.unstarted.get(usize::from(number)) {
            Some(is_due) => *is_due,
            None => false,
        }
    }

    /// What a thread number shows, 0 to 63, by its state word.
    pub fn found(&self, number: u8) -> Found
        requires number { number < 64 }
        requires running { (script : scripts.Script) × IsRunning script self.now }
        ensures { (script : scripts.Script) →
            result ≡ found_in number (state_at (world_in script self.now) number) }
    {
        found_in(number, &self.store.state(number))
    }

    /// The events with their outcomes, in their order.
    pub fn history(&self) -> &[Entry]
        ensures { result.now ≡ self.now.recorded.entries }
    {
        self.history.entries()
    }

    /// The marks of the steps, in their order.
    pub fn steps(&self) -> &[StepMark]
        ensures { result.now ≡ self.now.logs.steps }
    {
        self.logs.steps()
    }

    /// The marks of waits, in the order in which they began.
    pub fn waits(&self) -> &[WaitMark]
        ensures { result.now ≡ self.now.logs.waits.marks }
    {
        self.logs.marks()
    }

    /// The links of all waits, in the order in which they were made. Those of one wait are the ones from its
    /// first link on that have its index.
    pub fn links(&self) -> &[Link]
        ensures { result.now ≡ self.now.logs.waits.links }
    {
        self.logs.links()
    }
}

// Who holds up what a section wants, if its step was held up: a context in a hand, or one that rests.
fn holder_in(course: Course, store: &Store, carriers: &[Carrier]) -> Option<Holder>
    requires { (script : scripts.Script) × (w : worlds.World) ×
        IfHeldUp (CanFind script (with_carriers script carriers.now (with_store script store.now w))) course }
    ensures { (script : scripts.Script) (w : worlds.World) →
        IsHolderOf (with_carriers script carriers.now (with_store script store.now w)) course result }
{
    match course {
        Course::HeldUp { wants, context, .. } => holder_of(store, carriers, context, wants),
        _ => None,
    }
}

// What is told of the context of this number, where it holds up a want. Its word tells where it is.
fn holder_of(store: &Store, carriers: &[Carrier], context: u8, wants: Want) -> Option<Holder>
    requires { (script : scripts.Script) × (w : worlds.World) ×
        CanFind script (with_carriers script carriers.now (with_store script store.now w)) context }
    ensures { (script : scripts.Script) (w : worlds.World) → result ≡ option_map (λ v. holder_of v wants)
        (context_at (with_carriers script carriers.now (with_store script store.now w)) context) }
{
    let Some(word) = ContextWord::read(store.word(WordName::Context(context))) else {
        return None;
    };
    match word {
        ContextWord::Taken { carrier, .. } => carriers[usize::from(carrier)].holder(wants),
        ContextWord::Clean { .. } | ContextWord::Holds { .. } => store.holder(context, wants),
        ContextWord::Empty => None,
    }
}

// The marks that a step of this course leaves.
fn mark(logs: &mut Logs, c: u8, course: Course, holder: Option<Holder>)
    requires lawful { IsLawfulLog logs.old.waits }
    requires carrier { c < length logs.old.waits.standing }
    requires room { HasRoom logs.old.room }
    ensures steps { (k : CarrierSeen) (d : marks.Course) → IsCourse k course d →
        logs.new.steps ≡ logs.old.steps ++ marks_by (runner_of k) d }
    ensures waits { (w : worlds.World) (k : CarrierSeen) (d : marks.Course) → IsCourse k course d →
        IsHolderOf w course holder → logs.new.waits ≡ waits_by w c (is_helping k k.hand) d logs.old.waits }
    ensures size { length logs.new.waits.standing ≡ length logs.old.waits.standing }
{
    match course {
        Course::Still => {}
        Course::Onward {
            running,
            is_counted,
        } => logs.went_on(c, running, is_counted),
        Course::HeldUp { running, wants, .. } => {
            if let Some(holder) = holder {
                logs.held_up(c, running, wants, holder);
            }
        }
    }
}
