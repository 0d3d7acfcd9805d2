// The logs.
ghost use Rattle.std.specs.Prelude.{◌≡◌, ◌<◌, ◌++◌, ◌∷◌, ℕ, if◌then◌else◌, IfOk, IfSome, OnOk, length, [], true, Some};
ghost use Rattle.k_context.specs.Contexts.{ContextSeen, owner_of};
ghost use Rattle.k_script.specs.Script as scripts;
ghost use Rattle.k_carrier.specs.Rules.{is_helped};
ghost use Rattle.k_carrier.specs.Running.{holder_of, runner_of, running_of};
ghost use Rattle.k_carrier.specs.Seen.{CarrierSeen, HandSeen};
ghost use Rattle.k_world.specs.Boot.{no_waits};
ghost use Rattle.k_world.specs.Lawful.{IsLawfulLog};
ghost use Rattle.k_world.specs.Marks.{Onward, broken, chained, dropped, got_by, has_mark, held_up, link_of, mark_begun, marks_by, step_mark, with_link, with_use};
ghost use Rattle.k_logs.specs.Seen.{HasRoom, carriers_in};

use crate::links::{is_linked, link_of};
use crate::standing::{break_interrupted, count_in, end_got};
use k_carrier::{Carrier, Holder, Link, Running, StepMark, WaitMark, Want};
use k_ids::NoMemory;
use k_locks::one_more;
use std::alloc::Global;
use std::marker::Model;

/// The marks of steps, and the marks of waits with their links, each in the order in which it was made; and of each carrier the
/// index of the mark that stands.
///
/// Contracts see the four lists, and how many marks more of each kind there is room for.
#[derive(Drop)]
pub struct Logs {
    steps: Vec<StepMark>,
    marks: Vec<WaitMark>,
    links: Vec<Link>,
    standing: Vec<Option<u64>>,
}

impl Model for Logs {
    ghost use Rattle.std.specs.Prelude.{◌-◌, vec_capacity, length};
    ghost use Rattle.k_logs.specs.Seen.{Logged};

    ghost Value = { Logged };

    ghost view = { λ l. record {
      steps = l.steps.items;
      waits = record { marks = l.marks.items; links = l.links.items; standing = l.standing.items };
      room = record {
        steps = vec_capacity l.steps - length l.steps.items;
        marks = vec_capacity l.marks - length l.marks.items;
        links = vec_capacity l.links - length l.links.items;
      };
    } };
}

impl Logs {
    /// No marks, and none that stands of any of so many carriers.
    pub fn opened(alloc: Global, carriers: u8) -> Result<Logs, NoMemory>
        ensures steps { IfOk result (λ l. l.steps ≡ []) }
        ensures waits { IfOk result (λ l. l.waits ≡ no_waits carriers) }
    {
        Ok(Logs {
            steps: Vec::new(alloc),
            marks: Vec::new(alloc),
            links: Vec::new(alloc),
            standing: vec![in alloc; None; usize::from(carriers)]?,
        })
    }

    /// Takes room for one mark more of each kind. Where there is no memory for it, the logs are as before.
    pub fn reserve(&mut self) -> Result<(), NoMemory>
        ensures steps { self.new.steps ≡ self.old.steps }
        ensures waits { self.new.waits ≡ self.old.waits }
        ensures room { OnOk result (HasRoom self.new.room) }
    {
        self.steps.reserve(1)?;
        self.marks.reserve(1)?;
        self.links.reserve(1)?;
        Ok(())
    }

    /// Of carriers that are interrupted no mark stands any more. There must be as many carriers as the logs are for.
    pub fn break_interrupted(&mut self, carriers: &[Carrier])
        requires { length carriers.now ≡ length self.old.waits.standing }
        ensures steps { self.new.steps ≡ self.old.steps }
        ensures waits { (script : scripts.Script) → self.new.waits ≡ record self.old.waits { standing = broken (carriers_in script carriers.now) self.old.waits.standing } }
        ensures room { self.new.room ≡ self.old.room }
        ensures size { length self.new.waits.standing ≡ length self.old.waits.standing }
        ensures lawful { (script : scripts.Script) → IsLawfulLog self.old.waits → IsLawfulLog self.new.waits }
    {
        break_interrupted(&mut self.standing, carriers);
    }

    /// The goal of this carrier was dropped: no mark stands of it any more.
    pub fn drop_goal(&mut self, c: u8)
        requires { c < length self.old.waits.standing }
        ensures steps { self.new.steps ≡ self.old.steps }
        ensures waits { self.new.waits ≡ dropped c true self.old.waits }
        ensures size { length self.new.waits.standing ≡ length self.old.waits.standing }
    {
        self.standing[usize::from(c)] = None;
    }
}

// What became of a section.
impl Logs {
    /// The section of the context in a carrier's hand went on: whose step it was has got what it waited for. Where the step
    /// counts, it has a mark, and is counted in the mark that stands of the carrier that made it. The carrier is one of those
    /// that the logs are for, and there must be room for a mark of a step.
    pub fn went_on(&mut self, c: u8, running: Running, is_counted: bool)
        requires lawful { IsLawfulLog self.old.waits }
        requires carrier { c < length self.old.waits.standing }
        requires room { 0 < self.old.room.steps }
        ensures steps { (k : CarrierSeen) (h : HandSeen) → running ≡ running_of k h → is_counted ≡ has_mark h.value → self.new.steps ≡ self.old.steps ++ marks_by (runner_of k) (Onward h.value) }
        ensures waits { (k : CarrierSeen) (h : HandSeen) → running ≡ running_of k h → is_counted ≡ has_mark h.value → self.new.waits ≡ with_use c (has_mark h.value) (got_by (owner_of h.value) self.old.waits) }
        ensures size { length self.new.waits.standing ≡ length self.old.waits.standing }
    {
        end_got(&mut self.standing, &mut self.marks, running.owner);
        if is_counted {
            count_in(self.standing[usize::from(c)], &mut self.marks);
            self.steps.push_reserved(step_mark(running));
        }
    }

    /// What a section wants is held up. A requester begins a wait where none stands of the carrier; who is helped is linked to the
    /// one that stands, unless it is already. There must be room for a mark of a wait, and for a link.
    pub fn held_up(&mut self, c: u8, running: Running, wants: Want, holder: Holder)
        requires lawful { IsLawfulLog self.old.waits }
        requires carrier { c < length self.old.waits.standing }
        requires marks { 0 < self.old.room.marks }
        requires links { 0 < self.old.room.links }
        ensures steps { self.new.steps ≡ self.old.steps }
        ensures waits { (k : CarrierSeen) (h : HandSeen) (v : ContextSeen) → running ≡ running_of k h → holder ≡ holder_of v wants → self.new.waits ≡ held_up c (is_helped k h) h.value wants (Some v) self.old.waits }
        ensures size { length self.new.waits.standing ≡ length self.old.waits.standing }
    {
        match self.standing[usize::from(c)] {
            None if !running.is_helped => self.begin(c, running, wants, holder),
            Some(mark) if running.is_helped => self.grow(link_of(mark, holder, wants)),
            _ => {}
        }
    }

    // A mark begins with its first link, and stands.
    fn begin(&mut self, c: u8, running: Running, wants: Want, holder: Holder)
        requires carrier { c < length self.old.waits.standing }
        requires marks { 0 < self.old.room.marks }
        requires links { 0 < self.old.room.links }
        ensures steps { self.new.steps ≡ self.old.steps }
        ensures waits { (k : CarrierSeen) (h : HandSeen) (v : ContextSeen) → running ≡ running_of k h → holder ≡ holder_of v wants → self.new.waits ≡ mark_begun c h.value wants (link_of (length self.old.waits.marks) v wants) self.old.waits }
        ensures size { length self.new.waits.standing ≡ length self.old.waits.standing }
    {
        let mark = self.marks.len() as u64;
        self.marks.push_reserved(WaitMark {
            requester: running.owner,
            serial: running.serial,
            wants,
            got: false,
            allowed: holder.left,
            used: 0,
            first: self.links.len() as u64,
            count: 1,
        });
        self.links.push_reserved(link_of(mark, holder, wants));
        self.standing[usize::from(c)] = Some(mark);
    }

    // The chain of a mark names an owner once for each want.
    fn grow(&mut self, link: Link)
        requires lawful { IsLawfulLog self.old.waits }
        requires inside { link.mark < length self.old.waits.marks }
        requires links { 0 < self.old.room.links }
        ensures steps { self.new.steps ≡ self.old.steps }
        ensures waits { self.new.waits ≡ chained link self.old.waits }
        ensures size { length self.new.waits.standing ≡ length self.old.waits.standing }
    {
        let first = self.marks[link.mark as usize].first as usize;
        if !is_linked(&self.links[first..], &link) {
            self.add(link);
        }
    }

    // One link more, and so many steps more that its mark allows.
    fn add(&mut self, link: Link)
        requires inside { link.mark < length self.old.waits.marks }
        requires links { 0 < self.old.room.links }
        ensures steps { self.new.steps ≡ self.old.steps }
        ensures waits { self.new.waits ≡ with_link link self.old.waits }
        ensures size { length self.new.waits.standing ≡ length self.old.waits.standing }
    {
        let mark = &mut self.marks[link.mark as usize];
        mark.allowed = mark.allowed.saturating_add(link.left);
        mark.count = one_more(mark.count);
        self.links.push_reserved(link);
    }
}

// What they show.
impl Logs {
    /// The marks of steps, in the order in which they were made.
    pub fn steps(&self) -> &[StepMark]
        ensures { result.now ≡ self.now.steps }
    {
        &self.steps
    }

    /// The marks of waits, in the order in which they began.
    pub fn marks(&self) -> &[WaitMark]
        ensures { result.now ≡ self.now.waits.marks }
    {
        &self.marks
    }

    /// The links of all waits, in the order in which they were made.
    pub fn links(&self) -> &[Link]
        ensures { result.now ≡ self.now.waits.links }
    {
        &self.links
    }
}

// The mark of the step that is made.
fn step_mark(running: Running) -> StepMark
    ensures { (k : CarrierSeen) (h : HandSeen) → running ≡ running_of k h → result ≡ step_mark h.value (runner_of k) }
{
    StepMark {
        owner: running.owner,
        serial: running.serial,
        number: running.done,
        runner: running.runner,
    }
}
