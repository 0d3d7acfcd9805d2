// What an answer makes of a carrier.
ghost use Rattle.std.specs.Prelude.{◌≡◌, true, false, IfSome};
ghost use Rattle.k_ids.specs.ContextWords.{IsContextSpelling, IsContextWord, context_word_of};
ghost use Rattle.k_locks.specs.Steps.{suits};
ghost use Rattle.k_script.specs.Script as scripts;
ghost use Rattle.k_switch.specs.Switches.{IsGoal};
ghost use Rattle.k_context.specs.Contexts.{IsFit, has_switch, is_open, is_threads, seen_in, step_of, with_switch};
ghost use Rattle.k_context.specs.Contexts as contexts;
ghost use Rattle.k_carrier.specs.declared.carrier.Target.TheVariants as targets;
ghost use Rattle.k_carrier.specs.declared.moves.Awaits.TheVariants as awaits;
ghost use Rattle.k_carrier.specs.Answers.{Given, IsAnswerPlaced, Looked, Section, TakeLost, Took, answer_in};
ghost use Rattle.k_carrier.specs.Conditions.{CanTell, CanTellStep, IsOfNumber, IsOfOthers, IsSound};
ghost use Rattle.k_carrier.specs.Resumed.{after_give, after_look, after_step, after_take, goal_after, goal_taken, heard, help_after, in_hand, is_above, is_given_released, is_holding, lock_awaited, own_taken, resched_after, resumed, seen, switch_begun, switch_call, switched_given, switched_to, told_in};
ghost use Rattle.k_carrier.specs.Rules.{context_at, own_context, target_of};
ghost use Rattle.k_carrier.specs.Seen.{IsPlaced, carrier_in, hand_in, holding};
ghost use Rattle.k_carrier.specs.Starts.{first_start, without_start};
ghost use Rattle.k_carrier.specs.Told.{stepped_of, told_section, told_step};

use crate::asked::{context_word, version_in};
use crate::carrier::{Carrier, Target};
use crate::moves::{Awaits, Hand, Help, SeenAnswer, Stepped};
use crate::rules::is_goals;
use crate::told::{told_by, told_switched, told_waiting, told_word};
use k_context::{Context, Owner, Ran};
use k_ids::ContextWord;
use k_locks::{Answer, Lock, Told};
use k_script::Script;
use k_switch::{Goal, SwitchCall, Switched};
use std::mem;

impl Carrier {
    /// Goes on by the answer to its move, and tells what came of it.
    pub fn resume(&mut self, script: &Script, found: SeenAnswer) -> Stepped
        requires placed { IsPlaced script.now self.old }
        requires came { IsAnswerPlaced script.now found }
        requires sound { IsSound script.now (carrier_in script.now self.old) }
        requires answer { CanTell script.now (carrier_in script.now self.old) (answer_in script.now found) }
        ensures told { result ≡ stepped_of (carrier_in script.now self.old) (answer_in script.now found) }
        ensures carrier { carrier_in script.now self.new ≡ resumed (carrier_in script.now self.old) (answer_in script.now found) }
        ensures sound { IsSound script.now (carrier_in script.now self.new) }
        ensures placed { IsPlaced script.now self.new }
        ensures answered { self.new.awaits ≡ awaits.Nothing }
    {
        match found {
            SeenAnswer::Section(answer) => self.after_section(script, answer),
            SeenAnswer::Looked(bits) => self.after_look(script, bits),
            SeenAnswer::Took(value) => self.after_take(script, value),
            SeenAnswer::TakeLost(bits) => self.after_loss(script, bits),
            SeenAnswer::Given => self.after_give(script),
        }
    }
}

// After a step of the context in hand.
impl Carrier {
    fn after_section(&mut self, script: &Script, answer: Answer) -> Stepped
        requires placed { IsPlaced script.now self.old }
        requires sound { IsSound script.now (carrier_in script.now self.old) }
        requires answer { CanTell script.now (carrier_in script.now self.old) (Section answer) }
        ensures told { result ≡ stepped_of (carrier_in script.now self.old) (Section answer) }
        ensures carrier { carrier_in script.now self.new ≡ resumed (carrier_in script.now self.old) (Section answer) }
        ensures placed { IsPlaced script.now self.new }
        ensures value { IfSome (carrier_in script.now self.old).hand (λ h. contexts.IsSound script.now (contexts.resumed h.value answer)) }
    {
        match mem::replace(&mut self.hand, None) {
            Some(hand) => self.after_step(script, hand, answer),
            None => unreachable!(),
        }
    }

    fn after_step(&mut self, script: &Script, mut hand: Hand, answer: Answer) -> Stepped
        requires placed { contexts.IsPlaced script.now hand.value }
        requires sound { contexts.IsSound script.now (seen_in script.now hand.value) }
        requires open { is_open (seen_in script.now hand.value) ≡ true }
        requires suiting { suits (step_of (seen_in script.now hand.value)) answer ≡ true }
        requires fit { IsFit script.now (seen_in script.now hand.value) answer }
        ensures told { result ≡ told_step (holding script.now self.old hand) (hand_in script.now hand) answer }
        ensures carrier { carrier_in script.now self.new ≡ after_step (holding script.now self.old hand) (hand_in script.now hand) answer }
        ensures placed { IsPlaced script.now self.new }
        ensures value { contexts.IsSound script.now (contexts.resumed (seen_in script.now hand.value) answer) }
    {
        let told = told_in(&answer);
        let owner = hand.value.owner();
        let lock = lock_awaited(self.awaits);
        let ran = hand.value.resume(script, answer);
        self.hand = Some(hand);
        self.awaits = Awaits::Nothing;
        self.help = help_after(self.help, lock, told);
        let stepped = told_waiting(lock, told, told_by(self.goal, owner, ran));
        self.resched = self.resched_after(ran);
        self.goal = goal_after(self.goal, owner, ran);
        stepped
    }

    // Whether a thread with a higher priority than the goal's is ready.
    fn resched_after(&self, ran: Ran) -> bool
        ensures { (script : scripts.Script) → result ≡ resched_after (carrier_in script self.now) ran }
    {
        match ran {
            Ran::Pushed { priority } => {
                self.resched || (!self.switching && is_above(priority, self.goal))
            }
            _ => self.resched,
        }
    }
}

// What an answer tells, but for the goods that come with a lock.
fn told_in(answer: &Answer) -> Option<Told>
    ensures { result ≡ told_in answer.now }
{
    match answer {
        Answer::Got(_goods) => None,
        Answer::Told(told) => Some(*told),
    }
}

// Whom the carrier helps then.
fn help_after(help: Option<Help>, lock: Option<Lock>, told: Option<Told>) -> Option<Help>
    ensures { result ≡ help_after help lock told }
{
    match told {
        Some(Told::Owned { owner }) => Some(Help {
            context: owner,
            lock,
        }),
        Some(Told::Holds { context }) => Some(Help {
            context,
            lock: None,
        }),
        _ => help,
    }
}

// Whether it is a higher priority than the goal's.
fn is_above(priority: u8, goal: Option<Goal>) -> bool
    ensures { result ≡ is_above priority goal }
{
    match goal {
        None => false,
        Some(goal) => goal.priority < priority,
    }
}

// The goal then: none where it has fallen asleep, has ended or was destroyed.
fn goal_after(goal: Option<Goal>, owner: Owner, ran: Ran) -> Option<Goal>
    ensures { result ≡ goal_after goal owner ran }
{
    match ran {
        Ran::Left | Ran::Dead if is_goals(goal, owner) => None,
        _ => goal,
    }
}

fn lock_awaited(waits: Awaits) -> Option<Lock>
    ensures { result ≡ lock_awaited waits }
{
    match waits {
        Awaits::Step(lock) => lock,
        _ => None,
    }
}

// After a look at the target's word, or a take that was lost.
impl Carrier {
    fn after_look(&mut self, script: &Script, bits: u64) -> Stepped
        requires placed { IsPlaced script.now self.old }
        requires sound { IsSound script.now (carrier_in script.now self.old) }
        requires answer { CanTell script.now (carrier_in script.now self.old) (Looked bits) }
        ensures told { result ≡ stepped_of (carrier_in script.now self.old) (Looked bits) }
        ensures carrier { carrier_in script.now self.new ≡ resumed (carrier_in script.now self.old) (Looked bits) }
        ensures placed { IsPlaced script.now self.new }
    {
        let word = context_word(bits);
        let target = self.target();
        let context = self.context_at(target);
        self.awaits = Awaits::Nothing;
        self.look_at(target, word, bits);
        told_word(context, word)
    }

    fn look_at(&mut self, target: Target, word: ContextWord, bits: u64)
        ensures carrier { (script : scripts.Script) → carrier_in script self.new ≡ after_look (carrier_in script self.old) target word bits }
        ensures hand { self.new.hand ≡ self.old.hand }
    {
        match target {
            Target::Helped(_) if is_holding(word) => self.looked = Some(bits),
            Target::Helped(_) => self.help = None,
            Target::Own => self.see(word, bits),
            Target::GoalOf(goal) if version_in(word) == goal.id.version => self.see(word, bits),
            Target::GoalOf(_) => self.goal = None,
        }
    }

    // A context that rests can be taken.
    fn see(&mut self, word: ContextWord, bits: u64)
        ensures carrier { (script : scripts.Script) → carrier_in script self.new ≡ seen (carrier_in script self.old) word bits }
        ensures hand { self.new.hand ≡ self.old.hand }
    {
        match word {
            ContextWord::Clean { .. } | ContextWord::Holds { .. } => self.looked = Some(bits),
            ContextWord::Taken { .. } | ContextWord::Empty => {}
        }
    }

    fn after_loss(&mut self, script: &Script, bits: u64) -> Stepped
        requires placed { IsPlaced script.now self.old }
        requires sound { IsSound script.now (carrier_in script.now self.old) }
        requires answer { CanTell script.now (carrier_in script.now self.old) (TakeLost bits) }
        ensures told { result ≡ stepped_of (carrier_in script.now self.old) (TakeLost bits) }
        ensures carrier { carrier_in script.now self.new ≡ resumed (carrier_in script.now self.old) (TakeLost bits) }
        ensures placed { IsPlaced script.now self.new }
    {
        self.awaits = Awaits::Nothing;
        self.looked = None;
        told_word(self.context_at(self.target()), context_word(bits))
    }
}

fn is_holding(word: ContextWord) -> bool
    ensures { result ≡ is_holding word }
{
    matches!(word, ContextWord::Holds { .. })
}

// After a take.
impl Carrier {
    fn after_take(&mut self, script: &Script, value: Context) -> Stepped
        requires came { contexts.IsPlaced script.now value }
        requires sound { IsSound script.now (carrier_in script.now self.old) }
        requires answer { CanTell script.now (carrier_in script.now self.old) (Took (seen_in script.now value)) }
        ensures told { result ≡ stepped_of (carrier_in script.now self.old) (Took (seen_in script.now value)) }
        ensures carrier { carrier_in script.now self.new ≡ resumed (carrier_in script.now self.old) (Took (seen_in script.now value)) }
        ensures placed { IsPlaced script.now self.new }
    {
        self.awaits = Awaits::Nothing;
        match self.target() {
            Target::Helped(context) => self.take_in_hand(context, value),
            Target::Own => self.take_own(script, value),
            Target::GoalOf(goal) => self.take_goal(goal, value),
        }
        Stepped::On
    }

    // The context of this number is in its hand.
    fn take_in_hand(&mut self, context: u8, value: Context)
        ensures carrier { (script : scripts.Script) → carrier_in script self.new ≡ in_hand (carrier_in script self.old) context (seen_in script value) }
        ensures placed { (script : scripts.Script) → contexts.IsPlaced script value → IsPlaced script self.new }
    {
        self.looked = None;
        self.hand = Some(Hand { context, value });
    }

    // The goal is woken where it sleeps. Where a helper has run it to its death, there is no goal any more.
    fn take_goal(&mut self, goal: Goal, mut value: Context)
        ensures carrier { (script : scripts.Script) → carrier_in script self.new ≡ goal_taken (carrier_in script self.old) goal (seen_in script value) }
        ensures placed { (script : scripts.Script) → contexts.IsPlaced script value → IsPlaced script self.new }
    {
        if value.dead() {
            self.goal = None;
        }
        value.wake();
        self.take_in_hand(goal.id.number, value);
    }

    // A switch that it has put down unfinished goes on; else one begins.
    fn take_own(&mut self, script: &Script, value: Context)
        requires came { contexts.IsPlaced script.now value }
        requires sound { contexts.IsSound script.now (seen_in script.now value) }
        requires own { is_threads (seen_in script.now value) ≡ false }
        requires goal { IfSome self.old.goal IsGoal }
        ensures carrier { carrier_in script.now self.new ≡ own_taken (carrier_in script.now self.old) (seen_in script.now value) }
        ensures placed { IsPlaced script.now self.new }
    {
        if value.has_switch() {
            self.take_in_hand(self.own_context(), value);
        } else {
            self.begin_switch(script, value);
        }
    }

    // A switch begins, and takes what was pending.
    fn begin_switch(&mut self, script: &Script, mut value: Context)
        requires sound { contexts.IsSound script.now (seen_in script.now value) }
        requires own { is_threads (seen_in script.now value) ≡ false }
        requires free { has_switch (seen_in script.now value) ≡ false }
        requires goal { IfSome self.old.goal IsGoal }
        ensures carrier { carrier_in script.now self.new ≡ switch_begun (carrier_in script.now self.old) (seen_in script.now value) }
        ensures placed { IsPlaced script.now self.new }
    {
        let call = SwitchCall {
            goal: self.goal,
            counted: self.counted,
            slice_ended: self.slice,
            start: self.starts.take_first(),
        };
        value.begin_switch(call);
        self.slice = false;
        self.resched = false;
        self.take_in_hand(self.own_context(), value);
    }
}

// After a give.
impl Carrier {
    fn after_give(&mut self, script: &Script) -> Stepped
        requires placed { IsPlaced script.now self.old }
        requires sound { IsSound script.now (carrier_in script.now self.old) }
        requires answer { CanTell script.now (carrier_in script.now self.old) Given }
        ensures told { result ≡ stepped_of (carrier_in script.now self.old) Given }
        ensures carrier { carrier_in script.now self.new ≡ resumed (carrier_in script.now self.old) Given }
        ensures placed { IsPlaced script.now self.new }
    {
        let waits = mem::replace(&mut self.awaits, Awaits::Nothing);
        self.putting = false;
        self.help = if is_given_released(waits) {
            None
        } else {
            self.help
        };
        let switched = switched_given(waits);
        self.switch_to(switched);
        told_switched(switched)
    }

    // It was switched to this thread, or to none.
    fn switch_to(&mut self, switched: Option<Switched>)
        ensures carrier { (script : scripts.Script) → carrier_in script self.new ≡ switched_to (carrier_in script self.old) switched }
        ensures hand { self.new.hand ≡ self.old.hand }
    {
        if let Some(switched) = switched {
            self.goal = switched.goal;
            self.counted = switched.goal.is_some();
            self.switching = false;
        }
    }
}

fn is_given_released(waits: Awaits) -> bool
    ensures { result ≡ is_given_released waits }
{
    match waits {
        Awaits::Give { released, .. } => released,
        _ => false,
    }
}

fn switched_given(waits: Awaits) -> Option<Switched>
    ensures { result ≡ switched_given waits }
{
    match waits {
        Awaits::Give { switched, .. } => switched,
        _ => None,
    }
}
