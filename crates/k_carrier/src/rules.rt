// The rules of a carrier: when it puts down what it has in its hand, and what it looks for without a hand.
ghost use Rattle.std.specs.Prelude.{◌≡◌, ◌==◌, ◌+◌};
ghost use Rattle.k_script.specs.Script as scripts;
ghost use Rattle.k_carrier.specs.Rules.{begins, context_at, gives, helps, holds_any, holds_lock, is_a_threads, is_goals, is_in_the_way, is_interrupted, is_lock, is_nobodys, is_pending, is_released, is_stopped, own_switched, readied, same_lock, still_holds, target_of};
ghost use Rattle.k_carrier.specs.Seen.{carrier_in, hand_in};

use crate::carrier::{Carrier, Target};
use crate::moves::Hand;
use k_context::Owner;
use k_locks::{Lock, is_same};
use k_switch::{Goal, Switched};

// What is pending.
impl Carrier {
    /// Whether something is pending: a thread is to be started, the slice of time has ended, or a thread of a higher priority than
    /// the goal's is ready.
    pub fn is_pending(&self) -> bool
        ensures { (script : scripts.Script) → result ≡ is_pending (carrier_in script self.now) }
    {
        self.starts.first().is_some() || self.slice || self.resched
    }

    /// Whether something is pending for which it has to switch, and doesn't yet.
    pub fn is_interrupted(&self) -> bool
        ensures { (script : scripts.Script) → result ≡ is_interrupted (carrier_in script self.now) }
    {
        !self.switching && self.is_pending()
    }
}

// With a hand.
impl Carrier {
    /// Whether the hand is put down: the six rules, in their order.
    pub(crate) fn gives(&self, hand: &Hand) -> bool
        ensures { (script : scripts.Script) → result ≡ gives (carrier_in script self.now) (hand_in script hand.now) }
    {
        let is_put_down = self.putting;
        let has_switched = self.own_switched(hand).is_some();
        let is_released = self.is_released(hand);
        let is_in_the_way = self.is_in_the_way(hand);
        let is_nobodys = self.is_nobodys(hand);
        let is_stopped = self.is_stopped(hand);
        is_put_down | has_switched | is_released | is_in_the_way | is_nobodys | is_stopped
    }

    // What a finished switch of its own has come to.
    fn own_switched(&self, hand: &Hand) -> Option<Switched>
        ensures { (script : scripts.Script) → result ≡ own_switched (carrier_in script self.now) (hand_in script hand.now) }
    {
        if self.is_own(hand.context) {
            hand.value.switched()
        } else {
            None
        }
    }

    /// Whether it is the helped context, which has released what it was helped for.
    pub(crate) fn is_released(&self, hand: &Hand) -> bool
        ensures { (script : scripts.Script) → result ≡ is_released (carrier_in script self.now) (hand_in script hand.now) }
    {
        match self.help {
            None => false,
            Some(help) => {
                help.context == hand.context && !still_holds(help.lock, hand.value.holds())
            }
        }
    }

    // Whether another context has to be helped.
    fn is_in_the_way(&self, hand: &Hand) -> bool
        ensures { (script : scripts.Script) → result ≡ is_in_the_way (carrier_in script self.now) (hand_in script hand.now) }
    {
        self.help.is_some() && !self.is_helped(hand.context)
    }

    // Whether it is a thread's context that is neither helped nor the goal's.
    fn is_nobodys(&self, hand: &Hand) -> bool
        ensures { (script : scripts.Script) → result ≡ is_nobodys (carrier_in script self.now) (hand_in script hand.now) }
    {
        let owner = hand.value.owner();
        is_threads(owner) && !self.is_helped(hand.context) && !is_goals(self.goal, owner)
    }

    // Whether something is pending, and the hand isn't its own.
    fn is_stopped(&self, hand: &Hand) -> bool
        ensures { (script : scripts.Script) → result ≡ is_stopped (carrier_in script self.now) (hand_in script hand.now) }
    {
        self.is_interrupted() && !self.is_own(hand.context)
    }

    /// Whether this is the number of its own context.
    pub(crate) fn is_own(&self, context: u8) -> bool
        ensures { result ≡ (context == self.now.table + self.now.number) }
    {
        context == self.own_context()
    }

    /// The number of its own context.
    pub(crate) fn own_context(&self) -> u8
        ensures { result ≡ self.now.table + self.now.number }
    {
        self.table + self.number
    }

    /// Whether the context of this number is the helped one.
    pub(crate) fn is_helped(&self, context: u8) -> bool
        ensures { result ≡ helps self.now.help context }
    {
        match self.help {
            None => false,
            Some(help) => help.context == context,
        }
    }
}

// Without a hand.
impl Carrier {
    /// It begins to switch where something is pending, or where it has nothing to run.
    pub(crate) fn ready(&mut self)
        ensures { (script : scripts.Script) → carrier_in script self.new ≡ readied (carrier_in script self.old) }
    {
        if self.begins() {
            self.switching = true;
            self.help = None;
            self.looked = None;
        }
    }

    fn begins(&self) -> bool
        ensures { (script : scripts.Script) → result ≡ begins (carrier_in script self.now) }
    {
        self.is_interrupted() || (!self.switching && self.goal.is_none())
    }

    /// The context that it is to take.
    pub(crate) fn target(&self) -> Target
        ensures { (script : scripts.Script) → result ≡ target_of (carrier_in script self.now) }
    {
        match self.help {
            Some(help) => Target::Helped(help.context),
            None => match self.goal {
                Some(goal) if !self.switching => Target::GoalOf(goal),
                _ => Target::Own,
            },
        }
    }

    /// The number of this context.
    pub(crate) fn context_at(&self, target: Target) -> u8
        ensures { (script : scripts.Script) → result ≡ context_at (carrier_in script self.now) target }
    {
        match target {
            Target::Helped(context) => context,
            Target::Own => self.own_context(),
            Target::GoalOf(goal) => goal.id.number,
        }
    }
}

/// Whether the context is that of the goal's thread.
pub(crate) fn is_goals(goal: Option<Goal>, owner: Owner) -> bool
    ensures { result ≡ is_goals goal owner }
{
    match (goal, owner) {
        (Some(goal), Owner::Thread(id)) => is_same(goal.id, id),
        _ => false,
    }
}

fn is_threads(owner: Owner) -> bool
    ensures { result ≡ is_a_threads owner }
{
    matches!(owner, Owner::Thread(_))
}

/// Whether this lock is held, or any where none is named.
fn still_holds(lock: Option<Lock>, held: [Option<Lock>; 3]) -> bool
    ensures { result ≡ still_holds lock held }
{
    match lock {
        Some(lock) => holds_lock(lock, held),
        None => holds_any(held),
    }
}

fn holds_lock(lock: Lock, held: [Option<Lock>; 3]) -> bool
    ensures { result ≡ holds_lock lock held }
{
    held.iter().any(|one| is_lock(lock, *one))
}

/// Whether any lock is held.
pub(crate) fn holds_any(held: [Option<Lock>; 3]) -> bool
    ensures { result ≡ holds_any held }
{
    held.iter().any(|one| one.is_some())
}

// Whether what is held is this lock.
fn is_lock(lock: Lock, held: Option<Lock>) -> bool
    ensures { result ≡ is_lock lock held }
{
    match held {
        None => false,
        Some(held) => same_lock(lock, held),
    }
}

fn same_lock(a: Lock, b: Lock) -> bool
    ensures { result ≡ same_lock a b }
{
    match (a, b) {
        (Lock::Table, Lock::Table) | (Lock::Ready, Lock::Ready) => true,
        (Lock::Thread(a), Lock::Thread(b)) => a == b,
        _ => false,
    }
}
