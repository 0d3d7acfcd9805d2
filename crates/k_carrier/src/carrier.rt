// A carrier.
ghost use Rattle.std.specs.Prelude.{◌<◌, ◌≤◌};

use crate::moves::{Awaits, Hand, Help};
use crate::starts::Starts;
use k_switch::Goal;

/// A carrier: it runs its goal, the thread to which it was switched, helps owners of locks that the goal needs, and switches. It has
/// a constant size.
#[derive(Drop)]
pub struct Carrier {
    /// 0 to 7.
    pub(crate) number: u8,
    /// How many thread numbers there are, 1 to 64. The carrier's own context has the number `table + number`.
    pub(crate) table: u8,
    pub(crate) goal: Option<Goal>,
    /// Whether it is counted as running a thread.
    pub(crate) counted: bool,
    /// The context whose steps it makes.
    pub(crate) hand: Option<Hand>,
    pub(crate) help: Option<Help>,
    /// Whether it gives the processor to another thread.
    pub(crate) switching: bool,
    /// The word of the context that it is about to take.
    pub(crate) looked: Option<u64>,
    pub(crate) starts: Starts,
    /// Its slice of time has ended.
    pub(crate) slice: bool,
    /// A thread of a higher priority than its goal's is ready.
    pub(crate) resched: bool,
    /// It is to put down what it has in its hand.
    pub(crate) putting: bool,
    pub(crate) awaits: Awaits,
    ghost few: { number < 8 },
    ghost small: { table ≤ 64 },
}

/// The context that a carrier is to take.
#[derive(Clone, Copy, Debug, PartialEq, Eq)]
pub enum Target {
    /// The one of this number, which it helps.
    Helped(u8),
    /// Its own, which makes its switches.
    Own,
    /// That of the goal's thread.
    GoalOf(Goal),
}
