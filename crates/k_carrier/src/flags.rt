// A new carrier, what is done to it from outside, and what it shows.
ghost use Rattle.std.specs.Prelude.{◌≡◌, ◌≤◌, ◌<◌, true};
ghost use Rattle.k_script.specs.Script as scripts;
ghost use Rattle.k_carrier.specs.Answers.{answer_in};
ghost use Rattle.k_carrier.specs.Conditions.{CanTell, IsSound};
ghost use Rattle.k_carrier.specs.Flags.{has_hand, is_settled, parked, sliced, started};
ghost use Rattle.k_carrier.specs.Resumed.{point_of};
ghost use Rattle.k_carrier.specs.Seen.{IsPlaced, carrier_in, new_carrier};

use crate::carrier::Carrier;
use crate::moves::{Awaits, Help, SeenAnswer};
use crate::starts::Starts;
use k_ids::StateWord;
use k_locks::Point;
use k_switch::Goal;

impl Carrier {
    /// A new carrier: it has no goal, and nothing in its hand. The number is 0 to 7, and the table has 1 to 64 thread numbers.
    pub fn of(number: u8, table: u8) -> Carrier
        requires number { number < 8 }
        requires table { table ≤ 64 }
        ensures carrier { (script : scripts.Script) → carrier_in script result ≡ new_carrier number table }
        ensures placed { (script : scripts.Script) → IsPlaced script result }
        ensures sound { (script : scripts.Script) → table ≡ script.table → IsSound script (carrier_in script result) }
    {
        Carrier {
            number,
            table,
            goal: None,
            counted: false,
            hand: None,
            help: None,
            switching: false,
            looked: None,
            starts: Starts::new(),
            slice: false,
            resched: false,
            putting: false,
            awaits: Awaits::Nothing,
        }
    }

    /// It is to start the first thread of this number, 0 to 63.
    pub fn start(&mut self, number: u8)
        requires { number < 64 }
        ensures carrier { (script : scripts.Script) → carrier_in script self.new ≡ started number (carrier_in script self.old) }
        ensures placed { (script : scripts.Script) → IsPlaced script self.old → IsPlaced script self.new }
        ensures sound { (script : scripts.Script) → IsSound script (carrier_in script self.old) → IsSound script (carrier_in script self.new) }
    {
        self.starts.insert(number);
    }

    /// Its slice of time has ended.
    pub fn slice(&mut self)
        ensures carrier { (script : scripts.Script) → carrier_in script self.new ≡ sliced (carrier_in script self.old) }
        ensures placed { (script : scripts.Script) → IsPlaced script self.old → IsPlaced script self.new }
        ensures sound { (script : scripts.Script) → IsSound script (carrier_in script self.old) → IsSound script (carrier_in script self.new) }
    {
        self.slice = true;
    }

    /// It is to put down what it has in its hand, or has there next.
    pub fn park(&mut self)
        ensures carrier { (script : scripts.Script) → carrier_in script self.new ≡ parked (carrier_in script self.old) }
        ensures placed { (script : scripts.Script) → IsPlaced script self.old → IsPlaced script self.new }
        ensures sound { (script : scripts.Script) → IsSound script (carrier_in script self.old) → IsSound script (carrier_in script self.new) }
    {
        self.putting = true;
    }
}

impl Carrier {
    /// The event that its move appends to the history where it has this answer, if any. `caller` is the state word of the thread in
    /// its hand at this very step.
    pub fn point(&self, caller: &StateWord, found: &SeenAnswer) -> Option<Point>
        requires sound { (script : scripts.Script) × IsSound script (carrier_in script self.now) }
        requires answer { (script : scripts.Script) × CanTell script (carrier_in script self.now) (answer_in script found.now) }
        ensures { (script : scripts.Script) → result ≡ point_of (carrier_in script self.now) caller.now (answer_in script found.now) }
    {
        match (&self.hand, found) {
            (Some(hand), SeenAnswer::Section(answer)) => hand.value.point(caller, answer),
            _ => None,
        }
    }

    /// Whether it has nothing to do: no goal, nothing in its hand, no switch and no thread to start, and it isn't counted as running
    /// a thread.
    pub fn settled(&self) -> bool
        ensures { (script : scripts.Script) → result ≡ is_settled (carrier_in script self.now) }
    {
        self.goal.is_none()
            && !self.has_hand()
            && !self.switching
            && !self.counted
            && self.starts.first().is_none()
    }

    /// Whether it has a context in its hand.
    pub fn has_hand(&self) -> bool
        ensures { (script : scripts.Script) → result ≡ has_hand (carrier_in script self.now) }
    {
        self.hand.is_some()
    }

    /// The thread to which it was switched.
    pub fn goal(&self) -> Option<Goal>
        ensures { result ≡ self.now.goal }
    {
        self.goal
    }

    /// Whom it helps.
    pub fn help(&self) -> Option<Help>
        ensures { result ≡ self.now.help }
    {
        self.help
    }

    /// Whether it switches.
    pub fn is_switching(&self) -> bool
        ensures { result ≡ self.now.switching }
    {
        self.switching
    }
}
