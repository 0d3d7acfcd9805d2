// A carrier's own context: it makes its carrier's switches.
ghost use Rattle.std.specs.Prelude.{◌≡◌, ◌<◌, false, true, IsSome, is_none};
ghost use Rattle.k_locks.specs.declared.steps.Answer.{Answer};
ghost use Rattle.k_locks.specs.Steps.{suits};
ghost use Rattle.k_switch.specs.Carriers.{CanPush, IsCall, IsFit, IsSound, asked, can_ask, carrier_of, done_after, has_switch, is_open, left_of, locks_of, resumed, step_of, switched_of, with_switch, without_switch};

use crate::goal::Switched;
use crate::switch::{Switch, SwitchCall};
use k_locks::{Answer, Lock, Step, one_more};

/// A carrier's own context. It has a constant size, and makes the carrier's switches, one after the other.
#[derive(Drop)]
pub struct CarrierContext {
    /// 0 to 7.
    pub(crate) carrier: u8,
    /// Of its last switch; 0 before the first. It stays at the end of its type.
    pub(crate) serial: u32,
    /// The steps that were made for this switch; 0 where the serial stands still.
    pub(crate) done: u32,
    pub(crate) switch: Option<Switch>,
}

impl CarrierContext {
    /// The context of a carrier, 0 to 7, without a switch.
    pub fn of(carrier: u8) -> CarrierContext
        requires { carrier < 8 }
        ensures context { result ≡ carrier_of carrier }
        ensures sound { IsSound result }
    {
        CarrierContext {
            carrier,
            serial: 0,
            done: 0,
            switch: None,
        }
    }

    /// Begins a switch, where there is none, finished or not. It takes the context's next serial.
    pub fn begin_switch(&mut self, call: SwitchCall)
        requires sound { IsSound self.old }
        requires free { has_switch self.old ≡ false }
        requires call { IsCall call }
        ensures context { self.new ≡ with_switch call self.old }
        ensures sound { IsSound self.new }
    {
        self.serial = one_more(self.serial);
        self.done = 0;
        self.switch = Some(Switch::of(call));
    }

    /// Takes out the switch, which is finished.
    pub fn end_switch(&mut self)
        requires sound { IsSound self.old }
        requires finished { IsSome (switched_of self.old) }
        ensures context { self.new ≡ without_switch self.old }
        ensures sound { IsSound self.new }
    {
        self.switch = None;
    }

    /// The step of its switch. The ready lists go with their release.
    pub fn next(&mut self) -> Step
        requires open { can_ask self.old ≡ true }
        requires sound { IsSound self.old }
        requires room { CanPush self.old }
        ensures step { result ≡ step_of self.old }
        ensures context { self.new ≡ asked self.old }
        ensures sound { IsSound self.new }
        ensures asked { is_open self.new ≡ true }
        ensures answers { (a : Answer) → suits result a ≡ true → suits (step_of self.new) a ≡ true }
    {
        match &mut self.switch {
            Some(switch) => switch.next(),
            None => unreachable!(),
        }
    }

    /// Goes on by the answer to the step. A step is counted, unless it has to be asked for again. The next step can be asked for,
    /// unless the switch is over.
    #[tactic(auto, using(crate::proofs::Onward::carrier_again_onward))]
    pub fn resume(&mut self, answer: Answer)
        requires asked { is_open self.old ≡ true }
        requires sound { IsSound self.old }
        requires suiting { suits (step_of self.old) answer ≡ true }
        requires fit { IsFit self.old answer }
        ensures context { self.new ≡ resumed self.old answer }
        ensures sound { IsSound self.new }
        ensures onward { can_ask self.new ≡ is_none (switched_of self.new) }
    {
        if answer.is_again() {
            return;
        }
        self.done = self.counted();
        match &mut self.switch {
            Some(switch) => switch.resume(answer),
            None => unreachable!(),
        }
    }

    // The steps that were made, with one more.
    fn counted(&self) -> u32
        ensures { result ≡ done_after self.now }
    {
        if self.serial == u32::MAX {
            self.done
        } else {
            one_more(self.done)
        }
    }

    /// Whether a switch is in it, finished or not.
    pub fn has_switch(&self) -> bool
        ensures { result ≡ has_switch self.now }
    {
        self.switch.is_some()
    }

    /// What its switch has come to, if one is in it and is finished.
    pub fn switched(&self) -> Option<Switched>
        ensures { result ≡ switched_of self.now }
    {
        match &self.switch {
            Some(switch) => switch.switched(),
            None => None,
        }
    }

    /// The locks that it holds, by rank.
    pub fn holds(&self) -> [Option<Lock>; 3]
        ensures { result ≡ locks_of self.now }
    {
        match &self.switch {
            Some(switch) => switch.holds(),
            None => [None, None, None],
        }
    }

    /// How many steps are left until this lock is released, that release included; 0 where it isn't held.
    pub fn left(&self, lock: Lock) -> u32
        ensures { result ≡ left_of self.now lock }
    {
        match &self.switch {
            Some(switch) => switch.left(lock),
            None => 0,
        }
    }

    /// The number of its carrier, 0 to 7.
    pub fn carrier(&self) -> u8
        ensures { result ≡ self.now.carrier }
    {
        self.carrier
    }

    /// The serial of its last switch; 0 before the first.
    pub fn serial(&self) -> u32
        ensures { result ≡ self.now.serial }
    {
        self.serial
    }

    /// The steps that were made for this switch, without those that had to be asked for again.
    pub fn done(&self) -> u32
        ensures { result ≡ self.now.done }
    {
        self.done
    }
}
