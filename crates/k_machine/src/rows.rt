// The calls and the other events: one method for each definition of the specification.
ghost use Rattle.k_machine.specs.Machine.{ActsInside, NamesInside, state_of};
ghost use Rattle.k_ids.specs.declared.threads.ThreadId.{ThreadId};
ghost use Rattle.k_model.specs.Answered.{IsAnswered, reply_to};
ghost use Rattle.k_model.specs.History.{is_active, IsFinished, IsLowestActive};
ghost use Rattle.k_model.specs.Maps.{lowest};
ghost use Rattle.k_model.specs.State.{takes_from};
ghost use Rattle.k_model.specs.Step.{acted, alive, create, destroy, entry_at, is_free, made, may_act, passed, receive, send, sent, status_after, taken, worn};
ghost use Rattle.std.specs.List.{AllByRecursion};
ghost use Rattle.std.specs.Prelude.{None, length, true, IfNone, IfSome, ℕ, ◌+◌, ◌<◌, ◌≡◌, ◌≤◌};

use crate::ids::{is_own, is_same};
use crate::table::Table;
use k_ids::{Act, Message, Outcome, Phase, Reply, Status, ThreadId};

// The status of a sender once its message has passed.
fn status_after(joined: bool, partner: ThreadId) -> Status
    ensures { result ≡ status_after joined partner }
{
    if joined {
        let from = Some(partner);
        Status::Receiving { from }
    } else {
        Status::Run
    }
}

impl Table {
    /// A sender's message has passed, and this is its status now.
    fn sent(&mut self, who: ThreadId, serial: u32, after: Status)
        requires caller { who.number < (state_of self.old.lists).size }
        requires room { 0 < self.old.spare }
        ensures state { state_of self.new.lists ≡ sent (state_of self.old.lists) who serial after }
        ensures spare { self.old.spare ≤ self.new.spare + 1 }
    {
        self.set_status(who.number, after);
        if after == Status::Run {
            self.answer(who, serial, Reply::Sent);
        }
    }

    #[tactic(auto, unfolding(k_model::specs::Step::passed))]
    fn pass(&mut self, me: ThreadId, serial: u32, to: ThreadId, message: Message, after: Status)
        requires caller { me.number < (state_of self.old.lists).size }
        requires partner { to.number < (state_of self.old.lists).size }
        requires room { 2 ≤ self.old.spare }
        ensures state { state_of self.new.lists ≡ passed (state_of self.old.lists) me serial to message after }
        ensures spare { self.old.spare ≤ self.new.spare + 2 }
    {
        let awaited = self.serial(to.number);
        self.set_status(to.number, Status::Run);
        self.answer(to, awaited, Reply::Got { from: me, message });
        self.sent(me, serial, after);
    }

    #[tactic(auto, unfolding(k_model::specs::Step::send))]
    pub fn send(
        &mut self,
        me: ThreadId,
        serial: u32,
        to: ThreadId,
        message: Message,
        zero: bool,
        joined: bool,
        after: Status,
    ) -> Outcome
        requires caller { me.number < (state_of self.old.lists).size }
        requires partner { to.number < (state_of self.old.lists).size }
        requires room { 2 ≤ self.old.spare }
        requires lists { (t : ℕ) → length ((state_of self.old.lists).place t).waiting < 64 }
        ensures made { (state_of self.new.lists, result) ≡ send (state_of self.old.lists) me serial to message zero joined after }
        ensures spare { self.old.spare ≤ self.new.spare + 2 }
    {
        if is_same(me, to) {
            self.answer(me, serial, Reply::Own);
            return Outcome::Own;
        }
        let found = self.found(to.number);
        if !self.is_present(to) {
            self.answer(me, serial, Reply::Absent { found });
            return Outcome::Absent { found };
        }
        if self.takes_from(to.number, me, zero) {
            self.pass(me, serial, to, message, after);
            return Outcome::Passed;
        }
        if zero {
            self.answer(me, serial, Reply::Busy { found });
            return Outcome::Busy { found };
        }
        self.queue(me, to, message, joined);
        Outcome::Waits
    }

    #[tactic(auto, unfolding(k_model::specs::Step::taken))]
    fn take(&mut self, me: ThreadId, serial: u32, at: usize) -> (ThreadId, Message)
        requires caller { me.number < (state_of self.old.lists).size }
        requires entry { at < length ((state_of self.old.lists).place me.number).waiting }
        requires sender { (entry_at (state_of self.old.lists) me.number at).0.number < (state_of self.old.lists).size }
        requires room { 2 ≤ self.old.spare }
        ensures entry { result ≡ entry_at (state_of self.old.lists) me.number at }
        ensures state { state_of self.new.lists ≡ taken (state_of self.old.lists) me serial at }
        ensures spare { self.old.spare ≤ self.new.spare + 2 }
    {
        let (from, message) = self.entry(me.number, at);
        let awaited = self.serial(from.number);
        let after = status_after(self.joined(from.number), me);
        self.unqueue(me.number, at);
        self.answer(me, serial, Reply::Got { from, message });
        self.sent(from, awaited, after);
        (from, message)
    }

    #[tactic(auto, unfolding(k_model::specs::Step::receive, k_model::specs::Step::received))]
    pub fn receive(
        &mut self,
        me: ThreadId,
        serial: u32,
        from: Option<ThreadId>,
        zero: bool,
    ) -> Outcome
        requires caller { me.number < (state_of self.old.lists).size }
        requires senders { AllByRecursion (λ w. w.0.number < (state_of self.old.lists).size) ((state_of self.old.lists).place me.number).waiting }
        requires room { 2 ≤ self.old.spare }
        ensures made { (state_of self.new.lists, result) ≡ receive (state_of self.old.lists) me serial from zero }
        ensures spare { self.old.spare ≤ self.new.spare + 2 }
    {
        if is_own(from, me) {
            self.answer(me, serial, Reply::Own);
            return Outcome::Own;
        }
        if let Some(at) = self.first(me, from) {
            let (from, message) = self.take(me, serial, at);
            return Outcome::Took { from, message };
        }
        if zero {
            self.answer(me, serial, Reply::Nobody);
            return Outcome::Nobody;
        }
        self.set_status(me.number, Status::Receiving { from });
        Outcome::Waits
    }

    fn lowest_free(&self) -> Option<u8>
        requires { (state_of self.now.lists).size ≤ 64 }
        ensures { result ≡ lowest (λ n. is_free ((state_of self.now.lists).place n)) (state_of self.now.lists).size }
    {
        let size = self.size() as u8;
        for number in 0..size {
            if self.is_free(number) {
                return Some(number);
            }
        }
        None
    }

    fn alive(&self) -> u8
        requires { (state_of self.now.lists).size ≤ 64 }
        ensures { result ≡ alive (state_of self.now.lists) }
    {
        let size = self.size() as u8;
        let mut count = 0;
        for number in 0..size {
            if self.status(number) != Status::Dead {
                count += 1;
            }
        }
        count
    }

    fn worn(&self) -> u8
        requires { (state_of self.now.lists).size ≤ 64 }
        ensures { result ≡ worn (state_of self.now.lists) }
    {
        let size = self.size() as u8;
        let mut count = 0;
        for number in 0..size {
            if self.status(number) == Status::Dead && self.version(number) == 1_048_575 {
                count += 1;
            }
        }
        count
    }

    #[tactic(auto, unfolding(k_model::specs::Step::create, k_model::specs::Step::created))]
    pub fn create(&mut self, me: ThreadId, serial: u32) -> Outcome
        requires small { (state_of self.old.lists).size ≤ 64 }
        requires unanswered { (id : ThreadId) → reply_to (state_of self.old.lists).replies id 0 ≡ None }
        requires room { 2 ≤ self.old.spare }
        ensures made { (state_of self.new.lists, result) ≡ create (state_of self.old.lists) me serial }
        ensures spare { self.old.spare ≤ self.new.spare + 2 }
    {
        if let Some(number) = self.lowest_free() {
            self.renew(number);
            let id = self.found(number).id;
            self.answer(me, serial, Reply::Made { id });
            Outcome::Made { id }
        } else {
            let alive = self.alive();
            let worn = self.worn();
            self.answer(me, serial, Reply::Full { alive, worn });
            Outcome::Full { alive, worn }
        }
    }

    #[tactic(auto, unfolding(k_model::specs::Step::destroy))]
    pub fn destroy(&mut self, me: ThreadId, serial: u32, victim: ThreadId) -> Outcome
        requires victim { victim.number < (state_of self.old.lists).size }
        requires room { 2 ≤ self.old.spare }
        ensures made { (state_of self.new.lists, result) ≡ destroy (state_of self.old.lists) me serial victim }
        ensures spare { self.old.spare ≤ self.new.spare + 2 }
    {
        if is_same(me, victim) {
            self.answer(me, serial, Reply::Own);
            return Outcome::Own;
        }
        if !self.is_present(victim) {
            let found = self.found(victim.number);
            self.answer(me, serial, Reply::Absent { found });
            return Outcome::Absent { found };
        }
        self.kill(victim);
        self.answer(me, serial, Reply::Killed);
        Outcome::Killed
    }

    /// One call, once its caller has taken the serial.
    #[tactic(auto, unfolding(k_model::specs::Step::made))]
    fn make(&mut self, me: ThreadId, serial: u32, phase: Phase) -> Outcome
        requires small { (state_of self.old.lists).size ≤ 64 }
        requires unanswered { (id : ThreadId) → reply_to (state_of self.old.lists).replies id 0 ≡ None }
        requires caller { me.number < (state_of self.old.lists).size }
        requires inside { NamesInside (state_of self.old.lists).size phase }
        requires senders { AllByRecursion (λ w. w.0.number < (state_of self.old.lists).size) ((state_of self.old.lists).place me.number).waiting }
        requires lists { (t : ℕ) → length ((state_of self.old.lists).place t).waiting < 64 }
        requires room { 2 ≤ self.old.spare }
        ensures made { (state_of self.new.lists, result) ≡ made (state_of self.old.lists) me serial phase }
        ensures spare { self.old.spare ≤ self.new.spare + 2 }
    {
        match phase {
            Phase::Send {
                to,
                message,
                zero,
                joined,
            } => self.send(
                me,
                serial,
                to,
                message,
                zero,
                joined,
                status_after(joined, to),
            ),
            Phase::Reply { to, message, zero } => {
                self.send(me, serial, to, message, zero, false, Status::Picking)
            }
            Phase::Receive { from, zero } => self.receive(me, serial, from, zero),
            Phase::Create { .. } => self.create(me, serial),
            Phase::Destroy { who } => self.destroy(me, serial, who),
            Phase::End => {
                self.set_status(me.number, Status::Ended);
                Outcome::Ended
            }
        }
    }

    /// One event that may be made.
    #[tactic(auto, unfolding(k_model::specs::Step::acted))]
    pub fn act(&mut self, who: ThreadId, serial: u32, act: Act) -> Outcome
        requires small { (state_of self.old.lists).size ≤ 64 }
        requires may { may_act (state_of self.old.lists) who serial act ≡ true }
        requires answered { IsAnswered (state_of self.old.lists) }
        requires caller { who.number < (state_of self.old.lists).size }
        requires inside { ActsInside (state_of self.old.lists).size act }
        requires senders { AllByRecursion (λ w. w.0.number < (state_of self.old.lists).size) ((state_of self.old.lists).place who.number).waiting }
        requires lists { (t : ℕ) → length ((state_of self.old.lists).place t).waiting < 64 }
        requires room { 2 ≤ self.old.spare }
        ensures made { (state_of self.new.lists, result) ≡ acted (state_of self.old.lists) who serial act }
        ensures spare { self.old.spare ≤ self.new.spare + 2 }
    {
        match act {
            Act::Call { phase } => {
                self.call(who, serial);
                self.make(who, serial, phase)
            }
            Act::Gone => {
                self.set_status(who.number, Status::Run);
                self.answer(who, serial, Reply::Gone);
                Outcome::Freed
            }
            Act::Pick => {
                self.set_status(who.number, Status::Run);
                self.receive(who, serial, None, false)
            }
        }
    }

    /// Whether an event may be made.
    pub fn may_act(&self, who: ThreadId, serial: u32, act: Act) -> bool
        requires caller { who.number < (state_of self.now.lists).size }
        ensures { result ≡ may_act (state_of self.now.lists) who serial act }
    {
        let status = self.status(who.number);
        let last = u64::from(self.serial(who.number));
        let serial = u64::from(serial);
        match act {
            Act::Call { .. } => {
                self.is_present(who) && status == Status::Run && serial == last + 1
            }
            Act::Gone => { self.is_present(who) && self.waits_for_absent(status) && serial == last }
            Act::Pick => self.is_present(who) && status == Status::Picking && serial == last,
        }
    }

    fn is_active(&self, number: u8) -> bool
        requires { number < (state_of self.now.lists).size }
        ensures { result ≡ is_active (state_of self.now.lists) number }
    {
        let status = self.status(number);
        status == Status::Run || status == Status::Picking || self.waits_for_absent(status)
    }

    pub fn lowest_active(&self) -> Option<ThreadId>
        requires { (state_of self.now.lists).size ≤ 64 }
        ensures named { IfSome result (λ id. IsLowestActive (state_of self.now.lists) id) }
        ensures none { IfNone result (IsFinished (state_of self.now.lists)) }
    {
        let size = self.size() as u8;
        for number in 0..size {
            if self.is_active(number) {
                return Some(self.found(number).id);
            }
        }
        None
    }
}
