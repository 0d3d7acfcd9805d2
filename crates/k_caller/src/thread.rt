// What a thread does between its critical sections: it waits, works, or ends.
ghost use Rattle.std.specs.Prelude.{◌≡◌, ◌≤◌, true, false, if◌then◌else◌};
ghost use Rattle.k_ids.specs.StateWords.{IsPartner, IsStateSpelling, IsStateWord, state_word_of};
ghost use Rattle.k_locks.specs.Asks.{loaded, response_of, step_for, told_of};
ghost use Rattle.k_locks.specs.Asks as plain;
ghost use Rattle.k_locks.specs.Hands.{nothing};
ghost use Rattle.k_locks.specs.declared.steps.Answer.TheVariants as answer;
ghost use Rattle.k_locks.specs.declared.steps.Told.TheVariants.{Loaded};
ghost use Rattle.k_caller.specs.declared.thread.ThreadLocation.TheVariants as location;
ghost use Rattle.k_ids.specs.declared.state_word.StateWord.{StateWord};
ghost use Rattle.k_caller.specs.Waits.{IsAnswer, IsFit, IsSoundAt, IsSpelled, IsWordOf, ask_of, can_ask, ended_word, is_of_call, leads, looked, looked_run, off_word, own_of, points, ran_to, worked};

use crate::ran::Ran;
use k_ids::{Act, Message, Outcome, Phase, Reply, Result4, State, StateWord, ThreadId};
use k_locks::{Point, Step, Told, WordName, is_dead, state_word};

/// Where a thread stands that is in no critical section.
#[derive(Clone, Copy, Debug, PartialEq, Eq)]
pub enum ThreadLocation {
    /// Between two calls, with the reply to the last one. There is none at the start, and after work.
    Between(Option<Reply>),
    /// It waits, and falls asleep if its word is still the one that it knows.
    FallAsleep,
    /// It looks at its word: has somebody ended its wait?
    LookAgain,
    /// A message of this thread was delivered: it is in the mail word.
    LoadMail(ThreadId),
    /// So many loads of its own word are still to come: 1 to 4,294,967,295.
    Work(u32),
    /// Its program is over, if it is still there.
    CommitEnd,
    /// It waits, and isn't on.
    Asleep,
    /// Its program is over.
    Ended,
    /// It was destroyed.
    Dead,
}

impl ThreadLocation {
    /// The step of the location.
    pub(crate) fn step(self, me: ThreadId, own: StateWord) -> Step
        requires open { can_ask self ≡ true }
        requires sound { IsSoundAt me own self }
        ensures { result ≡ step_for (ask_of me own self) nothing }
    {
        match self {
            ThreadLocation::FallAsleep => exchange(me, own, off_word(own)),
            ThreadLocation::CommitEnd => exchange(me, own, ended_word(own)),
            ThreadLocation::LoadMail(_) => Step::Load(WordName::Mail(me.number)),
            _ => Step::Load(WordName::State(me.number)),
        }
    }

    /// Where an answer leads, with the thread's own word then.
    pub(crate) fn resumed(
        self,
        me: ThreadId,
        own: StateWord,
        told: Told,
    ) -> (ThreadLocation, StateWord)
        requires open { can_ask self ≡ true }
        requires sound { IsSoundAt me own self }
        requires answer { IsAnswer me own self told }
        ensures location { result.0 ≡ leads self (told_of told (ask_of me own self)) }
        ensures own { result.1 ≡ own_of own self (told_of told (ask_of me own self)) }
        ensures sound { IsSoundAt me result.1 result.0 }
    {
        match told {
            Told::Won => self.won(me, own),
            Told::Lost { .. } => (self.lost(me, own), own),
            Told::Loaded(bits) => self.loaded(me, own, bits),
            _ => unreachable!(),
        }
    }
}

impl ThreadLocation {
    fn won(self, me: ThreadId, own: StateWord) -> (ThreadLocation, StateWord)
        requires sound { IsSoundAt me own self }
        ensures location { result.0 ≡ leads self plain.Won }
        ensures own { result.1 ≡ own_of own self plain.Won }
        ensures sound { IsSoundAt me result.1 result.0 }
    {
        match self {
            ThreadLocation::FallAsleep => (ThreadLocation::Asleep, off_word(own)),
            ThreadLocation::CommitEnd => (ThreadLocation::Ended, ended_word(own)),
            _ => (self, own),
        }
    }

    fn lost(self, me: ThreadId, own: StateWord) -> ThreadLocation
        requires sound { IsSoundAt me own self }
        ensures location { (w : StateWord) → result ≡ leads self (plain.Lost w) }
        ensures sound { IsSoundAt me own result }
    {
        match self {
            ThreadLocation::FallAsleep => ThreadLocation::LookAgain,
            ThreadLocation::CommitEnd => ThreadLocation::Dead,
            _ => self,
        }
    }

    fn loaded(self, me: ThreadId, own: StateWord, bits: u64) -> (ThreadLocation, StateWord)
        requires sound { IsSoundAt me own self }
        requires spelled { IsSpelled self (Loaded bits) }
        requires fit { IsFit me self (loaded bits (ask_of me own self)) }
        ensures location { result.0 ≡ leads self (loaded bits (ask_of me own self)) }
        ensures own { result.1 ≡ own_of own self (loaded bits (ask_of me own self)) }
        ensures sound { IsSoundAt me result.1 result.0 }
    {
        match self {
            ThreadLocation::LookAgain => {
                let word = state_word(bits);
                (looked(word.state), word)
            }
            ThreadLocation::LoadMail(from) => {
                let message = Message::of(bits);
                (
                    ThreadLocation::Between(Some(Reply::Got { from, message })),
                    own,
                )
            }
            ThreadLocation::Work(count) => (worked(count, is_dead(&state_word(bits))), own),
            _ => (self, own),
        }
    }

    /// What is told where a step has led to this location, in the call of this serial.
    pub(crate) fn ran(self, serial: u32) -> Ran
        ensures { result ≡ ran_to serial self }
    {
        match self {
            ThreadLocation::Between(Some(reply)) => Ran::Replied { serial, reply },
            ThreadLocation::Asleep | ThreadLocation::Ended => Ran::Left,
            ThreadLocation::Dead => Ran::Dead,
            _ => Ran::On,
        }
    }

    /// Whether the location's step belongs to a call.
    pub(crate) fn is_of_call(self) -> bool
        ensures { result ≡ is_of_call self }
    {
        !matches!(self, ThreadLocation::Work(_))
    }

    /// The event that the location's step makes, if it is told this.
    pub(crate) fn point(self, me: ThreadId, told: Told) -> Option<Point>
        ensures { (own : StateWord) → result ≡ points me self (told_of told (ask_of me own self)) }
    {
        match (self, told) {
            (ThreadLocation::CommitEnd, Told::Won) => Some(Point {
                who: me,
                act: Act::Call { phase: Phase::End },
                outcome: Outcome::Ended,
            }),
            _ => None,
        }
    }
}

/// What has become of a wait, by the thread's own word.
fn looked(state: State) -> ThreadLocation
    ensures { result ≡ looked state }
{
    match state {
        State::Dead => ThreadLocation::Dead,
        State::Run { result: outcome } => looked_run(outcome),
        State::Sending { .. } | State::Receiving { .. } => ThreadLocation::FallAsleep,
        State::Picking | State::Ended => ThreadLocation::LookAgain,
    }
}

fn looked_run(outcome: Result4) -> ThreadLocation
    ensures { result ≡ looked_run outcome }
{
    match outcome {
        Result4::Sent => ThreadLocation::Between(Some(Reply::Sent)),
        Result4::Delivered { from } => ThreadLocation::LoadMail(from),
        Result4::Gone => ThreadLocation::Between(Some(Reply::Gone)),
        Result4::Plain => ThreadLocation::LookAgain,
    }
}

/// One load less.
fn worked(count: u32, is_dead: bool) -> ThreadLocation
    requires { 1 ≤ count }
    ensures { result ≡ (if is_dead then location.Dead else worked count) }
{
    if is_dead {
        ThreadLocation::Dead
    } else if count == 1 {
        ThreadLocation::Between(None)
    } else {
        ThreadLocation::Work(count - 1)
    }
}

fn off_word(own: StateWord) -> StateWord
    ensures { result ≡ off_word own }
{
    StateWord { on: false, ..own }
}

fn ended_word(own: StateWord) -> StateWord
    ensures { result ≡ ended_word own }
{
    StateWord {
        on: false,
        state: State::Ended,
        ..own
    }
}

fn exchange(me: ThreadId, old: StateWord, new: StateWord) -> Step
    requires old { IsStateWord old }
    requires new { IsStateWord new }
    ensures { result ≡ step_for (plain.Exchange me.number old new) nothing }
{
    Step::Exchange {
        word: WordName::State(me.number),
        old: old.bits(),
        new: new.bits(),
    }
}
