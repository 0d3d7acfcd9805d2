// State words.
ghost use Rattle.std.specs.Prelude.{◌≡◌, ℕ, Bool, true, false, ◌↔◌, ◌*◌, ◌<◌, ◌≤◌, ◌^◌, IsTrue, Some, None, IfSome};
ghost use Rattle.k_ids.specs.declared.state_word.StateWord.{StateWord};
ghost use Rattle.k_ids.specs.declared.state_word.State.TheVariants as state;
ghost use Rattle.k_ids.specs.declared.state_word.Result4.TheVariants as result4;
ghost use Rattle.k_ids.specs.StateWords.{Agrees, IsPartner, IsStateSpelling, IsStateWord, bit, code_of, is_any, is_joined, is_live, partner_at, partner_bits, partner_of, receiving_from, result_code, result_from, result_of, state_at, state_bits, state_from, state_word_of};

use crate::threads::ThreadId;

/// The value of a field's lowest bit.
const ON: u64 = 1 << 3;

const JOINED: u64 = 1 << 4;

const ANY: u64 = 1 << 5;

const RESULT: u64 = 1 << 6;

const PARTNER_NUMBER: u64 = 1 << 8;

const PARTNER_VERSION: u64 = 1 << 14;

const VERSION: u64 = 1 << 34;

const PRIORITY: u64 = 1 << 54;

/// How many numbers of threads, versions and priorities there are, from 0 on.
const NUMBERS: u64 = 64;

const VERSIONS: u64 = 1 << 20;

const PRIORITIES: u64 = 64;

/// What a thread's last call has come to, as others have left it in its word. The call itself hasn't ended yet.
#[derive(Clone, Copy, Debug, PartialEq, Eq)]
pub enum Result4 {
    /// Nothing is left.
    Plain,
    /// Its message was taken.
    Sent,
    /// This thread's message is in its mail word.
    Delivered { from: ThreadId },
    /// The thread that it waited for is gone.
    Gone,
}

/// What a thread is doing, as its word has it. The version of a thread that is named here is 1 to 1,048,575.
#[derive(Clone, Copy, Debug, PartialEq, Eq)]
pub enum State {
    /// The number has no thread.
    Dead,
    /// It runs, with what its last call has come to.
    Run { result: Result4 },
    /// It waits until this thread takes its message. Where it is joined, a receive from that thread follows at once (*L4
    /// Reference Manual 2.0*, call).
    Sending { to: ThreadId, joined: bool },
    /// It waits for a message from this thread, or from any where none is named.
    Receiving { from: Option<ThreadId> },
    /// It has answered a caller by a reply, and hasn't looked yet at who waits to send to it.
    Picking,
    /// It has reached the end of its program.
    Ended,
}

/// The word of a thread number: the thread that has it, or had it last.
///
/// A dead word has priority 0 and `on` false, and an ended one `on` false.
#[derive(Clone, Copy, Debug, PartialEq, Eq)]
pub struct StateWord {
    /// 1 to 1,048,575; 0 only where the number has had no thread yet.
    pub version: u32,
    /// 0 to 63; the greater one goes first.
    pub priority: u8,
    /// Whether the thread is on: it stands in one ready list, or is a carrier's goal, or is about to become one of these.
    pub on: bool,
    pub state: State,
}

/// What a bit is worth at its place.
fn place(is_set: bool, worth: u64) -> u64
    ensures value { result ≡ worth * bit is_set }
    ensures small { result ≤ worth }
{
    if is_set { worth } else { 0 }
}

/// Whether it is the id of a thread.
fn is_partner(id: ThreadId) -> bool
    ensures { IsTrue result ↔ IsPartner id }
{
    u64::from(id.number) < NUMBERS && 0 < id.version && u64::from(id.version) < VERSIONS
}

/// What a partner is worth at its place.
fn place_of(partner: Option<ThreadId>) -> u64
    requires { IfSome partner IsPartner }
    ensures value { result ≡ partner_bits partner }
    ensures small { result < 2 ^ 34 }
{
    match partner {
        None => 0,
        Some(id) => PARTNER_NUMBER * u64::from(id.number) + PARTNER_VERSION * u64::from(id.version),
    }
}

impl Result4 {
    fn code(&self) -> u64
        ensures value { result ≡ result_code self.now }
        ensures small { result < 4 }
    {
        match self {
            Result4::Plain => 0,
            Result4::Sent => 1,
            Result4::Delivered { from: _ } => 2,
            Result4::Gone => 3,
        }
    }

    fn from_fields(code: u64, partner: ThreadId) -> Result4
        ensures { result ≡ result_from code partner }
    {
        match code {
            1 => Result4::Sent,
            2 => Result4::Delivered { from: partner },
            3 => Result4::Gone,
            _ => Result4::Plain,
        }
    }
}

/// The fields of a state.
impl State {
    fn code(&self) -> u64
        ensures value { result ≡ code_of self.now }
        ensures small { result < 8 }
    {
        match self {
            State::Dead => 0,
            State::Run { result: _ } => 1,
            State::Sending { .. } => 2,
            State::Receiving { from: _ } => 3,
            State::Picking => 3,
            State::Ended => 4,
        }
    }

    fn is_joined(&self) -> bool
        ensures { result ≡ is_joined self.now }
    {
        match self {
            State::Sending { to: _, joined } => *joined,
            State::Picking => true,
            _ => false,
        }
    }

    fn is_any(&self) -> bool
        ensures { result ≡ is_any self.now }
    {
        matches!(self, State::Receiving { from: None } | State::Picking)
    }

    fn result_code(&self) -> u64
        ensures value { result ≡ result_of self.now }
        ensures small { result < 4 }
    {
        match self {
            State::Run { result: outcome } => outcome.code(),
            _ => 0,
        }
    }

    /// The thread that the state names, if it names one.
    pub fn partner(&self) -> Option<ThreadId>
        ensures { result ≡ partner_of self.now }
    {
        match self {
            State::Run {
                result: Result4::Delivered { from },
            } => Some(*from),
            State::Sending { to, joined: _ } => Some(*to),
            State::Receiving { from } => *from,
            _ => None,
        }
    }

    fn receiving(joined: bool, any: bool, partner: ThreadId) -> State
        ensures { result ≡ receiving_from joined any partner }
    {
        match (any, joined) {
            (true, true) => State::Picking,
            (true, false) => State::Receiving { from: None },
            (false, _) => State::Receiving {
                from: Some(partner),
            },
        }
    }

    fn from_fields(code: u64, joined: bool, any: bool, outcome: u64, partner: ThreadId) -> State
        ensures { result ≡ state_from code joined any outcome partner }
    {
        match code {
            1 => State::Run {
                result: Result4::from_fields(outcome, partner),
            },
            2 => State::Sending {
                to: partner,
                joined,
            },
            3 => State::receiving(joined, any, partner),
            4 => State::Ended,
            _ => State::Dead,
        }
    }

    /// The fields of these bits, as if they were a spelling.
    fn decoded(bits: u64) -> State
        ensures { result ≡ state_at bits }
    {
        let number = (bits / PARTNER_NUMBER % NUMBERS) as u8;
        let version = (bits / PARTNER_VERSION % VERSIONS) as u32;
        let partner = ThreadId { number, version };
        let joined = bits / JOINED % 2 == 1;
        let any = bits / ANY % 2 == 1;
        State::from_fields(bits % 8, joined, any, bits / RESULT % 4, partner)
    }
}

/// A state word and its spelling.
impl StateWord {
    /// Whether what the word says goes together with its state: only the dead have version 0, and they have nothing else.
    fn agrees(&self) -> bool
        ensures { IsTrue result ↔ Agrees self.now.state self.now }
    {
        match self.state {
            State::Dead => !self.on && self.priority == 0,
            State::Ended => 0 < self.version && !self.on,
            _ => 0 < self.version,
        }
    }

    /// Whether the word has a spelling: its fields are in their ranges, and go together.
    pub fn is_state_word(&self) -> bool
        ensures { IsTrue result ↔ IsStateWord self.now }
    {
        let small = u64::from(self.version) < VERSIONS && u64::from(self.priority) < PRIORITIES;
        let named = match self.state.partner() {
            None => true,
            Some(id) => is_partner(id),
        };
        small && named && self.agrees()
    }

    /// The word's spelling.
    #[tactic(auto, unfolding(crate::specs::StateWords::state_bits))]
    pub fn bits(&self) -> u64
        requires { IsStateWord self.now }
        ensures { result ≡ state_bits self.now }
    {
        let on = place(self.on, ON);
        let joined = place(self.state.is_joined(), JOINED);
        let any = place(self.state.is_any(), ANY);
        let outcome = RESULT * self.state.result_code();
        let partner = place_of(self.state.partner());
        let version = VERSION * u64::from(self.version);
        let priority = PRIORITY * u64::from(self.priority);
        self.state.code() + on + joined + any + outcome + partner + version + priority
    }

    /// The fields of these bits, as if they were a spelling.
    #[tactic(auto, unfolding(crate::specs::StateWords::state_word_of))]
    fn decoded(bits: u64) -> StateWord
        ensures { result ≡ state_word_of bits }
    {
        StateWord {
            version: (bits / VERSION % VERSIONS) as u32,
            priority: (bits / PRIORITY % PRIORITIES) as u8,
            on: bits / ON % 2 == 1,
            state: State::decoded(bits),
        }
    }

    /// The word that these bits spell, if they spell one.
    pub fn read(bits: u64) -> Option<StateWord>
        ensures spelled { (w : StateWord) → (result ≡ Some w) ↔ (IsStateWord w × (state_bits w ≡ bits)) }
        ensures known { IsStateSpelling bits → result ≡ Some (state_word_of bits) }
    {
        let word = StateWord::decoded(bits);
        if word.is_state_word() && word.bits() == bits {
            Some(word)
        } else {
            None
        }
    }
}

/// The words that a step writes.
impl StateWord {
    /// A number without a thread, which had one of this version last, or none yet where it is 0.
    pub fn dead(version: u32) -> StateWord
        requires { version < 2 ^ 20 }
        ensures word { result ≡ record { version = version; priority = 0; on = false; state = state.Dead } }
        ensures whole { IsStateWord result }
    {
        StateWord {
            version,
            priority: 0,
            on: false,
            state: State::Dead,
        }
    }

    /// A thread as it is created: it runs, and is on.
    pub fn created(version: u32, priority: u8) -> StateWord
        requires born { 1 ≤ version }
        requires version { version < 2 ^ 20 }
        requires priority { priority < 64 }
        ensures word { result ≡ record { version = version; priority = priority; on = true; state = state.Run result4.Plain } }
        ensures whole { IsStateWord result }
    {
        StateWord {
            version,
            priority,
            on: true,
            state: State::Run {
                result: Result4::Plain,
            },
        }
    }

    /// The thread with another state, in which it goes on; it is on where it was.
    #[tactic(auto, using(crate::proofs::StateSpelled::live_agrees))]
    pub fn with_state(&self, next: State) -> StateWord
        requires whole { IsStateWord self.now }
        requires born { 1 ≤ self.now.version }
        requires live { is_live next ≡ true }
        requires partner { IfSome (partner_of next) IsPartner }
        ensures word { result ≡ record self.now { state = next } }
        ensures whole { IsStateWord result }
    {
        StateWord {
            state: next,
            ..*self
        }
    }

    /// The thread, made to run: it is on.
    pub fn woken(&self, outcome: Result4) -> StateWord
        requires whole { IsStateWord self.now }
        requires born { 1 ≤ self.now.version }
        requires partner { IfSome (partner_of (state.Run outcome)) IsPartner }
        ensures word { result ≡ record self.now { on = true; state = state.Run outcome } }
        ensures whole { IsStateWord result }
    {
        let state = State::Run { result: outcome };
        StateWord {
            on: true,
            state,
            ..*self
        }
    }

    /// The thread at the end of its program: it isn't on any more.
    pub fn ended(&self) -> StateWord
        requires whole { IsStateWord self.now }
        requires born { 1 ≤ self.now.version }
        ensures word { result ≡ record self.now { on = false; state = state.Ended } }
        ensures whole { IsStateWord result }
    {
        StateWord {
            on: false,
            state: State::Ended,
            ..*self
        }
    }
}
