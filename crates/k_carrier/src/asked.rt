// What a carrier asks for.
ghost use Rattle.std.specs.Prelude.{◌≡◌, ◌<◌, true, false, IfSome, Some, None};
ghost use Rattle.k_ids.specs.ContextWords.{IsContextSpelling, IsContextWord, context_bits, context_word_of};
ghost use Rattle.k_locks.specs.declared.steps.Answer.{Answer};
ghost use Rattle.k_locks.specs.Steps.{suits};
ghost use Rattle.k_script.specs.Script as scripts;
ghost use Rattle.k_context.specs.Contexts.{CanPush, begun, can_ask, seen_in};
ghost use Rattle.k_context.specs.Contexts as contexts;
ghost use Rattle.k_carrier.specs.declared.moves.Awaits.TheVariants as awaits;
ghost use Rattle.k_carrier.specs.Asked.{PutDown, Run, ask_holding, ask_of, asked, asked_by, lock_acquired, move_by, out_of, rested, resting_word, taken_word, version_in, version_of};
ghost use Rattle.k_carrier.specs.Conditions.{CanAsk, CanMove, IsResting, IsSound, suits_hand};
ghost use Rattle.k_carrier.specs.Moves.{IsMovePlaced, move_in, suits_move};
ghost use Rattle.k_carrier.specs.Rules.{switched_in};
ghost use Rattle.k_carrier.specs.Seen.{IsPlaced, carrier_in, hand_in, holding};

use crate::carrier::Carrier;
use crate::moves::{Awaits, Hand, Move};
use crate::rules::holds_any;
use k_context::{Context, Owner};
use k_ids::ContextWord;
use k_locks::{Lock, Step};
use k_script::Script;
use k_switch::Switched;
use std::mem;

impl Carrier {
    /// The next move. The move before must have been answered, and where it is a step of the context in hand, that step must be one
    /// that can be asked for.
    pub fn next(&mut self, script: &Script) -> Move
        requires placed { IsPlaced script.now self.old }
        requires asking { CanAsk script.now (carrier_in script.now self.old) }
        ensures asked { move_in script.now result ≡ out_of script.now (carrier_in script.now self.old) }
        ensures carrier { carrier_in script.now self.new ≡ asked script.now (carrier_in script.now self.old) }
        ensures sound { IsSound script.now (carrier_in script.now self.new) }
        ensures placed { IsPlaced script.now self.new }
        ensures given { IsMovePlaced script.now result }
        ensures answers { (a : Answer) → suits_move (move_in script.now result) a ≡ true → suits_hand (carrier_in script.now self.new).hand a ≡ true }
    {
        match mem::replace(&mut self.hand, None) {
            Some(hand) => self.next_with(script, hand),
            None => self.next_without(script),
        }
    }

    // With a hand: it is put down, or its step is made.
    fn next_with(&mut self, script: &Script, hand: Hand) -> Move
        requires placed { contexts.IsPlaced script.now hand.value }
        requires sound { IsSound script.now (holding script.now self.old hand) }
        requires empty { self.old.hand ≡ None }
        requires can { let k = holding script.now self.old hand in CanMove script.now k (ask_holding k (hand_in script.now hand)) }
        ensures asked { let k = holding script.now self.old hand in move_in script.now result ≡ move_by script.now k (ask_holding k (hand_in script.now hand)) }
        ensures carrier { let k = holding script.now self.old hand in carrier_in script.now self.new ≡ asked_by script.now k (ask_holding k (hand_in script.now hand)) }
        ensures sound { IsSound script.now (carrier_in script.now self.new) }
        ensures placed { IsPlaced script.now self.new }
        ensures given { IsMovePlaced script.now result }
        ensures answers { (a : Answer) → suits_move (move_in script.now result) a ≡ true → suits_hand (carrier_in script.now self.new).hand a ≡ true }
    {
        if self.gives(&hand) {
            self.put_down(script, hand)
        } else {
            self.run(script, hand)
        }
    }

    // The next step of the context in hand.
    fn run(&mut self, script: &Script, mut hand: Hand) -> Move
        requires placed { contexts.IsPlaced script.now hand.value }
        requires sound { IsSound script.now (holding script.now self.old hand) }
        requires open { can_ask (begun script.now (seen_in script.now hand.value)) ≡ true }
        requires room { CanPush (begun script.now (seen_in script.now hand.value)) }
        ensures asked { let k = holding script.now self.old hand in move_in script.now result ≡ move_by script.now k (Run (hand_in script.now hand)) }
        ensures carrier { let k = holding script.now self.old hand in carrier_in script.now self.new ≡ asked_by script.now k (Run (hand_in script.now hand)) }
        ensures sound { IsSound script.now (carrier_in script.now self.new) }
        ensures placed { IsPlaced script.now self.new }
        ensures given { IsMovePlaced script.now result }
        ensures answers { (a : Answer) → suits_move (move_in script.now result) a ≡ true → suits_hand (carrier_in script.now self.new).hand a ≡ true }
    {
        let step = hand.value.next(script);
        self.awaits = Awaits::Step(lock_acquired(&step));
        self.hand = Some(hand);
        Move::Section(step)
    }

    // The hand goes back to its slot. A finished switch of its own is taken out of it.
    fn put_down(&mut self, script: &Script, hand: Hand) -> Move
        requires placed { contexts.IsPlaced script.now hand.value }
        requires sound { IsSound script.now (holding script.now self.old hand) }
        requires can { let k = holding script.now self.old hand in CanMove script.now k (PutDown (hand_in script.now hand)) }
        requires empty { self.old.hand ≡ None }
        ensures asked { let k = holding script.now self.old hand in move_in script.now result ≡ move_by script.now k (PutDown (hand_in script.now hand)) }
        ensures carrier { let k = holding script.now self.old hand in carrier_in script.now self.new ≡ asked_by script.now k (PutDown (hand_in script.now hand)) }
        ensures placed { IsPlaced script.now self.new }
        ensures given { IsMovePlaced script.now result }
    {
        let released = self.is_released(&hand);
        let new = resting_word(script, &hand.value).bits();
        let (switched, value) = rested(script, self.is_own(hand.context), hand.value);
        self.awaits = Awaits::Give { switched, released };
        Move::GiveContext {
            context: hand.context,
            new,
            value,
        }
    }

    // Without a hand: the target is looked at, and taken once its word was seen.
    fn next_without(&mut self, script: &Script) -> Move
        requires sound { IsSound script.now (carrier_in script.now self.old) }
        requires empty { self.old.hand ≡ None }
        ensures asked { move_in script.now result ≡ out_of script.now (carrier_in script.now self.old) }
        ensures carrier { carrier_in script.now self.new ≡ asked script.now (carrier_in script.now self.old) }
        ensures sound { IsSound script.now (carrier_in script.now self.new) }
        ensures empty { self.new.hand ≡ None }
        ensures given { IsMovePlaced script.now result }
    {
        self.ready();
        let context = self.context_at(self.target());
        match self.looked {
            None => {
                self.awaits = Awaits::Look;
                Move::Look(context)
            }
            Some(old) => {
                self.awaits = Awaits::Take;
                let new = taken_word(self.number, context_word(old)).bits();
                Move::TakeContext { context, old, new }
            }
        }
    }
}

// A context as it is put down: where it is the carrier's own, a finished switch is taken out of it.
fn rested(script: &Script, is_own: bool, mut value: Context) -> (Option<Switched>, Context)
    requires placed { contexts.IsPlaced script.now value }
    requires sound { contexts.IsSound script.now (seen_in script.now value) }
    ensures switched { result.0 ≡ switched_in is_own (seen_in script.now value) }
    ensures value { seen_in script.now result.1 ≡ rested is_own (seen_in script.now value) }
    ensures placed { contexts.IsPlaced script.now result.1 }
{
    if !is_own {
        return (None, value);
    }
    match value.switched() {
        None => (None, value),
        Some(switched) => {
            value.end_switch();
            (Some(switched), value)
        }
    }
}

// The word of a context that is put down.
fn resting_word(script: &Script, context: &Context) -> ContextWord
    requires { contexts.IsSound script.now (seen_in script.now context.now) }
    ensures word { result ≡ resting_word (seen_in script.now context.now) }
    ensures whole { IsContextWord result }
{
    let version = version_of(context.owner());
    if holds_any(context.holds()) {
        ContextWord::Holds { version }
    } else {
        ContextWord::Clean { version }
    }
}

// A carrier's own context has version 1.
fn version_of(owner: Owner) -> u32
    ensures { result ≡ version_of owner }
{
    match owner {
        Owner::Thread(id) => id.version,
        Owner::Carrier(_) => 1,
    }
}

// The word of a context that this carrier has taken.
fn taken_word(carrier: u8, seen: ContextWord) -> ContextWord
    requires small { carrier < 8 }
    requires resting { IsResting seen }
    ensures word { result ≡ taken_word carrier seen }
    ensures whole { IsContextWord result }
{
    let version = version_in(seen);
    ContextWord::Taken { carrier, version }
}

/// The version that a word shows. An empty one shows none.
pub(crate) fn version_in(word: ContextWord) -> u32
    ensures { result ≡ version_in word }
{
    match word {
        ContextWord::Empty => 0,
        ContextWord::Clean { version }
        | ContextWord::Holds { version }
        | ContextWord::Taken { version, .. } => version,
    }
}

/// The context word that these bits spell.
pub(crate) fn context_word(bits: u64) -> ContextWord
    requires { IsContextSpelling bits }
    ensures word { result ≡ context_word_of bits }
    ensures whole { IsContextWord result }
{
    match ContextWord::read(bits) {
        Some(word) => word,
        None => unreachable!(),
    }
}

// The lock that a step acquires.
fn lock_acquired(step: &Step) -> Option<Lock>
    ensures { result ≡ lock_acquired step.now }
{
    match step {
        Step::Acquire(lock) => Some(*lock),
        _ => None,
    }
}
