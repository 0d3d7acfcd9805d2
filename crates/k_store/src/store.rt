// The words and slots that all carriers share, and one atomic step on them.
ghost use Rattle.std.specs.Prelude.{◌≡◌, ◌<◌, ℕ, IfSome, length, option_map, slice_index_or, slice_set};
ghost use Rattle.k_ids.specs.StateWords.{IsStateSpelling, state_word_of};
ghost use Rattle.k_locks.specs.declared.locks.WordName.TheVariants as word;
ghost use Rattle.k_locks.specs.Places.{index_of, slot_of};
ghost use Rattle.k_locks.specs.Steps.{exchanged};
ghost use Rattle.k_script.specs.Script as scripts;
ghost use Rattle.k_script.specs.Limits.{IsScript};
ghost use Rattle.k_context.specs.Contexts.{seen_in};
ghost use Rattle.k_context.specs.Contexts as contexts;
ghost use Rattle.k_carrier.specs.Running.{holder_of};
ghost use Rattle.k_carrier.specs.Answers.{IsAnswerPlaced, answer_in};
ghost use Rattle.k_carrier.specs.Answers as answers;
ghost use Rattle.k_carrier.specs.Moves.{IsMovePlaced, move_in};
ghost use Rattle.k_carrier.specs.Moves as moves;
ghost use Rattle.k_world.specs.Moves.{answer_by, slots_by, words_by};
ghost use Rattle.k_world.specs.Worlds.{World};
ghost use Rattle.k_world.specs.Worlds as worlds;
ghost use Rattle.k_store.specs.Conditions.{CanPerform, IsInside, IsNumber, found_at};
ghost use Rattle.k_store.specs.Stores.{IsPerformed, IsPlaced, IsSlotPlaced, resting_at, slot_in, slots_in, with_store};

use crate::places::{index_of, slot_of};
use crate::slots::{Slot, took};
use k_carrier::{Holder, Move, SeenAnswer, Want};
use k_context::Context;
use k_ids::StateWord;
use k_locks::{WordName, state_word};
use std::marker::Model;
use std::mem;

/// All words and slots: 296 words of 64 bits, and 148 slots.
///
/// Contracts see the list of words and that of slots.
#[derive(Drop)]
pub struct Store {
    words: Vec<u64>,
    slots: Vec<Slot>,
}

impl Model for Store {
    ghost use Rattle.std.specs.Prelude.{◌≡◌, length};
    ghost use Rattle.k_store.specs.Stores.{Contents};

    ghost Value = { Contents };

    ghost view = { λ s. record { words = s.words.items; slots = s.slots.items } };

    ghost invariant = { λ s. (length s.words.items ≡ 296) × (length s.slots.items ≡ 148) };
}

impl Store {
    /// A store of these 296 words and 148 slots.
    pub fn of(words: Vec<u64>, slots: Vec<Slot>) -> Store
        requires words { length words.items ≡ 296 }
        requires slots { length slots.items ≡ 148 }
        ensures words { result.words ≡ words.items }
        ensures slots { result.slots ≡ slots.items }
    {
        Store { words, slots }
    }

    /// A word. Its number, or that of its lock, is 0 to 73.
    pub fn word(&self, name: WordName) -> u64
        requires { IsInside name }
        ensures { result ≡ found_at self.now.words name }
    {
        self.words[index_of(name)]
    }

    /// The state word of a number, 0 to 73. Its bits must spell one.
    pub fn state(&self, number: u8) -> StateWord
        requires number { IsNumber number }
        requires spelled { IsStateSpelling (found_at self.now.words (word.State number)) }
        ensures { result ≡ state_word_of (found_at self.now.words (word.State number)) }
    {
        state_word(self.word(WordName::State(number)))
    }

    /// What is told of a context that rests, 0 to 73, where it holds up a want: nothing where it is in a hand, or there is none.
    pub fn holder(&self, context: u8, wanted: Want) -> Option<Holder>
        requires number { IsNumber context }
        requires sound { (script : scripts.Script) × IfSome (resting_at script self.now context) (contexts.IsSound script) }
        ensures { (script : scripts.Script) → result ≡ option_map (λ v. holder_of v wanted) (resting_at script self.now context) }
    {
        match &self.slots[slot_of(context)] {
            Slot::Resting(value) => Some(Holder::of(value, wanted)),
            Slot::Guarded(_) | Slot::Away => None,
        }
    }

    /// Writes a word.
    pub(crate) fn set_word(&mut self, name: WordName, bits: u64)
        requires { IsInside name }
        ensures words { self.new.words ≡ slice_set self.old.words (index_of name) bits }
        ensures slots { self.new.slots ≡ self.old.slots }
        ensures placed { (script : scripts.Script) → IsPlaced script self.old → IsPlaced script self.new }
    {
        self.words[index_of(name)] = bits;
    }

    /// A compare-exchange of a word: what it was.
    pub(crate) fn exchange(&mut self, name: WordName, old: u64, new: u64) -> u64
        requires { IsInside name }
        ensures found { result ≡ found_at self.old.words name }
        ensures words { self.new.words ≡ slice_set self.old.words (index_of name) (exchanged old new result) }
        ensures slots { self.new.slots ≡ self.old.slots }
        ensures placed { (script : scripts.Script) → IsPlaced script self.old → IsPlaced script self.new }
    {
        let found = self.word(name);
        if found == old {
            self.set_word(name, new);
        }
        found
    }

    /// Puts something into a slot: what was in it.
    fn swap(&mut self, slot: usize, item: Slot) -> Slot
        requires { slot < 148 }
        ensures item { (script : scripts.Script) → slot_in script result ≡ slice_index_or (slots_in script self.old.slots) slot worlds.Away }
        ensures words { self.new.words ≡ self.old.words }
        ensures slots { (script : scripts.Script) → slots_in script self.new.slots ≡ slice_set (slots_in script self.old.slots) slot (slot_in script item) }
        ensures placed { (script : scripts.Script) → IsPlaced script self.old → IsSlotPlaced script item → IsPlaced script self.new }
        ensures taken { (script : scripts.Script) → IsPlaced script self.old → IsSlotPlaced script result }
    {
        mem::replace(&mut self.slots[slot], item)
    }

    /// Fills a slot. What was in it is dropped.
    pub(crate) fn fill(&mut self, slot: usize, item: Slot)
        requires { slot < 148 }
        ensures words { self.new.words ≡ self.old.words }
        ensures slots { (script : scripts.Script) → slots_in script self.new.slots ≡ slice_set (slots_in script self.old.slots) slot (slot_in script item) }
        ensures placed { (script : scripts.Script) → IsPlaced script self.old → IsSlotPlaced script item → IsPlaced script self.new }
    {
        mem::drop(self.swap(slot, item));
    }

    /// Takes out what is in a slot.
    pub(crate) fn empty(&mut self, slot: usize) -> Slot
        requires { slot < 148 }
        ensures item { (script : scripts.Script) → slot_in script result ≡ slice_index_or (slots_in script self.old.slots) slot worlds.Away }
        ensures words { self.new.words ≡ self.old.words }
        ensures slots { (script : scripts.Script) → slots_in script self.new.slots ≡ slice_set (slots_in script self.old.slots) slot worlds.Away }
        ensures placed { (script : scripts.Script) → IsPlaced script self.old → IsPlaced script self.new }
        ensures taken { (script : scripts.Script) → IsPlaced script self.old → IsSlotPlaced script result }
    {
        self.swap(slot, Slot::Away)
    }
}

impl Store {
    /// Makes the one atomic step of a move. `context` is the one in the carrier's hand, 0 to 71, and counts for an acquire alone.
    /// The move's numbers are 0 to 73. Where it acquires a lock that is free, what the lock guards must be at home. The words on
    /// which it acquires or removes must be spelled as such.
    pub fn perform(&mut self, context: u8, asked: Move) -> SeenAnswer
        requires { (script : scripts.Script) × CanPerform self.old.words (slots_in script self.old.slots) context (move_in script asked) }
        ensures answer { (script : scripts.Script) (w : World) → IsScript script → answer_in script result ≡ answer_by (with_store script self.old w) (move_in script asked) }
        ensures words { (script : scripts.Script) (w : World) → IsScript script → self.new.words ≡ words_by (with_store script self.old w) context (move_in script asked) }
        ensures slots { (script : scripts.Script) (w : World) → IsScript script → slots_in script self.new.slots ≡ slots_by script (with_store script self.old w) (move_in script asked) }
        ensures placed { (script : scripts.Script) → IsScript script → IsPlaced script self.old → IsMovePlaced script asked → IsPlaced script self.new }
        ensures given { (script : scripts.Script) → IsScript script → IsPlaced script self.old → IsAnswerPlaced script result }
    {
        match asked {
            Move::Section(step) => SeenAnswer::Section(self.section_step(context, step)),
            Move::Look(at) => SeenAnswer::Looked(self.word(WordName::Context(at))),
            Move::TakeContext {
                context: at,
                old,
                new,
            } => self.take(at, old, new),
            Move::GiveContext {
                context: at,
                new,
                value,
            } => self.give(at, new, value),
        }
    }

    // A compare-exchange of the context word. Where it is won, the context leaves its slot.
    fn take(&mut self, context: u8, old: u64, new: u64) -> SeenAnswer
        requires { IsNumber context }
        ensures performed { (script : scripts.Script) (w : World) (i : ℕ) → IsPerformed script w i (moves.TakeContext context old new) self.old self.new (answer_in script result) }
        ensures placed { (script : scripts.Script) → IsPlaced script self.old → IsPlaced script self.new }
        ensures given { (script : scripts.Script) → IsPlaced script self.old → IsAnswerPlaced script result }
    {
        let found = self.exchange(WordName::Context(context), old, new);
        if found != old {
            return SeenAnswer::TakeLost(found);
        }
        took(found, self.empty(slot_of(context)))
    }

    // A store to the context word. The context goes to its slot.
    fn give(&mut self, context: u8, new: u64, value: Context) -> SeenAnswer
        requires { IsNumber context }
        ensures performed { (script : scripts.Script) (w : World) (i : ℕ) → IsPerformed script w i (moves.GiveContext context new (seen_in script value)) self.old self.new (answer_in script result) }
        ensures placed { (script : scripts.Script) → IsPlaced script self.old → contexts.IsPlaced script value → IsPlaced script self.new }
        ensures given { (script : scripts.Script) → IsAnswerPlaced script result }
    {
        self.set_word(WordName::Context(context), new);
        self.fill(slot_of(context), Slot::Resting(value));
        SeenAnswer::Given
    }
}
