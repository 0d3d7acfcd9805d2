// The steps of critical sections on the shared words and slots.
ghost use Rattle.std.specs.Prelude.{◌≡◌, ◌<◌, ℕ};
ghost use Rattle.k_ids.specs.ContextWords.{IsContextSpelling, context_bits, context_word_of};
ghost use Rattle.k_ids.specs.LockWords.{IsLockSpelling, lock_word_of};
ghost use Rattle.k_ids.specs.StateWords.{IsPartner};
ghost use Rattle.k_ids.specs.declared.context_word.ContextWord.TheVariants.{Clean};
ghost use Rattle.k_locks.specs.declared.locks.WordName.TheVariants as word;
ghost use Rattle.k_locks.specs.declared.steps.Step.TheVariants as step;
ghost use Rattle.k_locks.specs.Places.{lock_number};
ghost use Rattle.k_locks.specs.Steps.{not_acquired, not_removed};
ghost use Rattle.k_script.specs.Script as scripts;
ghost use Rattle.k_script.specs.Limits.{IsScript};
ghost use Rattle.k_world.specs.Worlds.{World};
ghost use Rattle.k_store.specs.Conditions.{CanAcquire, CanStep, IsInside, IsNumber, found_at};
ghost use Rattle.k_store.specs.Stores.{IsPlaced, IsStepped, IsTold, slots_in};

use crate::places::{home_of, slot_of};
use crate::slots::Slot;
use crate::store::Store;
use k_context::Context;
use k_ids::{ContextWord, LockWord, ThreadId};
use k_locks::{Answer, Goods, Lock, Step, Told, WordName};

impl Store {
    /// One atomic step of the section of this context.
    pub(crate) fn section_step(&mut self, context: u8, asked: Step) -> Answer
        requires { (script : scripts.Script) × CanStep self.old.words (slots_in script self.old.slots) context asked }
        ensures performed { (script : scripts.Script) (w : World) → IsScript script → IsStepped script w context asked self.old self.new result }
        ensures placed { (script : scripts.Script) → IsScript script → IsPlaced script self.old → IsPlaced script self.new }
    {
        match asked {
            Step::Load(name) => Answer::Told(Told::Loaded(self.word(name))),
            Step::Store { word, value } => {
                self.set_word(word, value);
                Answer::Told(Told::Stored)
            }
            Step::Exchange { word, old, new } => Answer::Told(self.exchanged(word, old, new)),
            Step::Acquire(lock) => self.acquire(context, lock),
            Step::Release { lock, goods } => Answer::Told(self.release(lock, goods)),
            Step::Place {
                id,
                program,
                priority,
            } => Answer::Told(self.place(id, program, priority)),
            Step::Remove { id } => Answer::Told(self.remove(id)),
        }
    }

    // A compare-exchange.
    fn exchanged(&mut self, name: WordName, old: u64, new: u64) -> Told
        requires { IsInside name }
        ensures performed { (script : scripts.Script) (w : World) (context : ℕ) → IsTold script w context (step.Exchange name old new) self.old self.new result }
        ensures placed { (script : scripts.Script) → IsPlaced script self.old → IsPlaced script self.new }
    {
        let found = self.exchange(name, old, new);
        if found == old {
            Told::Won
        } else {
            Told::Lost { found }
        }
    }

    // Where the lock is free, the context owns it, and what it guards leaves its slot.
    fn acquire(&mut self, context: u8, lock: Lock) -> Answer
        requires { (script : scripts.Script) × CanAcquire self.old.words (slots_in script self.old.slots) context lock }
        ensures performed { (script : scripts.Script) (w : World) → IsStepped script w context (step.Acquire lock) self.old self.new result }
        ensures placed { (script : scripts.Script) → IsPlaced script self.old → IsPlaced script self.new }
    {
        let free = LockWord::Free.bits();
        let owned = LockWord::Owned { context }.bits();
        let found = self.exchange(WordName::Lock(lock), free, owned);
        if found != free {
            return Answer::Told(not_acquired(found));
        }
        match self.empty(home_of(lock)) {
            Slot::Guarded(goods) => Answer::Got(goods),
            Slot::Resting(_) | Slot::Away => unreachable!(),
        }
    }

    // The lock is free, and what it guards goes to its slot.
    fn release(&mut self, lock: Lock, goods: Goods) -> Told
        requires { IsNumber (lock_number lock) }
        ensures performed { (script : scripts.Script) (w : World) (context : ℕ) → IsTold script w context (step.Release lock goods) self.old self.new result }
        ensures placed { (script : scripts.Script) → IsPlaced script self.old → IsPlaced script self.new }
    {
        self.set_word(WordName::Lock(lock), LockWord::Free.bits());
        self.fill(home_of(lock), Slot::Guarded(goods));
        Told::Released
    }

    // Where the slot of its number is empty, a new thread's context rests there.
    fn place(&mut self, id: ThreadId, program: u8, priority: u8) -> Told
        requires id { IsPartner id }
        requires priority { priority < 64 }
        ensures performed { (script : scripts.Script) (w : World) (context : ℕ) → IsScript script → IsTold script w context (step.Place id program priority) self.old self.new result }
        ensures placed { (script : scripts.Script) → IsScript script → IsPlaced script self.old → IsPlaced script self.new }
    {
        let empty = ContextWord::Empty.bits();
        let found = self.exchange(WordName::Context(id.number), empty, clean_bits(id));
        if found == empty {
            let context = Context::of_thread(id, program, priority);
            self.fill(slot_of(id.number), Slot::Resting(context));
        }
        Told::Placed
    }

    // The victim's context is dropped, unless it holds locks or is in a hand.
    fn remove(&mut self, id: ThreadId) -> Told
        requires id { IsPartner id }
        requires spelled { IsContextSpelling (found_at self.old.words (word.Context id.number)) }
        ensures performed { (script : scripts.Script) (w : World) (context : ℕ) → IsTold script w context (step.Remove id) self.old self.new result }
        ensures placed { (script : scripts.Script) → IsPlaced script self.old → IsPlaced script self.new }
    {
        let clean = clean_bits(id);
        let found = self.exchange(
            WordName::Context(id.number),
            clean,
            ContextWord::Empty.bits(),
        );
        if found != clean {
            return not_removed(id.number, found);
        }
        self.fill(slot_of(id.number), Slot::Away);
        Told::Removed
    }
}

// The word of a thread's context that holds no lock.
fn clean_bits(id: ThreadId) -> u64
    requires { IsPartner id }
    ensures { result ≡ context_bits (Clean id.version) }
{
    let word = ContextWord::Clean {
        version: id.version,
    };
    word.bits()
}

// The lock's word was this: who owns it.
fn not_acquired(found: u64) -> Told
    requires { IsLockSpelling found }
    ensures { result ≡ not_acquired (lock_word_of found) }
{
    match LockWord::read(found) {
        Some(LockWord::Owned { context }) => Told::Owned { owner: context },
        _ => Told::Owned { owner: 0 },
    }
}

// The context's word was this: who has to be waited for.
fn not_removed(context: u8, found: u64) -> Told
    requires { IsContextSpelling found }
    ensures { result ≡ not_removed context (context_word_of found) }
{
    match ContextWord::read(found) {
        Some(ContextWord::Taken { carrier, .. }) => Told::Taken { context, carrier },
        _ => Told::Holds { context },
    }
}
