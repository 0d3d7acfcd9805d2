// The ready lists: a list for each priority, where each number stands, and a mask of the priorities that have threads.
ghost use Rattle.k_ready.specs.Lists.{IsInNone, IsRemoved, has_thread, list_of, mask_bit, stands, with_list};
ghost use Rattle.k_ready.specs.Popped.{highest, parts_of, popped};
ghost use Rattle.std.specs.Int.{bit_at};
ghost use Rattle.std.specs.List.{All};
ghost use Rattle.std.specs.Prelude.{IfNone, IfOk, IfSome, false, length, true, ℕ, [], ◌∷◌, ◌++◌, ◌<◌, ◌≡◌};

use crate::chain::Chain;
use crate::mask::{highest, with_bit, without_bit};
use k_ids::{NoMemory, ThreadId};
use std::alloc::{AllocError, Global};
use std::marker::Model;

const PRIORITIES: usize = 64;

/// For each priority, 0 to 63, the threads that run and wait for the processor, and a count `running` that is the caller's.
///
/// Contracts see the 64 lists of thread ids and `running`. A number stands in one list at most.
#[derive(Drop)]
pub struct ReadyLists {
    chains: Vec<Chain>,
    priorities: Vec<Option<u8>>,
    mask: u64,
    running: u8,
}

impl Model for ReadyLists {
    ghost use Rattle.k_ready.specs.Lists.{Ready};
    ghost use Rattle.k_ready.specs.Kept.{IsKept};

    ghost Value = { Ready };

    ghost view = { λ s. record { lists = s.chains.items; running = s.running } };

    ghost invariant = { λ s. IsKept s.chains.items s.priorities.items s.mask };
}

impl ReadyLists {
    /// All lists are empty, and `running` is 0. It takes all memory that the lists ever need.
    pub fn opened(alloc: Global) -> Result<ReadyLists, NoMemory>
        ensures size { IfOk result (λ s. length s.lists ≡ 64) }
        ensures lists { IfOk result (λ s. (priority : ℕ) → list_of s.lists priority ≡ []) }
        ensures running { IfOk result (λ s. s.running ≡ 0) }
    {
        Ok(ReadyLists {
            chains: empty_chains(alloc)?,
            priorities: vec![in alloc; None; 64]?,
            mask: 0,
            running: 0,
        })
    }

    /// Appends a thread to the list of a priority, 0 to 63. Its number, 0 to 63, must stand in no list.
    pub fn push(&mut self, number: u8, version: u32, priority: u8)
        requires number { number < 64 }
        requires priority { priority < 64 }
        requires fresh { IsInNone number self.old.lists }
        ensures { self.new ≡ with_list self.old priority
            (list_of self.old.lists priority ++ record { number = number; version = version } ∷ []) }
    {
        self.chains[usize::from(priority)].push(ThreadId { number, version });
        self.priorities[usize::from(number)] = Some(priority);
        self.mask = with_bit(self.mask, priority);
    }

    /// The same at the front of the list.
    pub fn push_first(&mut self, number: u8, version: u32, priority: u8)
        requires number { number < 64 }
        requires priority { priority < 64 }
        requires fresh { IsInNone number self.old.lists }
        ensures { self.new ≡ with_list self.old priority
            (record { number = number; version = version } ∷ list_of self.old.lists priority) }
    {
        self.chains[usize::from(priority)].push_first(ThreadId { number, version });
        self.priorities[usize::from(number)] = Some(priority);
        self.mask = with_bit(self.mask, priority);
    }

    /// Takes the first thread of the highest list that isn't empty: its number, version and priority. `None` exactly where
    /// all lists are empty, and then nothing has changed.
    pub fn pop_highest(&mut self) -> Option<(u8, u32, u8)>
        ensures highest { result ≡ parts_of (highest self.old) }
        ensures popped { self.new ≡ popped self.old }
    {
        if self.mask == 0 {
            return None;
        }
        let priority = highest(self.mask);
        let chain = &mut self.chains[usize::from(priority)];
        let id = chain.pop_first();
        let is_empty = chain.is_empty();
        self.priorities[usize::from(id.number)] = None;
        self.mask = without_bit(self.mask, priority, is_empty);
        Some((id.number, id.version, priority))
    }

    /// Takes a thread out of the list in which it stands: `false` exactly where it stands in none, and then nothing has
    /// changed. A thread of the same number with another version isn't meant.
    pub fn remove(&mut self, number: u8, version: u32) -> bool
        ensures found { result ≡ true → (priority : ℕ) × IsRemoved self.old self.new (record { number = number; version = version }) priority }
        ensures absent { result ≡ false → (priority : ℕ) → has_thread (record { number = number; version = version }) (list_of self.old.lists priority) ≡ false }
        ensures unchanged { result ≡ false → self.new ≡ self.old }
    {
        match self.priority_of(number) {
            Some(priority) => self.remove_from(number, version, priority),
            None => false,
        }
    }

    /// Bit p is 1 exactly where the list of priority p isn't empty.
    pub fn mask(&self) -> u64
        ensures { (priority : ℕ) → priority < 64 → bit_at result priority ≡ mask_bit (list_of self.now.lists priority) }
    {
        self.mask
    }

    /// The count that was last set, or 0.
    pub fn running(&self) -> u8
        ensures { result ≡ self.now.running }
    {
        self.running
    }

    /// Sets the count. The lists stay as they are.
    pub fn set_running(&mut self, count: u8)
        ensures { self.new ≡ record self.old { running = count } }
    {
        self.running = count;
    }

    /// Does nothing. Its contract tells what holds of all ready lists: there are 64, and a number stands in one at most.
    pub fn holds(&self)
        ensures size { length self.now.lists ≡ 64 }
        ensures one { (n p q : ℕ) → stands n (list_of self.now.lists p) ≡ true → stands n (list_of self.now.lists q) ≡ true → p ≡ q }
    {
        let _priorities = &self.priorities;
    }

    /// The priority of the list in which a number stands: `None` where it stands in none.
    pub fn priority_of(&self, number: u8) -> Option<u8>
        ensures some { IfSome result (λ p. (p < 64) × (stands number (list_of self.now.lists p) ≡ true)) }
        ensures none { IfNone result (IsInNone number self.now.lists) }
    {
        match self.priorities.get(usize::from(number)) {
            Some(place) => *place,
            None => None,
        }
    }

    // Takes a thread out of the list in which its number stands, unless another version of the number stands there.
    fn remove_from(&mut self, number: u8, version: u32, priority: u8) -> bool
        requires inside { priority < 64 }
        requires standing { stands number (list_of self.old.lists priority) ≡ true }
        ensures found { result ≡ true → IsRemoved self.old self.new (record { number = number; version = version }) priority }
        ensures absent { result ≡ false → (p : ℕ) → has_thread (record { number = number; version = version }) (list_of self.old.lists p) ≡ false }
        ensures unchanged { result ≡ false → self.new ≡ self.old }
    {
        let chain = &mut self.chains[usize::from(priority)];
        if chain.entry(number).version != version {
            return false;
        }
        chain.take_number(number);
        let is_empty = chain.is_empty();
        self.priorities[usize::from(number)] = None;
        self.mask = without_bit(self.mask, priority, is_empty);
        true
    }
}

// A list for each priority.
fn empty_chains(alloc: Global) -> Result<Vec<Chain>, AllocError>
    ensures size { IfOk result (λ v. length v.items ≡ 64) }
    ensures empty { IfOk result (λ v. All (λ es. es ≡ []) v.items) }
{
    let mut chains = Vec::with_capacity(alloc, PRIORITIES)?;
    for _ in 0..PRIORITIES {
        chains.push(Chain::opened(alloc)?)?;
    }
    Ok(chains)
}
