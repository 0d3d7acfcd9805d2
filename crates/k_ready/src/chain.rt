// One list: linked rows of threads, by thread number.
ghost use Rattle.k_ready.specs.Lists.{entry_of, has_thread, is_empty, number_of, stands, without};
ghost use Rattle.std.specs.Prelude.{if◌then◌else◌, ◌==◌, IfOk, Some, false, length, true, ℕ, [], ◌∷◌, ◌++◌, ◌<◌, ◌≡◌};

use k_ids::ThreadId;
use k_links::Links;
use std::alloc::{AllocError, Global};
use std::marker::Model;

/// Thread ids in an order. Each number, 0 to 63, has one entry at most.
#[derive(Drop)]
pub struct Chain {
    links: Links<ThreadId>,
}

impl Model for Chain {
    ghost use Rattle.std.specs.Prelude.{List, ◌≡◌};
    ghost use Rattle.k_ids.specs.declared.threads.ThreadId.{ThreadId};

    ghost Value = { List ThreadId };

    ghost view = { λ s. s.links.entries };

    ghost invariant = { λ s. s.links.room ≡ 64 };
}

impl Chain {
    /// An empty list, with room for 64 entries.
    pub fn opened(alloc: Global) -> Result<Chain, AllocError>
        ensures { IfOk result (λ s. s ≡ []) }
    {
        Ok(Chain {
            links: Links::opened(alloc, 64)?,
        })
    }

    /// Appends an entry of a number that isn't there.
    pub fn push(&mut self, entry: ThreadId)
        requires inside { number_of entry < 64 }
        requires fresh { stands (number_of entry) self.old ≡ false }
        ensures { self.new ≡ self.old ++ entry ∷ [] }
    {
        self.links.push(entry);
    }

    /// The same at the front.
    pub fn push_first(&mut self, entry: ThreadId)
        requires inside { number_of entry < 64 }
        requires fresh { stands (number_of entry) self.old ≡ false }
        ensures { self.new ≡ entry ∷ self.old }
    {
        self.links.push_first(entry);
    }

    /// Takes the entry of a number out. The others keep their order.
    #[tactic(auto, using(k_links::proofs::Removed::stands_without))]
    pub fn take_number(&mut self, number: u8) -> ThreadId
        requires { stands number self.old ≡ true }
        ensures entry { entry_of number self.old ≡ Some result }
        ensures entries { self.new ≡ without number self.old }
        ensures left { (m : ℕ) → stands m self.new ≡ (if number == m then false else stands m self.old) }
        ensures inside { number < 64 }
    {
        self.links.holds();
        self.links.take_number(number)
    }

    /// Takes the first entry out. There must be one.
    pub fn pop_first(&mut self) -> ThreadId
        requires { 0 < length self.old }
        ensures first { self.old ≡ result ∷ self.new }
        ensures left { (m : ℕ) → stands m self.new ≡ (if number_of result == m then false else stands m self.old) }
        ensures inside { number_of result < 64 }
    {
        match self.links.first() {
            Some(number) => self.take_number(number),
            None => unreachable!(),
        }
    }

    /// Whether there is no entry.
    pub fn is_empty(&self) -> bool
        ensures { result ≡ is_empty self.now }
    {
        self.links.len() == 0
    }

    /// The entry of a number.
    #[tactic(auto, using(k_links::proofs::Linked::standing_entry, crate::proofs::Versions::thread_is))]
    pub fn entry(&self, number: u8) -> ThreadId
        requires { stands number self.now ≡ true }
        ensures entry { entry_of number self.now ≡ Some result }
        ensures thread { (version : ℕ) → has_thread (record { number = number; version = version }) self.now ≡ (result.version == version) }
    {
        self.links.holds();
        match self.links.entry(number) {
            Some(entry) => entry,
            None => unreachable!(),
        }
    }
}
