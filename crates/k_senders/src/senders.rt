// The queue: linked rows of entries, by thread number.
ghost use Rattle.k_links.specs.Links.{row_at};
ghost use Rattle.k_senders.specs.Entries.{number_of};
ghost use Rattle.k_senders.specs.Places.{IsKnown, IsNumberAt, is_of};
ghost use Rattle.k_senders.specs.Queue.{IsOnceEach, entry_of, first_number, number_after, row_of, stands, without};
ghost use Rattle.k_senders.specs.Queue.{sends, without_thread};
ghost use Rattle.std.specs.Prelude.{IfOk, Some, false, length, remove, slice_get, true, ℕ, [], ◌∷◌, ◌++◌, ◌<◌, ◌≡◌, ◌≤◌};

use crate::entries::{SenderEntry, thread_of};
use k_ids::NoMemory;
use k_links::{Links, Row};
use std::alloc::Global;
use std::marker::Model;

/// Those who wait to send to one thread, in the order in which they came. Each thread number has one entry at most.
///
/// Contracts see the list of entries and `room`, how many numbers there are.
#[derive(Drop)]
pub struct Senders {
    links: Links<SenderEntry>,
}

impl Model for Senders {
    ghost use Rattle.k_senders.specs.Queue.{Queue};

    ghost Value = { Queue };

    ghost view = { λ s. record { entries = s.links.entries; room = s.links.room } };
}

impl Senders {
    /// An empty queue for the thread numbers below `n`, 0 to 255. It takes all memory that the queue ever needs.
    pub fn opened(alloc: Global, n: u8) -> Result<Senders, NoMemory>
        ensures entries { IfOk result (λ s. s.entries ≡ []) }
        ensures room { IfOk result (λ s. s.room ≡ n) }
    {
        Ok(Senders {
            links: Links::opened(alloc, n)?,
        })
    }

    /// Appends an entry. Its number must be below `n`, and no entry may have the same number.
    pub fn push(&mut self, entry: SenderEntry)
        requires inside { number_of entry < self.old.room }
        requires new { stands (number_of entry) self.old.entries ≡ false }
        ensures entries { self.new.entries ≡ self.old.entries ++ entry ∷ [] }
        ensures room { self.new.room ≡ self.old.room }
    {
        self.links.push(entry);
    }

    /// Takes the entry of a number out. The others keep their order. An entry must have the number.
    pub fn take_number(&mut self, number: u8) -> SenderEntry
        requires { stands number self.old.entries ≡ true }
        ensures entry { entry_of number self.old.entries ≡ Some result }
        ensures entries { self.new.entries ≡ without number self.old.entries }
        ensures room { self.new.room ≡ self.old.room }
    {
        self.links.take_number(number)
    }

    /// The entry at a position, counted from 0. It walks so many links.
    pub fn at(&self, i: usize) -> SenderEntry
        requires { i < length self.now.entries }
        ensures { slice_get self.now.entries i ≡ Some result }
    {
        self.standing(self.number_at(i))
    }

    /// Takes the entry at a position out, counted from 0. The others keep their order. It walks so many links.
    pub fn take(&mut self, i: usize) -> SenderEntry
        requires { i < length self.old.entries }
        ensures entry { slice_get self.old.entries i ≡ Some result }
        ensures entries { self.new.entries ≡ remove self.old.entries i }
        ensures room { self.new.room ≡ self.old.room }
    {
        let number = self.number_at(i);
        self.take_number(number)
    }

    /// Takes the first entry of a thread out: `false` exactly where there is none. The others keep their order.
    pub fn unlink(&mut self, who: u64) -> bool
        ensures found { result ≡ sends who self.old.entries }
        ensures entries { self.new.entries ≡ without_thread who self.old.entries }
        ensures room { self.new.room ≡ self.old.room }
    {
        let found = self.has_thread(who);
        if found {
            self.take_number(thread_of(who).number);
        }
        found
    }

    /// How many entries there are.
    pub fn len(&self) -> usize
        ensures { result ≡ length self.now.entries }
    {
        self.links.len()
    }

    /// The number of the first entry: `None` exactly where there is none.
    pub fn first(&self) -> Option<u8>
        ensures { result ≡ first_number self.now.entries }
    {
        self.links.first()
    }

    /// The number of the entry after that of a number: `None` exactly where it is the last. An entry must have the number.
    pub fn after(&self, number: u8) -> Option<u8>
        requires { stands number self.now.entries ≡ true }
        ensures { result ≡ number_after number self.now.entries }
    {
        self.links.after(number)
    }

    /// The entry of a number: `None` exactly where no entry has it.
    pub fn entry(&self, number: u8) -> Option<SenderEntry>
        ensures { result ≡ entry_of number self.now.entries }
    {
        self.links.entry(number)
    }

    /// The rows of the numbers 0 to `n` - 1: the entry of each number, and the numbers of the entries before and after it.
    /// All three are `None` where no entry has the number.
    pub fn rows(&self) -> &[Row<SenderEntry>]
        ensures size { length result.now ≡ self.now.room }
        ensures rows { (number : ℕ) → row_at result.now number ≡ row_of self.now.entries number }
    {
        self.links.rows()
    }

    /// Does nothing. Its contract tells what holds of each queue: each number has one entry at most, and is below `n` and 64.
    #[tactic(auto, using(crate::proofs::Positions::few_entries))]
    pub fn holds(&self)
        ensures once { IsOnceEach self.now.entries }
        ensures inside { (number : ℕ) → stands number self.now.entries ≡ true → number < self.now.room }
        ensures few { length self.now.entries ≤ 64 }
    {
        self.links.holds();
    }

    // The number of the entry at a position.
    fn number_at(&self, i: usize) -> u8
        requires { i < length self.now.entries }
        ensures { IsNumberAt self.now.entries i result }
    {
        self.holds();
        let mut number = self.first();
        for _ in 0..i {
            number = match number {
                Some(before) => self.after(before),
                None => None,
            };
        }
        match number {
            Some(number) => number,
            None => unreachable!(),
        }
    }

    // The entry of a number that stands.
    #[tactic(auto, using(k_links::proofs::Linked::standing_entry))]
    fn standing(&self, number: u8) -> SenderEntry
        requires { stands number self.now.entries ≡ true }
        ensures { entry_of number self.now.entries ≡ Some result }
    {
        match self.entry(number) {
            Some(entry) => entry,
            None => unreachable!(),
        }
    }

    // Whether an entry is of a thread.
    #[tactic(auto, using(crate::proofs::Positions::known))]
    fn has_thread(&self, who: u64) -> bool
        ensures { IsKnown self.now.entries who result }
    {
        self.holds();
        is_of(self.entry(thread_of(who).number), who)
    }
}

// Whether an entry is there, and of a thread.
fn is_of(entry: Option<SenderEntry>, who: u64) -> bool
    ensures { result ≡ is_of who entry }
{
    match entry {
        Some(entry) => entry.who == who,
        None => false,
    }
}
