// One list: a row for each number, linked in the order of the entries.
ghost use Rattle.k_links.specs.Links.{row_of, row_at};
ghost use Rattle.k_links.specs.Listed.{IsOnceEach, entry_of, first_number, number_after, stands, without};
ghost use Rattle.std.specs.Prelude.{IfOk, None, Some, false, length, true, ℕ, [], ◌∷◌, ◌++◌, ◌<◌, ◌≡◌, ◌≤◌};

use crate::numbered::Numbered;
use crate::rows::{Row, append, cut, empty_row, end_of, prepend};
use std::alloc::{AllocError, Global};
use std::marker::Model;

/// Entries in an order. Each number has one entry at most.
///
/// Contracts see the list of entries and `room`, how many numbers there are.
#[derive(Drop)]
pub struct Links<E: Numbered> {
    rows: Vec<Row<E>>,
    first: Option<u8>,
    last: Option<u8>,
    count: usize,
}

impl<E: Numbered> Model for Links<E> {
    ghost use Rattle.std.specs.Prelude.{length};
    ghost use Rattle.k_links.specs.Listed.{Linked};

    ghost Value = { Linked E };

    ghost use Rattle.k_links.specs.Links.{IsLinked, walked};

    ghost view = { λ s. record { entries = walked s.rows.items s.count s.first; room = length s.rows.items } };

    ghost invariant = { λ s. IsLinked E.number s.rows.items s.first s.last s.count (walked s.rows.items s.count s.first) };
}

impl<E: Numbered> Links<E> {
    /// An empty list for the numbers below `n`, 0 to 255. It takes all memory that the list ever needs.
    pub fn opened(alloc: Global, n: u8) -> Result<Links<E>, AllocError>
        ensures entries { IfOk result (λ s. s.entries ≡ []) }
        ensures room { IfOk result (λ s. s.room ≡ n) }
    {
        let mut rows = Vec::with_capacity(alloc, usize::from(n))?;
        for _ in 0..n {
            rows.push(empty_row())?;
        }
        Ok(Links {
            rows,
            first: None,
            last: None,
            count: 0,
        })
    }

    /// Appends an entry. Its number must be below `n`, and no entry may have the same number.
    pub fn push(&mut self, entry: E)
        requires inside { E.number entry < self.old.room }
        requires new { stands E.number (E.number entry) self.old.entries ≡ false }
        ensures entries { self.new.entries ≡ self.old.entries ++ entry ∷ [] }
        ensures room { self.new.room ≡ self.old.room }
    {
        let number = entry.number();
        append(&mut self.rows, self.last, entry);
        self.first = end_of(self.last, self.first, Some(number));
        self.last = Some(number);
        self.count += 1;
    }

    /// The same at the front.
    pub fn push_first(&mut self, entry: E)
        requires inside { E.number entry < self.old.room }
        requires new { stands E.number (E.number entry) self.old.entries ≡ false }
        ensures entries { self.new.entries ≡ entry ∷ self.old.entries }
        ensures room { self.new.room ≡ self.old.room }
    {
        let number = entry.number();
        prepend(&mut self.rows, self.first, entry);
        self.last = end_of(self.first, self.last, Some(number));
        self.first = Some(number);
        self.count += 1;
    }

    /// Takes the entry of a number out. The others keep their order. An entry must have the number.
    pub fn take_number(&mut self, number: u8) -> E
        requires { stands E.number number self.old.entries ≡ true }
        ensures entry { entry_of E.number number self.old.entries ≡ Some result }
        ensures entries { self.new.entries ≡ without E.number number self.old.entries }
        ensures room { self.new.room ≡ self.old.room }
    {
        let row = cut(&mut self.rows, number);
        self.first = end_of(row.prior, self.first, row.next);
        self.last = end_of(row.next, self.last, row.prior);
        self.count -= 1;
        match row.entry {
            Some(entry) => entry,
            None => unreachable!(),
        }
    }

    /// How many entries there are.
    pub fn len(&self) -> usize
        ensures { result ≡ length self.now.entries }
    {
        self.count
    }

    /// The number of the first entry: `None` exactly where there is none.
    pub fn first(&self) -> Option<u8>
        ensures { result ≡ first_number E.number self.now.entries }
    {
        self.first
    }

    /// The number of the entry after that of a number: `None` exactly where it is the last. An entry must have the number.
    pub fn after(&self, number: u8) -> Option<u8>
        requires { stands E.number number self.now.entries ≡ true }
        ensures { result ≡ number_after E.number number self.now.entries }
    {
        self.row(number).next
    }

    /// The entry of a number: `None` exactly where no entry has it.
    pub fn entry(&self, number: u8) -> Option<E>
        ensures { result ≡ entry_of E.number number self.now.entries }
    {
        match self.rows.get(usize::from(number)) {
            Some(row) => row.entry,
            None => None,
        }
    }

    /// The rows of the numbers 0 to `n` - 1.
    pub fn rows(&self) -> &[Row<E>]
        ensures size { length result.now ≡ self.now.room }
        ensures rows { (number : ℕ) → row_at result.now number ≡ row_of E.number self.now.entries number }
    {
        &self.rows
    }

    /// Does nothing. Its contract tells what holds of each list: each number has one entry at most, and is below `n`. So there
    /// are at most `n` entries.
    pub fn holds(&self)
        ensures once { IsOnceEach E.number self.now.entries }
        ensures inside { (number : ℕ) → stands E.number number self.now.entries ≡ true → number < self.now.room }
        ensures few { length self.now.entries ≤ self.now.room }
    {
        let _rows = &self.rows;
    }

    // The row of a number that an entry has.
    fn row(&self, number: u8) -> Row<E>
        requires { stands E.number number self.now.entries ≡ true }
        ensures { result ≡ row_of E.number self.now.entries number }
    {
        self.rows[usize::from(number)]
    }
}
