// Changes of the rows: each is of a few links, and leaves all else.
ghost use Rattle.k_links.specs.Links.{IsBelow, empty_row, end_of, row_at, with_next, with_prior};
ghost use Rattle.std.specs.Prelude.{None, Some, if◌then◌else◌, length, ℕ, ◌<◌, ◌==◌, ◌≡◌};

use crate::numbered::Numbered;

/// What a list has at one number. All three are `None` where no entry has the number.
#[derive(Clone, Copy, Debug, PartialEq, Eq)]
pub struct Row<E> {
    /// The entry of this number.
    pub entry: Option<E>,
    /// The number of the entry before it: `None` for the first.
    pub prior: Option<u8>,
    /// The number of the entry after it: `None` for the last.
    pub next: Option<u8>,
}

/// The row of a number that no entry has.
pub fn empty_row<E: Numbered>() -> Row<E>
    ensures { result ≡ empty_row }
{
    Row {
        entry: None,
        prior: None,
        next: None,
    }
}

/// Writes the row of an entry that follows the last one, and lets the last one lead on to it.
pub fn append<E: Numbered>(rows: &mut [Row<E>], last: Option<u8>, entry: E)
    requires inside { E.number entry < length rows.old }
    requires last { IsBelow last (length rows.old) }
    ensures rows { (n : ℕ) → row_at rows.new n ≡ with_next last (Some (E.number entry)) n
        (if E.number entry == n then record { entry = Some entry; prior = last; next = None } else row_at rows.old n) }
    ensures size { length rows.new ≡ length rows.old }
{
    let number = entry.number();
    rows[usize::from(number)] = Row {
        entry: Some(entry),
        prior: last,
        next: None,
    };
    set_next(rows, last, Some(number));
}

/// Writes the row of an entry before the first one, and lets the first one lead back to it.
pub fn prepend<E: Numbered>(rows: &mut [Row<E>], first: Option<u8>, entry: E)
    requires inside { E.number entry < length rows.old }
    requires first { IsBelow first (length rows.old) }
    ensures rows { (n : ℕ) → row_at rows.new n ≡ with_prior first (Some (E.number entry)) n
        (if E.number entry == n then record { entry = Some entry; prior = None; next = first } else row_at rows.old n) }
    ensures size { length rows.new ≡ length rows.old }
{
    let number = entry.number();
    rows[usize::from(number)] = Row {
        entry: Some(entry),
        prior: None,
        next: first,
    };
    set_prior(rows, first, Some(number));
}

/// Empties the row of a number, and lets its neighbours lead to each other. The answer is what the row was.
pub fn cut<E: Numbered>(rows: &mut [Row<E>], number: u8) -> Row<E>
    requires inside { number < length rows.old }
    requires prior { IsBelow (row_at rows.old number).prior (length rows.old) }
    requires next { IsBelow (row_at rows.old number).next (length rows.old) }
    ensures row { result ≡ row_at rows.old number }
    ensures rows { (n : ℕ) → row_at rows.new n ≡ with_prior result.next result.prior n
        (with_next result.prior result.next n (if number == n then empty_row else row_at rows.old n)) }
    ensures size { length rows.new ≡ length rows.old }
{
    let row = rows[usize::from(number)];
    rows[usize::from(number)] = empty_row();
    set_next(rows, row.prior, row.next);
    set_prior(rows, row.next, row.prior);
    row
}

/// An end of the list: `new` where an entry has no neighbour on that side, or else what it was.
pub fn end_of(neighbour: Option<u8>, old: Option<u8>, new: Option<u8>) -> Option<u8>
    ensures { result ≡ end_of neighbour old new }
{
    match neighbour {
        Some(_) => old,
        None => new,
    }
}

// Lets the row of the number `named`, if there is one, lead on to `link`.
fn set_next<E: Numbered>(rows: &mut [Row<E>], named: Option<u8>, link: Option<u8>)
    requires { IsBelow named (length rows.old) }
    ensures rows { (n : ℕ) → row_at rows.new n ≡ with_next named link n (row_at rows.old n) }
    ensures size { length rows.new ≡ length rows.old }
{
    if let Some(number) = named {
        rows[usize::from(number)].next = link;
    }
}

// Lets the row of the number `named`, if there is one, lead back to `link`.
fn set_prior<E: Numbered>(rows: &mut [Row<E>], named: Option<u8>, link: Option<u8>)
    requires { IsBelow named (length rows.old) }
    ensures rows { (n : ℕ) → row_at rows.new n ≡ with_prior named link n (row_at rows.old n) }
    ensures size { length rows.new ≡ length rows.old }
{
    if let Some(number) = named {
        rows[usize::from(number)].prior = link;
    }
}
