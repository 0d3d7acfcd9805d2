// What has a number.
ghost use Rattle.std.specs.Prelude.{◌≡◌, ℕ};

use k_ids::ThreadId;

/// What can stand in a list of linked rows: it has a number, which is below the number of rows.
pub trait Numbered: Copy {
    ghost number: { Self → ℕ };

    /// The number: the place of its row.
    fn number(&self) -> u8
        ensures { result ≡ number self.now };
}

impl Numbered for ThreadId {
    ghost number = { λ id. id.number };

    fn number(&self) -> u8 {
        self.number
    }
}
