// The name of a program.
ghost use Rattle.std.specs.Prelude.{◌≡◌, ◌≤◌, length};
ghost use Rattle.std.specs.Str.{bytes_eq};

use std::marker::Model;

/// The name of a program: 1 to 16 letters, digits and underscores.
#[derive(Drop)]
pub struct Name {
    bytes: [u8; 16],
    len: usize,
}

impl Model for Name {
    ghost use Rattle.std.specs.Prelude.{List, ℕ, ◌≤◌, take};

    ghost Value = { List ℕ };

    ghost view = { λ n. take n.len n.bytes };

    ghost invariant = { λ n. n.len ≤ 16 };
}

impl Name {
    /// Condition: at most 16 bytes.
    pub fn of(word: &[u8]) -> Name
        requires { length word.now ≤ 16 }
        ensures { result ≡ word.now }
    {
        let mut bytes = [0u8; 16];
        let len = word.len();
        bytes[..len].copy_from_slice(word);
        Name { bytes, len }
    }

    pub fn as_bytes(&self) -> &[u8]
        ensures { result.now ≡ self.now }
    {
        &self.bytes[..self.len]
    }

    pub fn is(&self, other: &Name) -> bool
        ensures { result ≡ bytes_eq self.now other.now }
    {
        self.as_bytes() == other.as_bytes()
    }
}
