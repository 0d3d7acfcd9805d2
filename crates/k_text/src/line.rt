// One line of text, of at most 128 bytes.
ghost use Rattle.std.specs.Prelude.{◌≡◌, ◌+◌, ◌≤◌, ◌++◌, [], length, decimal, codes};

use itoa::Buffer;
use std::marker::Model;

/// A line, written word by word into 128 bytes of its own. Contracts see its text. Each method that appends has the
/// condition that the room suffices for the longest text that it can append, in bytes.
#[derive(Drop)]
pub struct Line {
    bytes: [u8; 128],
    len: usize,
}

impl Model for Line {
    ghost use Rattle.std.specs.Prelude.{List, ℕ, ◌≤◌, take};

    ghost Value = { List ℕ };

    ghost view = { λ l. take l.len l.bytes };

    ghost invariant = { λ l. l.len ≤ 128 };
}

impl Line {
    /// An empty line.
    pub fn new() -> Line
        ensures { result ≡ [] }
    {
        Line {
            bytes: [0; 128],
            len: 0,
        }
    }

    /// The text so far.
    pub fn as_bytes(&self) -> &[u8]
        ensures text { result.now ≡ self.now }
        ensures short { length result.now ≤ 128 }
    {
        &self.bytes[..self.len]
    }

    /// Appends bytes as they are.
    pub fn push(&mut self, piece: &[u8])
        requires { length self.old + length piece.now ≤ 128 }
        ensures text { self.new ≡ self.old ++ piece.now }
        ensures short { length self.new ≤ length self.old + length piece.now }
    {
        let end = self.len + piece.len();
        self.bytes[self.len..end].copy_from_slice(piece);
        self.len = end;
    }

    /// Ends the line by a line feed.
    pub fn end(&mut self)
        requires { length self.old + 1 ≤ 128 }
        ensures text { self.new ≡ self.old ++ codes "\n" }
        ensures short { length self.new ≤ length self.old + 1 }
    {
        self.push(b"\n");
    }

    /// Appends a space and a word.
    pub fn push_word(&mut self, word: &[u8])
        requires { length self.old + 1 + length word.now ≤ 128 }
        ensures text { self.new ≡ self.old ++ (codes " " ++ word.now) }
        ensures short { length self.new ≤ length self.old + 1 + length word.now }
    {
        self.push(b" ");
        self.push(word);
    }

    /// Appends the digits of a number, at most 10.
    pub fn push_digits(&mut self, n: u32)
        requires { length self.old + 10 ≤ 128 }
        ensures text { self.new ≡ self.old ++ decimal n }
        ensures short { length self.new ≤ length self.old + 10 }
    {
        let mut buffer = Buffer::new();
        self.push(buffer.format(n).as_bytes());
    }

    /// Appends the digits of a small number, at most 3.
    pub fn push_small_digits(&mut self, n: u8)
        requires { length self.old + 3 ≤ 128 }
        ensures text { self.new ≡ self.old ++ decimal n }
        ensures short { length self.new ≤ length self.old + 3 }
    {
        let mut buffer = Buffer::new();
        self.push(buffer.format(n).as_bytes());
    }

    /// Appends a space and a number, of at most 10 digits.
    pub fn push_number(&mut self, n: u32)
        requires { length self.old + 11 ≤ 128 }
        ensures text { self.new ≡ self.old ++ (codes " " ++ decimal n) }
        ensures short { length self.new ≤ length self.old + 11 }
    {
        self.push(b" ");
        self.push_digits(n);
    }

    /// Appends a space and a small number, of at most 3 digits.
    pub fn push_small(&mut self, n: u8)
        requires { length self.old + 4 ≤ 128 }
        ensures text { self.new ≡ self.old ++ (codes " " ++ decimal n) }
        ensures short { length self.new ≤ length self.old + 4 }
    {
        self.push(b" ");
        self.push_small_digits(n);
    }
}
