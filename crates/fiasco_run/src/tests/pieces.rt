// A source that gives few bytes at a time.
ghost use Rattle.std.specs.Prelude.{ℕ, ◌≤◌, ◌<◌, List, length, Option, Some, IfOk};

use k_outside::{Failed, MemSource, Source};

/// Gives at most so many bytes a call: at least one.
#[derive(Drop)]
pub struct Pieces {
    source: MemSource,
    most: usize,
    ghost some: { 0 < most },
}

impl Pieces {
    pub fn of(source: MemSource, most: usize) -> Pieces
        requires { 0 < most }
    {
        Pieces { source, most }
    }
}

impl Source for Pieces {
    ghost left = { λ s. Some s.source.left };

    ghost faults = { λ s. s.source.faults };

    fn take(&mut self, into: &mut [u8]) -> Result<usize, Failed> {
        let count = self.most.min(into.len());
        self.source.take(&mut into[..count])
    }
}
