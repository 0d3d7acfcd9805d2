// A source and a sink of bytes.
ghost use Rattle.std.specs.Prelude.{ℕ, ◌≤◌, ◌<◌, List, length, Option, IfOk};
ghost use Rattle.k_outside.specs.Outside.{HasCause, Puts, Takes};

/// The outside failed.
#[derive(Clone, Copy, Debug, PartialEq, Eq)]
pub struct Failed;

/// Where bytes come from.
pub trait Source {
    /// The bytes that are left, where the source tells them.
    ghost left: { Self → Option (List ℕ) };

    /// How often it has failed: a count that never falls.
    ghost faults: { Self → ℕ };

    /// Takes the next bytes into the front of a buffer that isn't empty, and gives how many came: 0 exactly where none is
    /// left. What stands in the buffer behind them may have changed. `Failed` comes only where the count of faults rose,
    /// and takes nothing; the buffer may have changed. After `Ok` the count is as it was.
    fn take(&mut self, into: &mut [u8]) -> Result<usize, Failed>
        requires { 0 < length into.old }
        ensures bound { IfOk result (λ k. k ≤ length into.old) }
        ensures bytes { Takes (left self.old) (left self.new) result into.new }
        ensures cause { HasCause (faults self.old) (faults self.new) result };
}

/// Where bytes go.
pub trait Sink {
    /// The bytes that the sink holds, where it tells them.
    ghost held: { Self → Option (List ℕ) };

    /// How often it has failed: a count that never falls.
    ghost faults: { Self → ℕ };

    /// Appends the front of a piece that isn't empty, and gives how many bytes of it: at least one. `Failed` comes only
    /// where the count of faults rose, and appends nothing. After `Ok` the count is as it was.
    fn put(&mut self, piece: &[u8]) -> Result<usize, Failed>
        requires { 0 < length piece.now }
        ensures some { IfOk result (λ k. 0 < k) }
        ensures bound { IfOk result (λ k. k ≤ length piece.now) }
        ensures bytes { Puts (held self.old) (held self.new) result piece.now }
        ensures cause { HasCause (faults self.old) (faults self.new) result };
}
