// A place in a program.
ghost use Rattle.std.specs.Prelude.{◌≡◌, ◌≤◌, ◌<◌, ◌+◌, List, ◌++◌, IfSome, IfNone, [], false, slice_get};
ghost use Rattle.std.specs.Option.{option_to_list};
ghost use Rattle.k_script.specs.declared.operation.Operation.{Operation};
ghost use Rattle.k_script.specs.Flat.{flat, is_marker};
ghost use Rattle.k_script.specs.Place.{left_at, IsCursor, IsNested, into_repeat, out_of_repeat, to_next_turn, at_again, entered_then};
ghost use Rattle.k_script.specs.Skips.{AreSkips, skip_in};

use crate::operation::Operation;
use crate::skips::skip_from;

/// A repeat that is open.
#[derive(Clone, Copy)]
pub(crate) struct Turn {
    /// Where its body begins.
    body: u16,
    /// How many turns are still to come after this one.
    left: u16,
}

/// A place in a program, and the repeats that are open there, the innermost first. Where fewer are open the others are any.
#[derive(Clone, Copy)]
pub(crate) struct Cursor {
    at: u16,
    first: Turn,
    second: Turn,
    third: Turn,
    fourth: Turn,
}

impl Cursor {
    /// The start of a program.
    pub(crate) fn start() -> Cursor
        ensures left { (ops : List Operation) → IsNested ops → left_at ops result ≡ flat ops }
        ensures placed { (ops : List Operation) → IsNested ops → IsCursor ops result }
    {
        let closed = Turn { body: 0, left: 0 };
        Cursor {
            at: 0,
            first: closed,
            second: closed,
            third: closed,
            fourth: closed,
        }
    }

    fn enter(&mut self, count: u16)
        requires place { self.old.at < 4096 }
        requires turns { 1 ≤ count }
        ensures { self.new ≡ into_repeat self.old count }
    {
        let body = self.at + 1;
        *self = Cursor {
            at: body,
            first: Turn {
                body,
                left: count - 1,
            },
            second: self.first,
            third: self.second,
            fourth: self.third,
        };
    }

    fn leave(&mut self)
        requires { self.old.at < 4096 }
        ensures { self.new ≡ out_of_repeat self.old }
    {
        *self = Cursor {
            at: self.at + 1,
            first: self.second,
            second: self.third,
            third: self.fourth,
            fourth: self.fourth,
        };
    }

    fn turn(&mut self)
        requires { 0 < self.old.first.left }
        ensures { self.new ≡ to_next_turn self.old }
    {
        self.at = self.first.body;
        self.first.left -= 1;
    }

    /// Goes behind the empty repeats that begin at the place, and reads the operation there.
    fn read(&mut self, operations: &[Operation], skips: &[u16]) -> Option<Operation>
        ensures place { self.new ≡ record self.old { at = skip_in skips.now self.old.at } }
        ensures operation { result ≡ slice_get operations.now self.new.at }
    {
        self.at = skip_from(skips, self.at);
        operations.get(usize::from(self.at)).copied()
    }

    /// Takes the next operation that is no repeat and no again, None behind the last. At each place it goes behind the empty
    /// repeats that begin there. A repeat that was entered all the same and ends before an operation has nothing in it, and is
    /// left whatever turns it has: `entered` counts the innermost repeats whose turn began since the last operation.
    pub(crate) fn next(&mut self, operations: &[Operation], skips: &[u16]) -> Option<Operation>
        requires program { IsNested operations.now }
        requires skips { AreSkips operations.now skips.now }
        requires place { IsCursor operations.now self.old }
        ensures left { left_at operations.now self.old ≡ option_to_list result ++ left_at operations.now self.new }
        ensures end { IfNone result (left_at operations.now self.new ≡ []) }
        ensures plain { IfSome result (λ op. is_marker op ≡ false) }
        ensures placed { IsCursor operations.now self.new }
    {
        let mut entered = 0u8;
        while let Some(operation) = self.read(operations, skips) {
            match operation {
                Operation::Repeat { count } => {
                    self.enter(count);
                    entered += 1;
                }
                Operation::Again => {
                    entered = self.close(entered);
                }
                operation => {
                    self.at += 1;
                    return Some(operation);
                }
            }
        }
        None
    }

    /// At an again: leaves the innermost repeat or begins its next turn. Answers how many open repeats were entered since the
    /// last operation, given how many were.
    fn close(&mut self, entered: u8) -> u8
        requires { self.old.at < 4096 }
        ensures place { self.new ≡ at_again self.old entered }
        ensures entered { result ≡ entered_then self.old entered }
    {
        if entered > 0 {
            self.leave();
            entered - 1
        } else if self.first.left == 0 {
            self.leave();
            0
        } else {
            self.turn();
            1
        }
    }
}
