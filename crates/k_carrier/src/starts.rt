// The threads that a carrier is to start.
ghost use Rattle.std.specs.Prelude.{◌≡◌, ◌<◌, ◌^◌, IfSome, Some};
ghost use Rattle.k_carrier.specs.Starts.{first_start, is_due, no_starts, with_start, without_start};

use std::marker::Model;

/// The thread numbers whose first threads are to be started. Contracts see a list of 64 entries: whether each is.
#[derive(Drop)]
pub struct Starts {
    /// Bit t is 1 where the thread of number t is to be started.
    mask: u64,
}

impl Model for Starts {
    ghost use Rattle.std.specs.Prelude.{Bool, List};
    ghost use Rattle.k_carrier.specs.Starts.{starts_in};

    ghost Value = { List Bool };

    ghost view = { λ s. starts_in s.mask };

    ghost invariant = { λ s. Unit {0} };
}

impl Starts {
    /// No thread is to be started.
    pub fn new() -> Starts
        ensures { result ≡ no_starts }
    {
        Starts { mask: 0 }
    }

    /// The lowest number whose thread is to be started.
    pub fn first(&self) -> Option<u8>
        ensures number { result ≡ first_start self.now }
        ensures small { IfSome result (λ number. number < 64) }
    {
        for number in 0..64 {
            if self.is_due(number) {
                return Some(number);
            }
        }
        None
    }

    /// The thread of this number is to be started, too.
    pub fn insert(&mut self, number: u8)
        requires { number < 64 }
        ensures { self.new ≡ with_start self.old number }
    {
        self.mask |= 1 << number;
    }

    /// Takes the lowest number out, if there is one: its thread is started.
    pub fn take_first(&mut self) -> Option<u8>
        ensures number { result ≡ first_start self.old }
        ensures small { IfSome result (λ number. number < 64) }
        ensures rest { self.new ≡ without_start self.old (first_start self.old) }
    {
        let first = self.first();
        if let Some(number) = first {
            self.remove(number);
        }
        first
    }

    // The thread of this number isn't to be started any more.
    fn remove(&mut self, number: u8)
        requires { number < 64 }
        ensures { self.new ≡ without_start self.old (Some number) }
    {
        self.mask &= !(1 << number);
    }

    // Whether the thread of this number is to be started.
    fn is_due(&self, number: u8) -> bool
        requires { number < 64 }
        ensures { result ≡ is_due self.now number }
    {
        (self.mask >> number) & 1 == 1
    }
}
