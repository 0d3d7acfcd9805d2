// The thread numbers: which have a thread, and of which version.
ghost use Rattle.std.specs.Prelude.{◌≡◌, ◌<◌, ◌≤◌, true, length, IfSome};
ghost use Rattle.k_model.specs.Step.{last_version};
ghost use Rattle.k_locks.specs.Numbers.{alive, is_free, is_present, is_worn, lowest_free, version_at, with_thread, without_thread, worn};

use std::marker::Model;

/// The last version that a number can have.
const LAST_VERSION: u32 = 1_048_575;

/// The list of thread numbers, which the table lock guards.
///
/// Contracts see two lists of `count` entries: the versions, and whether there is a thread.
#[derive(Drop)]
pub struct Numbers {
    /// Of each number: the version of the thread that has it, or had it last; 0 where it has had none, at most 1,048,575.
    pub versions: [u32; 64],
    /// Bit t is 1 where number t has a thread.
    pub present: u64,
    /// How many numbers there are, 1 to 64: the table's size.
    pub count: u8,
}

impl Model for Numbers {
    ghost use Rattle.std.specs.Prelude.{take, ◌≤◌};
    ghost use Rattle.k_locks.specs.Numbers.{ThreadNumbers, presences};

    ghost Value = { ThreadNumbers };

    ghost view = { λ n. record { versions = take n.count n.versions; present = presences n.present n.count } };

    ghost invariant = { λ n. n.count ≤ 64 };
}

impl Numbers {
    /// How many numbers there are.
    pub fn count(&self) -> u8
        ensures versions { result ≡ length self.now.versions }
        ensures present { result ≡ length self.now.present }
        ensures few { result ≤ 64 }
    {
        self.count
    }

    /// Whether a number has a thread.
    pub fn is_present(&self, number: u8) -> bool
        requires { number < length self.now.versions }
        ensures { result ≡ is_present self.now number }
    {
        (self.present >> number) & 1 == 1
    }

    /// The version of the thread that has the number, or had it last; 0 where it has had none.
    pub fn version(&self, number: u8) -> u32
        requires { number < length self.now.versions }
        ensures { result ≡ version_at self.now number }
    {
        self.versions[usize::from(number)]
    }

    /// The lowest number below `count` that a new thread may get: it has no thread, and its version isn't the last. `None`
    /// exactly where there is none.
    pub fn lowest_free(&self) -> Option<u8>
        ensures number { result ≡ lowest_free self.now }
        ensures free { IfSome result (λ number. is_free self.now number ≡ true) }
        ensures inside { IfSome result (λ number. number < length self.now.versions) }
    {
        for number in 0..self.count() {
            if self.is_free(number) {
                return Some(number);
            }
        }
        None
    }

    /// How many numbers below `count` have a thread.
    pub fn alive(&self) -> u8
        ensures number { result ≡ alive self.now }
        ensures few { result ≤ 64 }
    {
        let mut alive = 0;
        for number in 0..self.count() {
            if self.is_present(number) {
                alive += 1;
            }
        }
        alive
    }

    /// How many numbers below `count` have no thread, and have had their last.
    pub fn worn(&self) -> u8
        ensures number { result ≡ worn self.now }
        ensures few { result ≤ 64 }
    {
        let mut worn = 0;
        for number in 0..self.count() {
            if self.is_worn(number) {
                worn += 1;
            }
        }
        worn
    }

    /// The numbers where this one has a new thread, of the next version. The number may have no thread, and not its last
    /// version.
    pub fn with_thread(&self, number: u8) -> Numbers
        requires inside { number < length self.now.versions }
        requires young { version_at self.now number < last_version }
        ensures { result ≡ with_thread number self.now }
    {
        let mut versions = self.versions;
        versions[usize::from(number)] += 1;
        Numbers {
            versions,
            present: self.present | (1 << number),
            count: self.count,
        }
    }

    /// The numbers where this one has no thread any more. Its version stays.
    pub fn without_thread(&self, number: u8) -> Numbers
        requires { number < 64 }
        ensures { result ≡ without_thread number self.now }
    {
        Numbers {
            present: self.present & !(1 << number),
            ..*self
        }
    }

    // Whether a new thread may get the number.
    fn is_free(&self, number: u8) -> bool
        requires { number < length self.now.versions }
        ensures { result ≡ is_free self.now number }
    {
        !self.is_present(number) && self.versions[usize::from(number)] < LAST_VERSION
    }

    // Whether the number has no thread, and has had its last.
    fn is_worn(&self, number: u8) -> bool
        requires { number < length self.now.versions }
        ensures { result ≡ is_worn self.now number }
    {
        !self.is_present(number) && self.versions[usize::from(number)] == LAST_VERSION
    }
}
