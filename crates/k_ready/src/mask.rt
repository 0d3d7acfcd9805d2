// A mask of priorities: bit p is 1 where priority p has threads.
ghost use Rattle.std.specs.Int.{bit_at};
ghost use Rattle.std.specs.Prelude.{if◌then◌else◌, ℕ, ◌<◌, ◌≢◌, ◌≡◌};

/// The mask with a priority's bit set.
#[tactic(auto, using(crate::proofs::Masks::set_same, crate::proofs::Masks::set_other))]
pub fn with_bit(mask: u64, priority: u8) -> u64
    requires { priority < 64 }
    ensures same { bit_at result priority ≡ 1 }
    ensures others { (p : ℕ) → p ≢ priority → bit_at result p ≡ bit_at mask p }
{
    mask | (1 << priority)
}

/// The mask with a priority's bit cleared, where the priority has no threads any more.
#[tactic(auto, using(crate::proofs::Masks::clear_same, crate::proofs::Masks::clear_other))]
pub fn without_bit(mask: u64, priority: u8, is_empty: bool) -> u64
    requires { priority < 64 }
    ensures same { bit_at result priority ≡ (if is_empty then 0 else bit_at mask priority) }
    ensures others { (p : ℕ) → p < 64 → p ≢ priority → bit_at result p ≡ bit_at mask p }
{
    if is_empty {
        mask & !(1 << priority)
    } else {
        mask
    }
}

/// The highest priority whose bit is set. One must be.
#[tactic(auto, using(crate::proofs::Masks::highest_bit, crate::proofs::Masks::none_above))]
pub fn highest(mask: u64) -> u8
    requires { mask ≢ 0 }
    ensures inside { result < 64 }
    ensures set { bit_at mask result ≡ 1 }
    ensures others { (p : ℕ) → result < p → bit_at mask p ≡ 0 }
{
    (63 - mask.leading_zeros()) as u8
}
