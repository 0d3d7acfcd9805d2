// Laws of the definitions.
ghost use Rattle.std.specs.Prelude.{◌≡◌, ◌≤◌, ◌<◌, ◌^◌, List, ℕ, Some, decimal};
ghost use Rattle.k_text.specs.Numbers.{number_of};

/// A word is read as a number exactly where it is the number's decimal spelling.
pub fn a_number_is_spelled()
    ensures read { (most n : ℕ) (w : List ℕ) → most < 2 ^ 64 → number_of most w ≡ Some n → (w ≡ decimal n) × (n ≤ most) }
    ensures spelled { (most n : ℕ) → most < 2 ^ 64 → n ≤ most → number_of most (decimal n) ≡ Some n }
{}
