// Laws of the definitions.
ghost use Rattle.std.specs.Prelude.{◌≡◌, ◌≤◌, List, ℕ, ◌∷◌, Option, Some, decimal, map, length};
ghost use Rattle.std.specs.List.{AllByRecursion};
ghost use Rattle.k_lines.specs.declared.numeral.Numeral.{Numeral};
ghost use Rattle.k_lines.specs.declared.line.ItemWord.{ItemWord};
ghost use Rattle.k_lines.specs.declared.line.Line.{Line};
ghost use Rattle.k_lines.specs.Numbers.{numeral_of, IsNumber};
ghost use Rattle.k_lines.specs.Lines.{Word, spelled, spelled_item, IsProper, IsProperItem, IsNamed, line_of, items_of};

/// A word is read as a number of a script exactly where it is the number's decimal spelling.
pub fn a_number_is_spelled()
    ensures read { (w : List ℕ) (n : Numeral) → numeral_of w ≡ Some n → IsNumber n → w ≡ decimal n.value }
    ensures spelled { (n : Numeral) → IsNumber n → numeral_of (decimal n.value) ≡ Some n }
{}

/// Words are read as a line whose numerals are numbers of a script exactly where they spell it.
pub fn a_line_is_spelled()
    ensures read { (w : Word) (ws : List Word) (l : Line) → line_of w ws ≡ Some l → IsProper l → w ∷ ws ≡ spelled l }
    ensures spelled { (w : Word) (ws : List Word) (l : Line) → w ∷ ws ≡ spelled l → IsNamed l → IsProper l → line_of w ws ≡ Some l }
    ensures named { (w : Word) (ws : List Word) (l : Line) → line_of w ws ≡ Some l → IsNamed l }
{}

/// The same of the items of a `turns` line.
pub fn items_are_spelled()
    ensures read { (ws : List Word) (is : List ItemWord) → items_of ws ≡ Some is → AllByRecursion IsProperItem is → ws ≡ map spelled_item is }
    ensures some { (ws : List Word) (is : List ItemWord) → items_of ws ≡ Some is → AllByRecursion IsProperItem is → 1 ≤ length is }
    ensures spelled { (is : List ItemWord) → 1 ≤ length is → AllByRecursion IsProperItem is → items_of (map spelled_item is) ≡ Some is }
{}
