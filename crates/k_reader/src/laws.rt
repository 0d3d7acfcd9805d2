// Laws of the definitions.
ghost use Rattle.std.specs.Prelude.{◌≡◌, List, ℕ, Ok};
ghost use Rattle.k_script.specs.Script.{Script};
ghost use Rattle.k_reader.specs.Grammar.{IsText};
ghost use Rattle.k_reader.specs.Reading.{read_of};

/// Bytes are read as a script exactly where they are a text of it, and they are a text of one script at most.
pub fn a_text_is_read()
    ensures read { (bytes : List ℕ) (s : Script) → read_of bytes ≡ Ok s → IsText bytes s }
    ensures text { (bytes : List ℕ) (s : Script) → IsText bytes s → read_of bytes ≡ Ok s }
    ensures one { (bytes : List ℕ) (s t : Script) → IsText bytes s → IsText bytes t → s ≡ t }
{}
