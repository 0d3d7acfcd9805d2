// Laws of the definitions.
ghost use Rattle.std.specs.Prelude.{◌≡◌, ◌≤◌, List, ℕ, length, Ok};
ghost use Rattle.k_script.specs.Script.{Script};
ghost use Rattle.k_script.specs.Limits.{IsScript};
ghost use Rattle.k_script.specs.Weight.{weight_of};
ghost use Rattle.k_reader.specs.Grammar.{IsText};
ghost use Rattle.k_reader.specs.Reading.{read_of};
ghost use Rattle.k_reader.specs.Refused.{IsRead};
ghost use Rattle.k_writer.specs.Canonical.{text_of};

/// What is written of a script is a text of it, which says this script, and each text of it has as many bytes at least. So
/// [`k_reader::read`] answers the script for what is written wherever it answers it for any text: where the text has at most
/// 1,048,576 bytes and the script weighs at most 4,000,000.
#[tactic(auto, using(crate::proofs::Layouts::canonical_text, crate::proofs::Layouts::text_is_read, crate::proofs::Layouts::shortest, crate::proofs::Layouts::text_answered))]
pub fn a_written_text_is_the_shortest()
    ensures text { (s : Script) → IsScript s → IsText (text_of s) s }
    ensures read { (s : Script) → IsScript s → read_of (text_of s) ≡ Ok s }
    ensures shortest { (s : Script) (bytes : List ℕ) → IsText bytes s → length (text_of s) ≤ length bytes }
    ensures again { (bytes : List ℕ) (s : Script) → IsRead bytes (Ok s) → IsRead (text_of s) (Ok s) }
    ensures answered { (s : Script) → IsScript s → length (text_of s) ≤ 1048576 → weight_of s ≤ 4000000 → IsRead (text_of s) (Ok s) }
{}
