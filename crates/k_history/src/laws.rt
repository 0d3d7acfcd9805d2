// Laws of the definitions.
ghost use Rattle.std.specs.Prelude.{◌≡◌, List, ℕ};
ghost use Rattle.k_ids.specs.declared.histories.Entry.{Entry};
ghost use Rattle.k_text.specs.Texts.{entry_text, entry_words, joined};
ghost use Rattle.k_script.specs.Script.{Script};
ghost use Rattle.k_script.specs.Limits.{IsScript};
ghost use Rattle.k_history.specs.declared.verdict.Verdict.{Verdict};
ghost use Rattle.k_history.specs.Fits.{FitsEntry, Spells};
ghost use Rattle.k_history.specs.Verdicts.{IsVerdict};

/// An entry whose numbers are in their ranges has a line that spells it and no other, so what is written is read back.
pub fn a_line_spells_one_entry()
    ensures spelled { (e : Entry) → FitsEntry e → Spells (joined (entry_words e)) e }
    ensures one { (line : List ℕ) (a b : Entry) → Spells line a → Spells line b → a ≡ b }
    ensures apart { (a b : Entry) → FitsEntry a → FitsEntry b → entry_text a ≡ entry_text b → a ≡ b }
{}

/// A history of a script has one verdict: so `check` gives each of them exactly where its reason holds.
pub fn a_history_has_one_verdict()
    ensures { (script : Script) (bytes : List ℕ) (v w : Verdict) → IsScript script → IsVerdict script bytes v → IsVerdict script bytes w → v ≡ w }
{}
