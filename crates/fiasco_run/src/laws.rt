// Laws of the definitions.
ghost use Rattle.std.specs.Prelude.{◌≡◌, List, ℕ, None};
ghost use Rattle.k_script.specs.Script.{Script};
ghost use Rattle.k_dispatch.specs.declared.dispatch.RunEnd.{RunEnd};
ghost use Rattle.k_input.specs.Division.{script_part};
ghost use Rattle.k_reader.specs.Refused.{script_fault};
ghost use Rattle.k_history.specs.declared.verdict.Verdict.{Verdict};
ghost use Rattle.fiasco_run.specs.declared.call.Call.{Call};
ghost use Rattle.fiasco_run.specs.declared.exit.Exit.{Exit};
ghost use Rattle.fiasco_run.specs.Due.{IsRunOfBytes, IsVerdictOnBytes};
ghost use Rattle.fiasco_run.specs.Served.{IsExit};

use k_history::a_history_has_one_verdict;
use k_reader::a_text_is_read;

/// No bytes call for two statuses: so the one that `top` answers, where there was memory and nothing failed, is the only one
/// that it may answer.
pub fn bytes_call_for_one_status()
    ensures { (c : Call) (bytes : List ℕ) (a b : Exit) → IsExit c bytes a → IsExit c bytes b → a ≡ b }
{
    a_text_is_read();
    a_history_has_one_verdict();
}

/// Bytes of which a run is told have no fault; and what stands before the line `--` of an input that is judged has none.
pub fn what_is_served_is_accepted()
    ensures run { (bytes : List ℕ) (script : Script) (end : RunEnd) → IsRunOfBytes bytes script end → script_fault bytes ≡ None }
    ensures check { (bytes : List ℕ) (v : Verdict) → IsVerdictOnBytes bytes v → script_fault (script_part bytes) ≡ None }
{}
