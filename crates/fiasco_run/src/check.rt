// `check`: from a source to the verdict on its history.
ghost use Rattle.std.specs.Prelude.{◌≡◌, ◌≤◌, ◌⊎◌, length, Err, IfErr, IfOk};
ghost use Rattle.k_input.specs.Division.{script_part, history_part, IsInputLarge};
ghost use Rattle.k_history.specs.declared.verdict.Verdict.TheVariants as verdict;
ghost use Rattle.fiasco_run.specs.Due.{IsCheckStatus, IsVerdictOnSource, IsVerdictOnBytes};
ghost use Rattle.k_reader.specs.Refused.{script_fault};
ghost use Rattle.fiasco_run.specs.Scripts.{IsRefusedBy};
ghost use Rattle.fiasco_run.specs.Served.{TakesAll, TakesStatus, check_reads};

use crate::exit::Exit;
use crate::run::{exit_of, script_in};
use k_history::{Verdict, check};
use k_input::{divide, read_divided};
use k_outside::Source;
use std::alloc::Global;

/// Judges the history of an input by its script.
fn judge_bytes(alloc: Global, bytes: &[u8]) -> Result<Verdict, Exit>
    requires { ¬ IsInputLarge bytes.now }
    ensures judged { IfOk result (IsVerdictOnBytes bytes.now) }
    ensures refused { IfErr result (IsRefusedBy (script_fault (script_part bytes.now))) }
{
    let (first, second) = divide(bytes);
    let script = script_in(alloc, first)?;
    check(alloc, &script, second).map_err(|_| Exit::NoMemory)
}

fn judge_source<S: Source>(alloc: Global, source: &mut S) -> Result<Verdict, Exit>
    ensures judged { IfOk result (IsVerdictOnSource (S.left source.old)) }
    ensures status { IfErr result (IsCheckStatus (S.left source.old) (S.faults source.old) (S.faults source.new)) }
    ensures all { IfOk result (λ _. TakesAll (S.left source.old) (S.left source.new)) }
    ensures takes { IfErr result (λ exit. TakesStatus check_reads exit (S.left source.old) (S.left source.new)) }
    ensures calm { result ≡ Err Exit.ReadFault ⊎ S.faults source.new ≡ S.faults source.old }
    ensures later { S.faults source.old ≤ S.faults source.new }
{
    match read_divided(alloc, source) {
        Ok(bytes) => judge_bytes(alloc, &bytes),
        Err(fault) => Err(exit_of(fault)),
    }
}

/// Reads the source, and judges its history by its script: how many events it has, where it is legal.
pub(crate) fn check_source<S: Source>(alloc: Global, source: &mut S) -> Result<u32, Exit>
    ensures legal { IfOk result (λ events. IsVerdictOnSource (S.left source.old) (verdict.Legal events)) }
    ensures status { IfErr result (IsCheckStatus (S.left source.old) (S.faults source.old) (S.faults source.new)) }
    ensures all { IfOk result (λ _. TakesAll (S.left source.old) (S.left source.new)) }
    ensures takes { IfErr result (λ exit. TakesStatus check_reads exit (S.left source.old) (S.left source.new)) }
    ensures calm { result ≡ Err Exit.ReadFault ⊎ S.faults source.new ≡ S.faults source.old }
    ensures later { S.faults source.old ≤ S.faults source.new }
{
    match judge_source(alloc, source)? {
        Verdict::Legal { events } => Ok(events),
        verdict => Err(Exit::Illegal { verdict }),
    }
}
