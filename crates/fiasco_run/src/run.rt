// `run` and `big`: the run of the script that a source's bytes spell, and that of a generated one.
ghost use Rattle.std.specs.Prelude.{◌≡◌, ◌≤◌, ◌⊎◌, length, None, Err, IfErr, IfOk};
ghost use Rattle.k_input.specs.Taken.{IsPartTaken};
ghost use Rattle.k_reader.specs.Refused.{script_fault};
ghost use Rattle.fiasco_run.specs.Scripts.{IsRefusedBy, IsScriptOf, input_exit};
ghost use Rattle.fiasco_run.specs.Due.{IsBigRun, IsRunOfSource, IsRunOfBytes, IsRunStatus};
ghost use Rattle.fiasco_run.specs.Served.{TakesAll, TakesStatus, run_reads};

use crate::due::Ran;
use crate::exit::Exit;
use k_dispatch::{RunEnd, run};
use k_ids::NoMemory;
use k_input::{InputFault, read_all};
use k_outside::Source;
use k_reader::{ScriptFault, read};
use k_script::{Script, big};
use std::alloc::Global;

/// The script that these bytes spell, within the limits.
pub(crate) fn script_in(alloc: Global, bytes: &[u8]) -> Result<Script, Exit>
    requires { length bytes.now ≤ 1048576 }
    ensures script { IfOk result (IsScriptOf bytes.now) }
    ensures accepted { IfOk result (λ _. script_fault bytes.now ≡ None) }
    ensures refused { IfErr result (IsRefusedBy (script_fault bytes.now)) }
{
    match read(alloc, bytes) {
        Ok(script) => Ok(script),
        Err(ScriptFault::NoMemory) => Err(Exit::NoMemory),
        Err(fault) => Err(Exit::Refused { fault }),
    }
}

/// Runs the script that these bytes spell.
#[tactic(auto, using(crate::proofs::Accepted::run_had))]
fn run_bytes(alloc: Global, bytes: &[u8]) -> Result<Ran, Exit>
    requires { length bytes.now ≤ 1048576 }
    ensures run { IfOk result (λ ran. IsRunOfBytes bytes.now ran.script ran.end) }
    ensures refused { IfErr result (IsRefusedBy (script_fault bytes.now)) }
{
    let script = script_in(alloc, bytes)?;
    let end = run(alloc, &script).map_err(|_| Exit::NoMemory)?;
    Ok(Ran { script, end })
}

/// Reads the source and runs the script that its bytes spell.
pub(crate) fn run_source<S: Source>(alloc: Global, source: &mut S) -> Result<Ran, Exit>
    ensures run { IfOk result (λ ran. IsRunOfSource (S.left source.old) ran.script ran.end) }
    ensures status { IfErr result (IsRunStatus (S.left source.old) (S.faults source.old) (S.faults source.new)) }
    ensures all { IfOk result (λ _. TakesAll (S.left source.old) (S.left source.new)) }
    ensures takes { IfErr result (λ exit. TakesStatus run_reads exit (S.left source.old) (S.left source.new)) }
    ensures calm { result ≡ Err Exit.ReadFault ⊎ S.faults source.new ≡ S.faults source.old }
    ensures later { S.faults source.old ≤ S.faults source.new }
{
    match read_all(alloc, source) {
        Ok(bytes) => run_bytes(alloc, &bytes),
        Err(fault) => Err(exit_of(fault)),
    }
}

/// Runs the large script of this number.
#[tactic(auto, using(crate::proofs::Large::big_short))]
pub(crate) fn run_big(alloc: Global, number: u64) -> Result<RunEnd, NoMemory>
    ensures { IfOk result (IsBigRun number) }
{
    let script = big(alloc, number)?;
    run(alloc, &script)
}

/// The status of a source that was not read to its end.
pub(crate) fn exit_of(fault: InputFault) -> Exit
    ensures { result ≡ input_exit fault }
{
    match fault {
        InputFault::Source => Exit::ReadFault,
        InputFault::TooLarge => Exit::Refused {
            fault: ScriptFault::TooLarge,
        },
        InputFault::NoMemory => Exit::NoMemory,
    }
}
