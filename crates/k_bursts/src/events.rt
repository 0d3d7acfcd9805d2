// Events and single steps. `next` is the index of the line that comes next.
ghost use Rattle.std.specs.Prelude.{◌≡◌, ◌<◌, ℕ, IfOk, drop, length};
ghost use Rattle.k_script.specs.Limits.{IsEvent};
ghost use Rattle.k_schedule.specs.Carriers.{happens};
ghost use Rattle.k_schedule.specs.Schedule.{at_once, idle_at, park_at, step_at};
ghost use Rattle.k_bursts.specs.Playing.{IsNext, Stands, moment_at};

use crate::kernel::Kernel;
use k_ids::NoMemory;
use k_script::{AtWhat, Script};

/// An event. A start is for the carrier whose step comes next; a slice names its own.
fn happen<K: Kernel>(kernel: &mut K, script: &Script, c: u8, what: AtWhat)
    requires can { K.CanRun script.now }
    requires kept { K.IsKept script.now kernel.old }
    requires inside { c < script.now.carriers }
    requires next { IsNext (K.facts script.now) (K.world script.now kernel.old) what }
    requires event { IsEvent script.now.carriers (length script.now.threads) what }
    ensures world { K.world script.now kernel.new ≡ happens (K.carriers script.now) (K.world script.now kernel.old) c what }
    ensures kept { K.IsKept script.now kernel.new }
{
    match what {
        AtWhat::Start(number) => kernel.start(script, c, number),
        AtWhat::Slice(carrier) => kernel.slice(script, carrier),
    }
}

/// From the next line on, those lines happen whose step is this one; then, which line comes next.
pub(crate) fn make_due<K: Kernel>(
    kernel: &mut K,
    script: &Script,
    first: usize,
    c: u8,
    step: u64,
) -> usize
    requires can { K.CanRun script.now }
    requires kept { K.IsKept script.now kernel.old }
    requires inside { c < script.now.carriers }
    requires stands { Stands (K.facts script.now) script.now (K.world script.now kernel.old) first }
    ensures kept { K.IsKept script.now kernel.new }
    ensures stands { Stands (K.facts script.now) script.now (K.world script.now kernel.new) result }
    ensures moment { moment_at script.now (K.world script.now kernel.new) result
        ≡ at_once (K.carriers script.now) c step (K.world script.now kernel.old) (drop first script.now.at_lines) }
{
    script.holds();
    let lines = script.at_lines();
    let mut next = first;
    while next < lines.len() {
        let line = lines[next];
        if u64::from(line.step) != step {
            return next;
        }
        happen(kernel, script, c, line.what);
        next += 1;
    }
    next
}

/// One step of a carrier, after the events before it; whether it is answered Idle.
pub(crate) fn step<K: Kernel>(
    kernel: &mut K,
    script: &Script,
    next: &mut usize,
    c: u8,
) -> Result<bool, NoMemory>
    requires can { K.CanRun script.now }
    requires kept { K.IsKept script.now kernel.old }
    requires inside { c < script.now.carriers }
    requires stands { Stands (K.facts script.now) script.now (K.world script.now kernel.old) next.old }
    ensures kept { IfOk result (λ _. K.IsKept script.now kernel.new) }
    ensures stands { IfOk result (λ _. Stands (K.facts script.now) script.now (K.world script.now kernel.new) next.new) }
    ensures moment { IfOk result (λ _. moment_at script.now (K.world script.now kernel.new) next.new
        ≡ step_at (K.carriers script.now) c (moment_at script.now (K.world script.now kernel.old) next.old)) }
    ensures idle { IfOk result (λ idle. idle
        ≡ idle_at (K.carriers script.now) c (moment_at script.now (K.world script.now kernel.old) next.old)) }
{
    script.holds();
    let made = kernel.made();
    *next = make_due(kernel, script, *next, c, made);
    kernel.reserve()?;
    Ok(kernel.step(script, c))
}

/// A carrier that has a hand is parked and makes one step. Without a hand nothing happens.
pub(crate) fn park<K: Kernel>(
    kernel: &mut K,
    script: &Script,
    next: &mut usize,
    c: u8,
) -> Result<(), NoMemory>
    requires can { K.CanRun script.now }
    requires kept { K.IsKept script.now kernel.old }
    requires inside { c < script.now.carriers }
    requires stands { Stands (K.facts script.now) script.now (K.world script.now kernel.old) next.old }
    ensures kept { IfOk result (λ _. K.IsKept script.now kernel.new) }
    ensures stands { IfOk result (λ _. Stands (K.facts script.now) script.now (K.world script.now kernel.new) next.new) }
    ensures moment { IfOk result (λ _. moment_at script.now (K.world script.now kernel.new) next.new
        ≡ park_at (K.carriers script.now) c (moment_at script.now (K.world script.now kernel.old) next.old)) }
{
    script.holds();
    if kernel.has_hand(script, c) {
        kernel.park(script, c);
        step(kernel, script, next, c)?;
    }
    Ok(())
}
