// The whole run: the turns, and then the tail.
ghost use Rattle.std.specs.Prelude.{◌≡◌, ◌<◌, ℕ, IfOk};
ghost use Rattle.k_script.specs.Limits.{IsItem};
ghost use Rattle.k_schedule.specs.Schedule.{item_at, items_at, parks};
ghost use Rattle.k_bursts.specs.Playing.{IsPlayed, Stands, moment_at};

use crate::bursts::tail;
use crate::events::{park, step};
use crate::kernel::Kernel;
use k_ids::NoMemory;
use k_script::{Item, Script};

/// An item of the turns: so many steps of a carrier, or its park.
fn play_item<K: Kernel>(
    kernel: &mut K,
    script: &Script,
    next: &mut usize,
    item: Item,
) -> Result<(), NoMemory>
    requires can { K.CanRun script.now }
    requires kept { K.IsKept script.now kernel.old }
    requires inside { IsItem script.now.carriers item }
    requires stands { Stands (K.facts script.now) script.now (K.world script.now kernel.old) next.old }
    ensures kept { IfOk result (λ _. K.IsKept script.now kernel.new) }
    ensures stands { IfOk result (λ _. Stands (K.facts script.now) script.now (K.world script.now kernel.new) next.new) }
    ensures moment { IfOk result (λ _. moment_at script.now (K.world script.now kernel.new) next.new
        ≡ item_at (K.carriers script.now) item (moment_at script.now (K.world script.now kernel.old) next.old)) }
{
    match item {
        Item::Steps { carrier, count } => {
            for _ in 0..count {
                step(kernel, script, next, carrier)?;
            }
            Ok(())
        }
        Item::Park { carrier } => park(kernel, script, next, carrier),
    }
}

/// The items of the turns, in their order.
fn play_turns<K: Kernel>(kernel: &mut K, script: &Script, next: &mut usize) -> Result<(), NoMemory>
    requires can { K.CanRun script.now }
    requires kept { K.IsKept script.now kernel.old }
    requires stands { Stands (K.facts script.now) script.now (K.world script.now kernel.old) next.old }
    ensures kept { IfOk result (λ _. K.IsKept script.now kernel.new) }
    ensures stands { IfOk result (λ _. Stands (K.facts script.now) script.now (K.world script.now kernel.new) next.new) }
    ensures moment { IfOk result (λ _. moment_at script.now (K.world script.now kernel.new) next.new
        ≡ items_at (K.carriers script.now) script.now.turns (moment_at script.now (K.world script.now kernel.old) next.old)) }
{
    script.holds();
    for item in script.turns() {
        play_item(kernel, script, next, *item)?;
    }
    Ok(())
}

/// Each carrier that has a hand is parked and makes one step, in the order of their numbers.
fn park_all<K: Kernel>(kernel: &mut K, script: &Script, next: &mut usize) -> Result<(), NoMemory>
    requires can { K.CanRun script.now }
    requires kept { K.IsKept script.now kernel.old }
    requires stands { Stands (K.facts script.now) script.now (K.world script.now kernel.old) next.old }
    ensures kept { IfOk result (λ _. K.IsKept script.now kernel.new) }
    ensures stands { IfOk result (λ _. Stands (K.facts script.now) script.now (K.world script.now kernel.new) next.new) }
    ensures moment { IfOk result (λ _. moment_at script.now (K.world script.now kernel.new) next.new
        ≡ parks (K.carriers script.now) script.now.carriers (moment_at script.now (K.world script.now kernel.old) next.old)) }
{
    for c in 0..script.carriers() {
        park(kernel, script, next, c)?;
    }
    Ok(())
}

/// Plays a script's schedule on a kernel: its turns with its events, and then bursts until nothing is left to do.
///
/// Where it is Ok, the kernel shows the world at the end of the script's run (k_schedule, `IsRun`): no line is left, each carrier is
/// settled, and no thread can go on. It fails for want of memory alone, and then the run is given up.
pub fn run_schedule<K: Kernel>(kernel: &mut K, script: &Script) -> Result<(), NoMemory>
    requires can { K.CanRun script.now }
    requires kept { K.IsKept script.now kernel.old }
    requires good { (K.facts script.now).IsGood (K.world script.now kernel.old) script.now.at_lines }
    ensures kept { IfOk result (λ _. K.IsKept script.now kernel.new) }
    ensures played { IfOk result (λ _. IsPlayed (K.carriers script.now) (K.facts script.now) script.now
        (K.world script.now kernel.old) (K.world script.now kernel.new)) }
{
    script.holds();
    let mut next = 0;
    play_turns(kernel, script, &mut next)?;
    park_all(kernel, script, &mut next)?;
    tail(kernel, script, &mut next)
}
