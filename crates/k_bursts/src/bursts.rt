// Bursts, and what follows each.
ghost use Rattle.std.specs.Prelude.{◌≡◌, ◌<◌, ℕ, IfOk, None, Some};
ghost use Rattle.k_schedule.specs.Bursts.{IsBetween, IsBursting};
ghost use Rattle.k_schedule.specs.Schedule.{IsBurst, IsTail, all_settled, burst, follows};
ghost use Rattle.k_bursts.specs.Playing.{Stands, moment_at};

use crate::events::{make_due, step};
use crate::kernel::Kernel;
use k_ids::NoMemory;
use k_script::Script;

/// One step of the carrier, and on until it is settled; whether the last one is answered Idle.
fn burst<K: Kernel>(
    kernel: &mut K,
    script: &Script,
    next: &mut usize,
    c: u8,
) -> Result<bool, NoMemory>
    requires can { K.CanRun script.now }
    requires kept { K.IsKept script.now kernel.old }
    requires inside { c < script.now.carriers }
    requires stands { Stands (K.facts script.now) script.now (K.world script.now kernel.old) next.old }
    requires bursting { IsBursting (K.carriers script.now) (K.facts script.now) c
        (moment_at script.now (K.world script.now kernel.old) next.old) }
    ensures kept { IfOk result (λ _. K.IsKept script.now kernel.new) }
    ensures stands { IfOk result (λ _. Stands (K.facts script.now) script.now (K.world script.now kernel.new) next.new) }
    ensures made { IfOk result (λ idle. IsBurst (K.carriers script.now) c
        (moment_at script.now (K.world script.now kernel.old) next.old)
        (burst idle (moment_at script.now (K.world script.now kernel.new) next.new))) }
{
    script.holds();
    loop {
        let idle = step(kernel, script, next, c)?;
        if kernel.settled(script, c) {
            return Ok(idle);
        }
    }
}

/// Whether each carrier is settled.
fn is_settled<K: Kernel>(kernel: &K, script: &Script) -> bool
    requires kept { K.IsKept script.now kernel.now }
    ensures { result ≡ all_settled (K.carriers script.now) script.now.carriers (K.world script.now kernel.now) }
{
    for c in 0..script.carriers() {
        if !kernel.settled(script, c) {
            return false;
        }
    }
    true
}

/// Whose burst follows one of carrier c, after the events before it; none where the run ends.
fn follow<K: Kernel>(
    kernel: &mut K,
    script: &Script,
    next: &mut usize,
    c: u8,
    idle: bool,
) -> Option<u8>
    requires can { K.CanRun script.now }
    requires kept { K.IsKept script.now kernel.old }
    requires inside { c < script.now.carriers }
    requires stands { Stands (K.facts script.now) script.now (K.world script.now kernel.old) next.old }
    ensures kept { K.IsKept script.now kernel.new }
    ensures stands { Stands (K.facts script.now) script.now (K.world script.now kernel.new) next.new }
    ensures ends { result ≡ None → follows (K.carriers script.now) c
        (burst idle (moment_at script.now (K.world script.now kernel.old) next.old)) ≡ None }
    ensures as_before { result ≡ None → moment_at script.now (K.world script.now kernel.new) next.new
        ≡ moment_at script.now (K.world script.now kernel.old) next.old }
    ensures follows { (d : ℕ) → result ≡ Some d → follows (K.carriers script.now) c
        (burst idle (moment_at script.now (K.world script.now kernel.old) next.old))
        ≡ Some (d, moment_at script.now (K.world script.now kernel.new) next.new) }
{
    script.holds();
    let lines = script.at_lines();
    if idle && *next < lines.len() {
        let least = u64::from(lines[*next].step);
        *next = make_due(kernel, script, *next, c, least);
        return Some(c);
    }
    if idle && is_settled(kernel, script) {
        return None;
    }
    Some(if c + 1 == script.carriers() { 0 } else { c + 1 })
}

/// Bursts in turn, from carrier 0 on, round and round, until nothing is left to do.
pub(crate) fn tail<K: Kernel>(
    kernel: &mut K,
    script: &Script,
    next: &mut usize,
) -> Result<(), NoMemory>
    requires can { K.CanRun script.now }
    requires kept { K.IsKept script.now kernel.old }
    requires stands { Stands (K.facts script.now) script.now (K.world script.now kernel.old) next.old }
    requires between { IsBetween (K.carriers script.now) (K.facts script.now) 0
        (moment_at script.now (K.world script.now kernel.old) next.old) }
    ensures kept { IfOk result (λ _. K.IsKept script.now kernel.new) }
    ensures tail { IfOk result (λ _. IsTail (K.carriers script.now) 0
        (moment_at script.now (K.world script.now kernel.old) next.old)
        (moment_at script.now (K.world script.now kernel.new) next.new)) }
{
    script.holds();
    let mut c = 0;
    loop {
        let idle = burst(kernel, script, next, c)?;
        match follow(kernel, script, next, c, idle) {
            Some(d) => c = d,
            None => return Ok(()),
        }
    }
}
