// A run of a script.
ghost use Rattle.std.specs.Prelude.{◌≤◌, IfOk, []};
ghost use Rattle.k_carriers.specs.Kernel.{kernel_carriers};
ghost use Rattle.k_core.specs.Parts.{world_in};
ghost use Rattle.k_core.specs.Running.{IsRunning};
ghost use Rattle.k_ending.specs.Ending.{IsAtEnd};
ghost use Rattle.k_kernel.specs.Moves.{HasRoom};
ghost use Rattle.k_schedule.specs.Schedule.{IsRun, moment};
ghost use Rattle.k_script.specs.Weight.{weight_of};
ghost use Rattle.k_world.specs.Boot.{booted};
ghost use Rattle.k_dispatch.specs.Outcome.{IsOutcome};

use crate::kernel::Running;
use k_bursts::run_schedule;
use k_calls::{CallLine, calls};
use k_carrier::{Link, StepMark, WaitMark};
use k_core::{World, what_a_running_kernel_has_logged};
use k_ids::{Entry, Found, NoMemory, ReplyLine};
use k_replay::replay;
use k_scheduled::{
    a_script_within_the_limit_has_room, the_first_world_is_good, the_kernel_keeps_the_schedule,
};
use k_script::Script;
use std::alloc::Global;

/// What a run leaves.
#[derive(Drop)]
pub struct RunEnd {
    /// The events with their outcomes, in their order.
    pub history: Vec<Entry>,
    /// The replies of the history, replayed, by number, version and serial.
    pub replies: Vec<ReplyLine>,
    /// The marks of steps, in the order in which they were made.
    pub steps: Vec<StepMark>,
    /// The calls that made a step, by number, version and serial.
    pub calls: Vec<CallLine>,
    /// The marks of waits, in the order in which they began.
    pub waits: Vec<WaitMark>,
    /// The links of all waits, in the order in which they were found.
    pub links: Vec<Link>,
    /// What each number of the table shows at the end, from number 0 on.
    pub finals: Vec<Found>,
    /// How many atomic steps were made. The count stays at the end of its type.
    pub made: u64,
}

/// Runs a script to its end, on its carriers and by its schedule. It fails for want of memory alone.
///
/// Condition: the script's weight is at most 4,000,000, so that its threads make at most 1,000,000 calls.
pub fn run(alloc: Global, script: &Script) -> Result<RunEnd, NoMemory>
    requires short { weight_of script.now ≤ 4000000 }
    ensures { IfOk result (λ end. IsOutcome script.now end) }
{
    script.holds();
    a_script_within_the_limit_has_room();
    the_first_world_is_good();
    the_kernel_keeps_the_schedule();
    let world = World::boot(alloc, script, script.carriers())?;
    let mut kernel = Running { world };
    run_schedule(&mut kernel, script)?;
    ended(alloc, script, kernel.world)
}

/// What a world leaves in which the run has ended.
fn ended(alloc: Global, script: &Script, world: World) -> Result<RunEnd, NoMemory>
    requires few { HasRoom script.now }
    requires running { IsRunning script.now world }
    requires run { IsRun (kernel_carriers script.now) script.now (booted script.now script.now.carriers)
        (moment (world_in script.now world) []) }
    requires finished { IsAtEnd script.now (world_in script.now world) }
    ensures { IfOk result (λ end. IsOutcome script.now end) }
{
    script.holds();
    what_a_running_kernel_has_logged();
    let replayed = replay(alloc, script, world.history())?;
    Ok(RunEnd {
        history: Vec::from_slice(alloc, world.history())?,
        replies: replayed.replies,
        steps: Vec::from_slice(alloc, world.steps())?,
        calls: calls(alloc, world.steps())?,
        waits: Vec::from_slice(alloc, world.waits())?,
        links: Vec::from_slice(alloc, world.links())?,
        finals: replayed.finals,
        made: world.made(),
    })
}
