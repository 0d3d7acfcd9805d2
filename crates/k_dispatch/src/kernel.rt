// The running kernel, on which a schedule is made.
ghost use Rattle.std.specs.Prelude.{◌≡◌, ◌<◌, ℕ, refl};
ghost use Rattle.k_carriers.specs.Kernel.{is_told_idle, kernel_carriers};
ghost use Rattle.k_core.specs.Parts.{world_in};
ghost use Rattle.k_logs.specs.Seen as logs;
ghost use Rattle.k_scheduled.specs.Scheduled.{kernel_facts};
ghost use Rattle.k_world.specs.Worlds as worlds;
ghost use Rattle.k_dispatch.specs.Kept as kept;

use k_bursts::Kernel;
use k_core::{Stepped, World};
use k_ids::NoMemory;
use k_scheduled::the_next_start_is_due;
use k_script::Script;

/// The world with its carriers.
#[derive(Drop)]
pub(crate) struct Running {
    pub(crate) world: World,
}

impl Kernel for Running {
    ghost World = { worlds.World };

    ghost carriers = { kernel_carriers };

    ghost facts = { kernel_facts };

    ghost world = { λ script k. world_in script k.world };

    ghost CanRun = { kept.CanRun };

    ghost IsKept = { λ script k. kept.IsKept script k.world };

    ghost HasRoom = { λ k. logs.HasRoom k.world.logs.room };

    fn reserve(&mut self) -> Result<(), NoMemory> {
        self.world.reserve()
    }

    fn step(&mut self, script: &Script, c: u8) -> bool {
        is_idle(self.world.step(script, c))
    }

    fn start(&mut self, script: &Script, c: u8, number: u8) {
        script.holds();
        the_next_start_is_due();
        self.world.start(c, number);
    }

    fn slice(&mut self, script: &Script, c: u8) {
        script.holds();
        self.world.slice(c);
    }

    fn park(&mut self, script: &Script, c: u8) {
        script.holds();
        self.world.park(c);
    }

    fn made(&self) -> u64 {
        self.world.made()
    }

    fn settled(&self, script: &Script, c: u8) -> bool {
        self.world.settled(c)
    }

    fn has_hand(&self, script: &Script, c: u8) -> bool {
        self.world.has_hand(c)
    }

    ghost count = { λ script. refl };

    ghost laws = { λ script s can. can.laws };
}

/// Whether a step has found no thread to run, and no carrier that is counted as running one.
fn is_idle(stepped: Stepped) -> bool
    ensures { result ≡ is_told_idle stepped }
{
    matches!(stepped, Stepped::Idle)
}
