// The law. It is a function that does nothing, whose contract is the law.
ghost use Rattle.std.specs.Prelude.{ℕ, ◌≤◌};
ghost use Rattle.k_script.specs.Limits.{IsScript};
ghost use Rattle.k_script.specs.Plays.{opened_for};
ghost use Rattle.k_script.specs.Script.{Script};
ghost use Rattle.k_world.specs.Boot.{booted};
ghost use Rattle.k_places.specs.Boots.{boot_board};
ghost use Rattle.k_handling.specs.Handling.{HasKernel};

/// The world in which the kernel begins to run a script, with any number of carriers up to eight, shows a board, and its carriers
/// are those of a good world, of which all of the whole holds.
pub fn the_kernel_stands_at_the_start()
    ensures { (script : Script) (carriers : ℕ) → IsScript script → carriers ≤ 8
        → HasKernel script (boot_board script carriers) (booted script carriers) (opened_for script) }
{}
