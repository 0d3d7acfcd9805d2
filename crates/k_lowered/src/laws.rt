// The laws of the work that a raw world has. Each is a function that does nothing, whose contract is the law.
ghost use Rattle.std.specs.Prelude.{length, ℕ, ◌<◌, ◌≡◌};
ghost use Rattle.k_board.specs.Boards.{Board};
ghost use Rattle.k_handling.specs.Handling.{IsKernel};
ghost use Rattle.k_lowered.specs.Lowered.{parts_in, room_in};
ghost use Rattle.k_model.specs.State.{KernelState};
ghost use Rattle.k_owed.specs.Works.{work_ahead};
ghost use Rattle.k_script.specs.Limits.{IsScript};
ghost use Rattle.k_script.specs.Script.{Script};
ghost use Rattle.k_tokens.specs.World as tokens;
ghost use Rattle.k_work.specs.Near.{near_of};
ghost use Rattle.k_work.specs.Work.{work_parts};
ghost use Rattle.k_world.specs.Worlds.{World};

/// The work that a raw world has for a carrier is that of any board and any carriers of this moment.
pub fn the_work_is_that_of_the_board()
    ensures { (script : Script) (w : World) (b : Board) (view : tokens.World) (state : KernelState) (c : ℕ) → IsScript script
        → IsKernel script w b view state → c < length w.carriers
        → parts_in script w c ≡ work_parts work_ahead b view c (room_in script w) (near_of view c) }
{}
