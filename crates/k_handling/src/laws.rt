// The laws. Each is a function that does nothing, whose contract is the law.
ghost use Rattle.std.specs.Prelude.{List, length, true, ℕ, ◌<◌, ◌≡◌};
ghost use Rattle.k_board.specs.Boards.{Board};
ghost use Rattle.k_ids.specs.declared.histories.Entry.{Entry};
ghost use Rattle.k_model.specs.State.{KernelState};
ghost use Rattle.k_script.specs.Limits.{IsScript};
ghost use Rattle.k_script.specs.Script.{Script};
ghost use Rattle.k_switch.specs.declared.carrier_context.CarrierContext.{CarrierContext};
ghost use Rattle.k_context.specs.Contexts.{Carrier};
ghost use Rattle.k_carrier.specs.Asked.{LookAt, PutDown, Run, Take, ask_of};
ghost use Rattle.k_carrier.specs.Conditions as carriers;
ghost use Rattle.k_carrier.specs.Seen.{HandSeen};
ghost use Rattle.k_carrier.specs.Starts.{is_due};
ghost use Rattle.k_world.specs.Steps.{moved, parked, sliced, started};
ghost use Rattle.k_world.specs.Worlds.{World, carrier_at};
ghost use Rattle.k_tokens.specs.World as tokens;
ghost use Rattle.k_aligned.specs.Aligned.{AreSound};
ghost use Rattle.k_handling.specs.Handling.{HasKernel, IsHandled, IsKernel};

/// All of the kernel holds again after each move of a carrier that is no step of a thread's context, but for the soundness of
/// carriers and contexts. It does so after a look at a context, also where the goal was replaced and is dropped; after a take,
/// won or lost, also where a switch begins, a sleeping goal is woken or a dead one is dropped; after a give, also where the switch
/// of the carrier is over; and after a step of a switch, its own or another carrier's. No entry is made. Board and carriers make a
/// step of the whole then, but where a goal was replaced: then another carrier has a context in hand.
pub fn every_other_move_keeps_the_kernel()
    ensures look { (script : Script) (w : World) (b : Board) (view : tokens.World) (state : KernelState) (c n : ℕ)
        → IsScript script → IsKernel script w b view state → c < length w.carriers → ask_of (carrier_at w c) ≡ LookAt n
        → IsHandled script b view c (moved script c w) w.history state }
    ensures take { (script : Script) (w : World) (b : Board) (view : tokens.World) (state : KernelState) (c n bits : ℕ)
        → IsScript script → IsKernel script w b view state → c < length w.carriers → ask_of (carrier_at w c) ≡ Take n bits
        → IsHandled script b view c (moved script c w) w.history state }
    ensures give { (script : Script) (w : World) (b : Board) (view : tokens.World) (state : KernelState) (c : ℕ)
        (h : HandSeen) → IsScript script → IsKernel script w b view state → c < length w.carriers
        → ask_of (carrier_at w c) ≡ PutDown h → IsHandled script b view c (moved script c w) w.history state }
    ensures switch { (script : Script) (w : World) (b : Board) (view : tokens.World) (state : KernelState) (c n : ℕ)
        (x : CarrierContext) → IsScript script → IsKernel script w b view state → c < length w.carriers
        → ask_of (carrier_at w c) ≡ Run (record { context = n; value = Carrier x })
        → IsHandled script b view c (moved script c w) w.history state }
{}

/// With carriers and contexts that are sound, what a move leaves is the kernel again.
pub fn a_kernel_is_handled_soundly()
    ensures { (script : Script) (b : Board) (v : tokens.World) (c : ℕ) (w : World) (entries : List Entry) (state : KernelState)
        → (h : IsHandled script b v c w entries state) → AreSound script w
        → ((d : ℕ) → d < length w.carriers → carriers.IsSound script (carrier_at w d))
        → IsKernel script w h.board h.view state }
{}

/// A start that hasn't come yet, the end of a slice and a park keep all of it. A park without a hand waits for one.
pub fn what_comes_from_outside_keeps_the_kernel()
    ensures start { (script : Script) (w : World) (b : Board) (view : tokens.World) (state : KernelState) (c number : ℕ)
        → IsScript script → IsKernel script w b view state → c < length w.carriers → is_due w.unstarted number ≡ true
        → HasKernel script b (started c number w) state }
    ensures slice { (script : Script) (w : World) (b : Board) (view : tokens.World) (state : KernelState) (c : ℕ)
        → IsScript script → IsKernel script w b view state → c < length w.carriers → HasKernel script b (sliced c w) state }
    ensures park { (script : Script) (w : World) (b : Board) (view : tokens.World) (state : KernelState) (c : ℕ)
        → IsScript script → IsKernel script w b view state → c < length w.carriers → HasKernel script b (parked c w) state }
{}
