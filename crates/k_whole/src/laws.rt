// The laws of the whole. Each is a function that does nothing, whose contract is the law.
ghost use Rattle.k_board.specs.Boards.{Board, InCreate, InReceive, Nowhere};
ghost use Rattle.k_board.specs.Steps.{Answers};
ghost use Rattle.k_grants.specs.Granted.{IsFreeToRemove};
ghost use Rattle.k_grants.specs.Views.{look_at};
ghost use Rattle.k_ids.specs.declared.histories.Entry.{Entry};
ghost use Rattle.k_ids.specs.declared.threads.ThreadId.{ThreadId};
ghost use Rattle.k_ipc.specs.ReceiveTable as receive;
ghost use Rattle.k_ipc.specs.declared.receive.ReceiveCall.{ReceiveCall};
ghost use Rattle.k_ipc.specs.declared.receive.ReceiveLocked.{ReceiveLocked};
ghost use Rattle.k_locks.specs.Asks.{Response, Won};
ghost use Rattle.k_locks.specs.Shown.{is_dead};
ghost use Rattle.k_model.specs.History.{IsFinished};
ghost use Rattle.k_model.specs.State.{KernelState};
ghost use Rattle.k_plays.specs.Scripts.{ranged_programs};
ghost use Rattle.k_ready.specs.Lists.{list_of};
ghost use Rattle.k_script.specs.Limits.{IsScript};
ghost use Rattle.k_script.specs.Plays.{IsHistory, opened_for};
ghost use Rattle.k_script.specs.Script.{Script};
ghost use Rattle.k_switch.specs.declared.switch.SwitchCall.{SwitchCall};
ghost use Rattle.k_switching.specs.Boot.{Opening, boot};
ghost use Rattle.k_switching.specs.Claims.{IsAsked};
ghost use Rattle.k_switching.specs.Rules.{parked, sliced, started};
ghost use Rattle.k_threads.specs.CreateTable as create;
ghost use Rattle.k_threads.specs.declared.create.CreateCall.{CreateCall};
ghost use Rattle.k_threads.specs.declared.create.CreateLocked.TheVariants as create_locked;
ghost use Rattle.k_tokens.specs.Claims.{NothingToCome};
ghost use Rattle.k_tokens.specs.Maps.{times};
ghost use Rattle.k_tokens.specs.World.{ContextName, OfThread, World, is_idle};
ghost use Rattle.k_whole.specs.Next.{HasStep, number_of, settles};
ghost use Rattle.k_whole.specs.Whole.{IsBeginning, Step, WholeGoesOn, WholeHolds};
ghost use Rattle.std.specs.Prelude.{List, None, Some, [], length, true, ℕ, ◌<◌, ◌≡◌, ◌≢◌};

/// All of it holds of the board and of the world in which the kernel begins to run a script.
pub fn the_whole_holds_at_the_start()
    ensures { (script : Script) (b : Board) (o : Opening) → IsScript script → IsBeginning script b o
        → WholeHolds script b (boot o) [] (opened_for script) }
{}

/// After every step of every carrier all of it holds again, of the board and of the world that the step leaves. The history has
/// grown by nothing, or by the entry of the step's point, which the one-step kernel makes then. What comes from outside, at any
/// moment, leaves all of it too: a start, the end of a slice of time, a park.
pub fn every_step_of_every_carrier_keeps_the_whole()
    ensures step { (script : Script) (b b' : Board) (w : World) (entries : List Entry) (k : KernelState) (c : ℕ)
        → IsScript script → WholeHolds script b w entries k → c < w.carriers → (s : Step (ranged_programs script) b w c b')
        → WholeGoesOn script b w entries k c b' s }
    ensures start { (script : Script) (b : Board) (w : World) (entries : List Entry) (k : KernelState) (c t : ℕ)
        → IsScript script → WholeHolds script b w entries k → c < w.carriers → w.unmade t ≡ true
        → WholeHolds script b (started w c t) entries k }
    ensures slice { (script : Script) (b : Board) (w : World) (entries : List Entry) (k : KernelState) (c : ℕ)
        → IsScript script → WholeHolds script b w entries k → WholeHolds script b (sliced w c) entries k }
    ensures park { (script : Script) (b : Board) (w : World) (entries : List Entry) (k : KernelState) (c : ℕ)
        → IsScript script → WholeHolds script b w entries k → WholeHolds script b (parked w c) entries k }
{}

/// Where a finished switch has found nobody to run, no carrier runs a thread and no start is to come, nothing is to come at
/// all: the history is one of the script's, whole.
pub fn idle_means_finished()
    ensures { (script : Script) (b : Board) (w : World) (entries : List Entry) (k : KernelState) (c : ℕ)
        → WholeHolds script b w entries k → is_idle (w.own c) ≡ true → w.running ≡ 0 → NothingToCome w
        → IsFinished k × IsHistory script entries k }
{}

/// A context in a carrier's hand that no rule gives back stands at a location with a next step, and the board has an answer
/// to it.
pub fn who_is_asked_can_step()
    ensures { (script : Script) (calls : Board → ℕ → SwitchCall) (b : Board) (w : World) (entries : List Entry)
        (k : KernelState) (c : ℕ) (context : ContextName) → WholeHolds script b w entries k → IsAsked w c context
        → HasStep (ranged_programs script) calls b (number_of b context) }
{}

/// With one carrier no context of a thread is in a hand but the one that steps. So no removal finds the context taken.
pub fn no_step_finds_a_taken_context_with_one_carrier()
    ensures taken { (script : Script) (b : Board) (w : World) (entries : List Entry) (k : KernelState) (c i t : ℕ)
        → WholeHolds script b w entries k → w.carriers ≡ 1 → IsAsked w c (OfThread i) → t ≢ i → w.held t ≡ None }
    ensures removed { (script : Script) (b b' : Board) (w : World) (entries : List Entry) (k : KernelState) (c i : ℕ)
        → WholeHolds script b w entries k → w.carriers ≡ 1 → IsAsked w c (OfThread i) → IsFreeToRemove b w i b' }
{}

/// Under its own lock a receive never loses the exchange of its caller's word: to wait, to wait no more since the partner is
/// gone, to end a pick with a message, or without one. Nor does a create lose the exchange that makes the new thread.
pub fn exchanges_that_are_never_lost()
    ensures receive { (script : Script) (b : Board) (w : World) (entries : List Entry) (k : KernelState) (i : ℕ)
        (c : ReceiveCall) (p : ReceiveLocked) (r : Response) → WholeHolds script b w entries k
        → (b.context i).at ≡ InReceive c (receive.Locked p) → settles p ≡ true
        → Answers b (receive.ask_of c (b.context i).own (receive.Locked p)) r → r ≡ Won }
    ensures create { (script : Script) (b : Board) (w : World) (entries : List Entry) (k : KernelState) (i : ℕ) (c : CreateCall)
        (id : ThreadId) (r : Response) → WholeHolds script b w entries k
        → (b.context i).at ≡ InCreate c (create.Locked (create_locked.CommitCreate id))
        → Answers b (create.ask_of c (b.context i).own (create.Locked (create_locked.CommitCreate id))) r → r ≡ Won }
{}

/// Whom a section has turned on, and hasn't put into a ready list yet, stands in no ready list.
pub fn who_is_pushed_stands_in_no_list()
    ensures { (script : Script) (b : Board) (w : World) (entries : List Entry) (k : KernelState) (i p : ℕ) (who : ThreadId)
        → WholeHolds script b w entries k → (look_at (b.context i).at).push ≡ Some who
        → times who (list_of b.lists.lists p) ≡ 0 }
{}

/// The queue of a number of the table has fewer entries than the table has numbers.
pub fn a_queue_has_room()
    ensures { (script : Script) (b : Board) (w : World) (entries : List Entry) (k : KernelState) (t : ℕ) → IsScript script
        → WholeHolds script b w entries k → t < b.size → length (b.queue t) < b.size }
{}

/// Where a create places the context of a new thread, its number has neither a thread nor a context.
pub fn a_place_is_empty()
    ensures { (script : Script) (b : Board) (w : World) (entries : List Entry) (k : KernelState) (i : ℕ) (c : CreateCall)
        (id : ThreadId) → WholeHolds script b w entries k
        → (b.context i).at ≡ InCreate c (create.Locked (create_locked.PlaceContext id))
        → ((b.context id.number).at ≡ Nowhere) × (is_dead (b.seen id.number).word ≡ true) }
{}

/// Each carrier has a step that keeps the whole, whatever its next step in the world is. With more than one carrier this is
/// said where the carrier makes no step of a thread's context.
pub fn every_carrier_has_a_step()
    ensures single { (script : Script) (b : Board) (w : World) (entries : List Entry) (k : KernelState) (c : ℕ)
        → WholeHolds script b w entries k → c < w.carriers → w.carriers ≡ 1
        → (b' : Board) × Step (ranged_programs script) b w c b' }
    ensures others { (script : Script) (b : Board) (w : World) (entries : List Entry) (k : KernelState) (c : ℕ)
        → WholeHolds script b w entries k → c < w.carriers → ((t : ℕ) → IsAsked w c (OfThread t) → ⊥)
        → (b' : Board) × Step (ranged_programs script) b w c b' }
{}
