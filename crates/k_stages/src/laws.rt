// The laws of a carrier's own turns. Each is a function that does nothing, whose contract is the law.
ghost use Rattle.k_board.specs.Boards.{Alone, Board, InSwitch, Resting};
ghost use Rattle.k_board.specs.Steps.{Answers, placed, switch_board};
ghost use Rattle.k_board.specs.Turns.{Turn, is_going};
ghost use Rattle.k_board.specs.Words.{Programs};
ghost use Rattle.k_caller.specs.declared.thread.ThreadLocation.TheVariants as location;
ghost use Rattle.k_grants.specs.Granted.{MayTurn};
ghost use Rattle.k_ids.specs.declared.threads.ThreadId.{ThreadId};
ghost use Rattle.k_locks.specs.Asks.{Response};
ghost use Rattle.k_model.specs.Maps.{lowest};
ghost use Rattle.k_stages.specs.Stages.{AreAlike, IsFrom, StagesAre};
ghost use Rattle.k_switch.specs.Switches as switch;
ghost use Rattle.k_switch.specs.Switches.{SwitchAt};
ghost use Rattle.k_switch.specs.declared.goal.Switched.{Switched};
ghost use Rattle.k_switch.specs.declared.switch.SwitchCall.{SwitchCall};
ghost use Rattle.k_switching.specs.Boot.{Opening, boot};
ghost use Rattle.k_stages.specs.Opening.{IsOpening};
ghost use Rattle.k_switching.specs.Rules.{begun_with, given, taken_asleep};
ghost use Rattle.k_switching.specs.Switch.{switch_step};
ghost use Rattle.k_tokens.specs.Good.{Holder, Parts};
ghost use Rattle.k_tokens.specs.World.{OfCarrier, World};
ghost use Rattle.std.specs.Prelude.{ℕ, true, ◌+◌, ◌<◌, ◌≡◌};

/// The board on which a kernel begins and the good world in which it begins are alike.
pub fn board_and_world_begin_alike()
    ensures { (g : Programs) (b : Board) (o : Opening) → IsOpening g b o → AreAlike b (boot o) }
{}

/// A turn of a carrier's switch is the step of its stage, whichever carrier makes it.
pub fn each_switch_turn_is_a_stage()
    ensures { (b : Board) (w : World) (runner d : ℕ) (holder : ThreadId → Holder) → Parts w holder → AreAlike b w
        → (c : SwitchCall) (p : SwitchAt) (r : Response)
        → (b.context (b.size + d)).at ≡ InSwitch c p → is_going p ≡ true → Answers b (switch.ask_of c p) r
        → AreAlike (switch_board b (b.size + d) (b.context (b.size + d)) c p r) (switch_step w runner d (w.own d).stage) }
{}

/// A switch begins as its carrier takes its own context, with what the carrier has.
pub fn a_switch_begins()
    ensures { (b : Board) (w : World) (d : ℕ) (c : SwitchCall) → AreAlike b w → (b.context (b.size + d)).at ≡ Resting
        → IsFrom c (w.carrier d) (lowest (w.carrier d).starts 64)
        → AreAlike (placed b (b.size + d) (record (b.context (b.size + d)) { at = InSwitch c switch.AcquireReady }))
        (begun_with w d (lowest (w.carrier d).starts 64)) }
{}

/// It ends as the carrier gives its own context back.
pub fn a_switch_ends()
    ensures { (b : Board) (w : World) (d : ℕ) (c : SwitchCall) (s : Switched) → AreAlike b w
        → (b.context (b.size + d)).at ≡ InSwitch c (switch.Finished s)
        → AreAlike (placed b (b.size + d) (record (b.context (b.size + d)) { at = Resting })) (given w d (OfCarrier d)) }
{}

/// A sleeping thread is woken as a carrier takes its context.
pub fn a_thread_is_woken()
    ensures { (b : Board) (w : World) (c i : ℕ) → AreAlike b w → i < b.size → (b.context i).at ≡ Alone location.Asleep
        → AreAlike (placed b i (record (b.context i) { at = Alone location.LookAgain })) (taken_asleep w c i) }
{}

/// The turn of a thread's context leaves each carrier's own context where it stands.
pub fn each_turn_leaves_stages()
    ensures { (g : Programs) (b b' : Board) (w : World) (c i : ℕ) → MayTurn g b w c i → StagesAre b w → Turn g b i b'
        → StagesAre b' w }
{}
