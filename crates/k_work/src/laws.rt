// The laws of a burst. Each is a function that does nothing, whose contract is the law.
ghost use Rattle.k_board.specs.Boards.{Alone, Board, InSwitch, Resting};
ghost use Rattle.k_board.specs.Steps.{Answers, placed, switch_board};
ghost use Rattle.k_board.specs.Turns.{Turn, is_going};
ghost use Rattle.k_board.specs.Words.{Programs};
ghost use Rattle.k_caller.specs.declared.thread.ThreadLocation.TheVariants as location;
ghost use Rattle.k_grants.specs.Granted.{Finding, IsFound, is_again};
ghost use Rattle.k_locks.specs.Asks as asks;
ghost use Rattle.k_locks.specs.Asks.{Response};
ghost use Rattle.k_locks.specs.Shown.{is_dead};
ghost use Rattle.k_model.specs.Maps.{lowest};
ghost use Rattle.k_owed.specs.Works.{CountsWork};
ghost use Rattle.k_paired.specs.Pairs.{IsPair};
ghost use Rattle.k_points.specs.Points.{turn_point};
ghost use Rattle.k_queues.specs.Queues.{IsProper};
ghost use Rattle.k_schedule.specs.Parts.{Falls};
ghost use Rattle.k_script.specs.Plays.{Position};
ghost use Rattle.k_stages.specs.Stages.{IsFrom};
ghost use Rattle.k_switch.specs.Switches as switch;
ghost use Rattle.k_switch.specs.Switches.{SwitchAt};
ghost use Rattle.k_switch.specs.declared.switch.SwitchCall.{SwitchCall};
ghost use Rattle.k_switching.specs.Claims.{IsAsked};
ghost use Rattle.k_switching.specs.Rules.{begun_with, carrier_step, taken_asleep};
ghost use Rattle.k_tokens.specs.Steps.{FindsTaken, ThreadStep};
ghost use Rattle.k_tokens.specs.World.{OfCarrier, OfThread, World};
ghost use Rattle.k_ids.specs.declared.histories.Entry.{Entry};
ghost use Rattle.k_model.specs.State.{KernelState};
ghost use Rattle.k_plays.specs.Scripts.{ranged_programs};
ghost use Rattle.k_script.specs.Script.{Script};
ghost use Rattle.k_whole.specs.Whole.{IsStepOf, Step, WholeHolds, step_point};
ghost use Rattle.k_work.specs.Near.{IsAlone, IsSupported, is_settled, near_of};
ghost use Rattle.k_work.specs.Work.{IsMade, work_parts};
ghost use Rattle.std.specs.Prelude.{List, None, false, true, ℕ, ◌+◌, ◌<◌, ◌≡◌};

/// A thread that is about to fall asleep is on, unless it was destroyed.
pub fn who_falls_asleep_is_on()
    ensures { (g : Programs) (b : Board) (w : World) (i : ℕ) → IsPair g b w
        → (b.context i).at ≡ Alone location.FallAsleep → is_dead (b.seen i).word ≡ false → (b.seen i).word.on ≡ true }
{}

/// A step of a section, of a switch, of a thread between its calls, or one that begins a switch or wakes a thread, lowers the
/// work of the carrier that makes it, unless it makes an entry of the history, or has to be made again.
pub fn a_step_of_a_section_lowers_the_work()
    ensures runs { (g : Programs) (work : Position → ℕ) (b b' : Board) (w : World) (c i : ℕ) (found : Finding)
        (step : ThreadStep) → CountsWork g work → IsProper g b → IsPair g b w → c < w.carriers → IsAsked w c (OfThread i)
        → IsMade b i found → (t : Turn g b i b') → turn_point g b i b' t ≡ None → is_again g b i b' t ≡ false
        → IsFound found false step → (room near near' : ℕ)
        → Falls (work_parts work b w c room near) (work_parts work b' (carrier_step w c step) c room near') }
    ensures switches { (g : Programs) (work : Position → ℕ) (b : Board) (w : World) (c d : ℕ) (step : ThreadStep)
        (s : SwitchCall) (p : SwitchAt) (r : Response) → IsProper g b → IsPair g b w → c < w.carriers → d < w.carriers
        → IsAsked w c (OfCarrier d) → (b.context (b.size + d)).at ≡ InSwitch s p → is_going p ≡ true
        → Answers b (switch.ask_of s p) r → asks.is_again r ≡ false → (room near near' : ℕ)
        → Falls (work_parts work b w c room near)
        (work_parts work (switch_board b (b.size + d) (b.context (b.size + d)) s p r) (carrier_step w c step) c room near') }
    ensures begins { (g : Programs) (work : Position → ℕ) (b : Board) (w : World) (c : ℕ) (step : ThreadStep)
        (s : SwitchCall) → IsProper g b → IsPair g b w → c < w.carriers → (w.carrier c).hand ≡ None
        → carrier_step w c step ≡ begun_with w c (lowest (w.carrier c).starts 64)
        → (b.context (b.size + c)).at ≡ Resting → IsFrom s (w.carrier c) (lowest (w.carrier c).starts 64)
        → (room near near' : ℕ) → Falls (work_parts work b w c room near)
        (work_parts work
        (placed b (b.size + c) (record (b.context (b.size + c)) { at = InSwitch s switch.AcquireReady }))
        (carrier_step w c step) c room near') }
    ensures wakes { (g : Programs) (work : Position → ℕ) (b : Board) (w : World) (c i : ℕ) (step : ThreadStep) → IsProper g b
        → IsPair g b w → c < w.carriers → carrier_step w c step ≡ taken_asleep w c i → i < b.size
        → (b.context i).at ≡ Alone location.Asleep → (room near near' : ℕ) → Falls (work_parts work b w c room near)
        (work_parts work (placed b i (record (b.context i) { at = Alone location.LookAgain })) (carrier_step w c step) c
        room near') }
{}

/// Each step of a carrier that leaves it unsettled lowers its work, while no other carrier has a context in hand, or makes an
/// entry of the history.
pub fn each_step_of_a_lone_carrier_lowers_its_work()
    ensures { (script : Script) (work : Position → ℕ) (b b' : Board) (w : World) (entries : List Entry) (k : KernelState)
        (c : ℕ) (step : ThreadStep) → CountsWork (ranged_programs script) work → WholeHolds script b w entries k
        → IsAlone w c → c < w.carriers → (s : Step (ranged_programs script) b w c b')
        → IsStepOf (ranged_programs script) b w c b' s step → IsSupported (ranged_programs script) b w c b' s
        → step_point (ranged_programs script) b w c b' s ≡ None
        → is_settled ((carrier_step w c step).carrier c) ≡ false → (room : ℕ)
        → Falls (work_parts work b w c room (near_of w c))
        (work_parts work b' (carrier_step w c step) c room (near_of (carrier_step w c step) c)) }
{}
