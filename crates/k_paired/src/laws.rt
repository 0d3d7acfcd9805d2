// The laws of pairs. Each is a function that does nothing, whose contract is the law.
ghost use Rattle.k_board.specs.Boards.{Alone, Board, InSwitch, Resting, owner_of};
ghost use Rattle.k_board.specs.Boots.{Booted};
ghost use Rattle.k_board.specs.Steps.{Answers, placed, switch_board};
ghost use Rattle.k_board.specs.Turns.{Turn, is_going};
ghost use Rattle.k_board.specs.Words.{Programs};
ghost use Rattle.k_caller.specs.declared.thread.ThreadLocation.TheVariants as location;
ghost use Rattle.k_good.specs.Good.{NumbersAgree, QueuesTell};
ghost use Rattle.k_good.specs.Ranges.{NamesFit};
ghost use Rattle.k_grants.specs.Granted.{Finding, IsFreeToRemove, IsWait};
ghost use Rattle.k_locks.specs.Asks.{Response};
ghost use Rattle.k_locks.specs.declared.locks.Lock.{Lock};
ghost use Rattle.k_model.specs.Maps.{lowest};
ghost use Rattle.k_paired.specs.Pairs.{GoesOn, IsPair, IsStill};
ghost use Rattle.k_stages.specs.Opening.{IsOpening};
ghost use Rattle.k_stages.specs.Stages.{IsFrom};
ghost use Rattle.k_switch.specs.Switches as switch;
ghost use Rattle.k_switch.specs.Switches.{SwitchAt};
ghost use Rattle.k_switch.specs.declared.goal.Switched.{Switched};
ghost use Rattle.k_switch.specs.declared.switch.SwitchCall.{SwitchCall};
ghost use Rattle.k_switching.specs.Boot.{Opening, boot};
ghost use Rattle.k_switching.specs.Claims.{IsAsked};
ghost use Rattle.k_switching.specs.Rules.{begun_with, carrier_step, given, taken_asleep};
ghost use Rattle.k_tokens.specs.Good.{IsGood};
ghost use Rattle.k_tokens.specs.Steps.{ThreadStep};
ghost use Rattle.k_tokens.specs.World.{OfCarrier, OfThread, World};
ghost use Rattle.std.specs.Prelude.{None, Some, length, true, ℕ, ◌+◌, ◌<◌, ◌≡◌};

/// The board and the world in which a kernel begins are a pair.
pub fn a_pair_begins()
    ensures { (g : Programs) (b : Board) (o : Opening) → ((n : ℕ) → Booted g b n) → ((l : Lock) → owner_of b l ≡ None)
        → NumbersAgree b.seen b.numbers b.context
        → length b.numbers.versions ≡ b.size → NamesFit g b.size → ((t : ℕ) → o.priority t < 64)
        → IsOpening g b o → IsPair g b (boot o) }
{}

/// Where a carrier makes a step of a thread's context, and the queues tell what it stands on, the turn leads to a pair: it is a
/// step that its location grants.
pub fn a_thread_turn_keeps_the_pair()
    ensures { (g : Programs) (b b' : Board) (w : World) (c i : ℕ) (f : Finding) → IsPair g b w → IsAsked w c (OfThread i)
        → QueuesTell b i → IsWait f.waits → IsFreeToRemove b w i b'
        → (t : Turn g b i b') → GoesOn g b w c i b' f t }
{}

/// So does a turn of a switch, of the carrier's own or for another carrier.
pub fn a_switch_turn_keeps_the_pair()
    ensures { (g : Programs) (b : Board) (w : World) (c d : ℕ) (step : ThreadStep) → IsPair g b w → c < w.carriers
        → IsAsked w c (OfCarrier d) → (s : SwitchCall) (p : SwitchAt) (r : Response)
        → (b.context (b.size + d)).at ≡ InSwitch s p → is_going p ≡ true → Answers b (switch.ask_of s p) r
        → QueuesTell b (b.size + d)
        → IsPair g (switch_board b (b.size + d) (b.context (b.size + d)) s p r) (carrier_step w c step) }
{}

/// A carrier takes its own context, and a switch begins.
pub fn a_switch_begins_in_a_pair()
    ensures { (g : Programs) (b : Board) (w : World) (c : ℕ) (step : ThreadStep) (s : SwitchCall) → IsPair g b w
        → c < w.carriers → (w.carrier c).hand ≡ None
        → carrier_step w c step ≡ begun_with w c (lowest (w.carrier c).starts 64) → (b.context (b.size + c)).at ≡ Resting
        → IsFrom s (w.carrier c) (lowest (w.carrier c).starts 64) → QueuesTell b (b.size + c)
        → IsPair g (placed b (b.size + c) (record (b.context (b.size + c)) { at = InSwitch s switch.AcquireReady }))
        (carrier_step w c step) }
{}

/// It gives its own context back, and the switch is over.
pub fn a_switch_ends_in_a_pair()
    ensures { (g : Programs) (b : Board) (w : World) (c : ℕ) (step : ThreadStep) (s : SwitchCall) (o : Switched)
        → IsPair g b w → c < w.carriers → (w.carrier c).hand ≡ Some (OfCarrier c)
        → (b.context (b.size + c)).at ≡ InSwitch s (switch.Finished o) → QueuesTell b (b.size + c)
        → IsPair g (placed b (b.size + c) (record (b.context (b.size + c)) { at = Resting })) (carrier_step w c step) }
{}

/// A carrier takes its goal's context, which sleeps, and the thread wakes.
pub fn a_thread_wakes_in_a_pair()
    ensures { (g : Programs) (b : Board) (w : World) (c i : ℕ) (step : ThreadStep) → IsPair g b w → c < w.carriers
        → (w.carrier c).hand ≡ None → carrier_step w c step ≡ taken_asleep w c i
        → i < b.size → (b.context i).at ≡ Alone location.Asleep → QueuesTell b i
        → IsPair g (placed b i (record (b.context i) { at = Alone location.LookAgain })) (carrier_step w c step) }
{}

/// What leaves threads, ready lists and switches as they are, and the world good, is no matter of the board.
pub fn what_is_no_turn_keeps_the_pair()
    ensures { (g : Programs) (b : Board) (w v : World) → IsPair g b w → IsGood v → IsStill w v → IsPair g b v }
{}
