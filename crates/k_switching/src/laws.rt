// The laws of the carriers. Each is a function that does nothing, whose contract is the law.
ghost use Rattle.k_switching.specs.Boot.{Opening, boot};
ghost use Rattle.k_switching.specs.Claims.{CanStep, Granted, IsAsked};
ghost use Rattle.k_switching.specs.Rules.{carrier_step, parked, sliced, started, wants_switch};
ghost use Rattle.k_switching.specs.Trace.{finished, first_moves, first_steps, halfway, moves};
ghost use Rattle.k_switching.specs.Trace.{second_moves, second_steps, two_threads};
ghost use Rattle.k_tokens.specs.Claims.{IsHeld};
ghost use Rattle.k_tokens.specs.Good.{Holder, IsGood, is_coming};
ghost use Rattle.k_tokens.specs.Steps.{ThreadStep};
ghost use Rattle.k_tokens.specs.World.{ContextName, HasInterrupt, OfThread, World, has_switch, is_idle, owner_of};
ghost use Rattle.std.specs.Prelude.{None, ℕ, true, false, ◌<◌, ◌≡◌, ◌⊎◌};

/// Every step of every carrier keeps the good world: a look, a take, a give, a step of a switch, of its own or for another
/// carrier, and a step of a thread's context that its location grants. So does a start, the end of a slice of time and a park, at
/// any moment.
pub fn every_step_keeps_the_good_world()
    ensures step { (w : World) (c : ℕ) (step : ThreadStep) → IsGood w → c < w.carriers → Granted w c step
        → IsGood (carrier_step w c step) }
    ensures start { (w : World) (c t : ℕ) → IsGood w → w.unmade t ≡ true → IsGood (started w c t) }
    ensures slice { (w : World) (c : ℕ) → IsGood w → IsGood (sliced w c) }
    ensures park { (w : World) (c : ℕ) → IsGood w → IsGood (parked w c) }
{}

/// A context in a carrier's hand that no rule gives back has a next step: a thread's isn't asleep, at its end or dead, and a
/// carrier's own has a switch that isn't finished.
pub fn who_is_asked_has_a_step()
    ensures { (w : World) (c : ℕ) (context : ContextName) → IsGood w → IsAsked w c context → CanStep w context }
{}

/// A carrier that wants to switch, since a start has come, its slice of time has ended, or a thread above its goal was pushed,
/// makes a step of a context only while it is switching.
pub fn who_wants_to_switch_does()
    ensures { (w : World) (c : ℕ) (context : ContextName) → IsGood w → IsAsked w c context → wants_switch (w.carrier c) ≡ true
        → (w.carrier c).switching ≡ true }
{}

/// A carrier that has begun to switch, and has no switch yet, has an interrupt pending, or no goal.
pub fn who_switches_has_a_reason()
    ensures { (w : World) (c : ℕ) → IsGood w → (w.carrier c).switching ≡ true → has_switch (w.own c).stage ≡ false
        → HasInterrupt (w.carrier c) ⊎ ((w.carrier c).goal ≡ None) }
{}

/// Who is being pushed, or waits for a start, is run by nobody.
pub fn who_is_coming_is_not_run()
    ensures { (w : World) (c t : ℕ) (h : Holder) → IsGood w → IsAsked w c (OfThread t) → IsHeld w (owner_of w.threads t) h
        → is_coming h ≡ false }
{}

/// The world in which a kernel begins is good: any threads, any priorities below 64, with starts to come or without.
pub fn a_boot_world_is_good()
    ensures { (o : Opening) → ((t : ℕ) → o.priority t < 64) → IsGood (boot o) }
{}

/// A run of two threads on one carrier makes the moves that were worked out by hand, and its last switch finds nobody to run.
pub fn a_run_goes_as_worked_out()
    ensures first { moves 34 (boot two_threads) first_steps ≡ first_moves }
    ensures second { moves 41 (halfway (boot two_threads)) second_steps ≡ second_moves }
    ensures idle { is_idle ((finished (boot two_threads)).own 0) ≡ true }
    ensures alone { (finished (boot two_threads)).running ≡ 0 }
{}
