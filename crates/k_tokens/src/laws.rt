// The laws of the good world, as far as threads' contexts go. Each is a function that does nothing, whose contract is the law.
ghost use Rattle.k_ids.specs.declared.threads.ThreadId.{ThreadId};
ghost use Rattle.k_tokens.specs.Claims.{AtRest, IsHeld, NothingToCome, OneHolder, ReadyLists};
ghost use Rattle.k_tokens.specs.Good.{Holder, IsGood, is_coming};
ghost use Rattle.k_tokens.specs.Grants.{MayStep};
ghost use Rattle.k_tokens.specs.Steps.{ThreadStep, after_step};
ghost use Rattle.k_tokens.specs.World.{World, holds_any, is_idle, owner_of};
ghost use Rattle.std.specs.Prelude.{ℕ, true, false, ◌≡◌};

/// A step of a thread's context keeps the good world, where a carrier runs the context and its location grants the step.
pub fn a_thread_step_keeps_the_good_world()
    ensures { (w : World) (c me : ℕ) (step : ThreadStep) → MayStep w c me step → IsGood (after_step w c me step) }
{}

/// A thread that is there is on exactly where one and only one list, goal, push or start has it, once.
pub fn who_is_on_has_one_holder()
    ensures { (w : World) → IsGood w → OneHolder w }
{}

/// What the good world says of the ready lists, and of `running`.
pub fn ready_lists_are_counted()
    ensures { (w : World) → IsGood w → ReadyLists w }
{}

/// Who is being pushed, or waits for a start, holds no lock.
pub fn who_is_coming_holds_no_lock()
    ensures { (w : World) (t : ℕ) (h : Holder) → IsGood w → holds_any (w.threads.locks t) ≡ true
        → IsHeld w (owner_of w.threads t) h → is_coming h ≡ false }
{}

/// Where a switch has found nobody to run, no carrier runs a thread, and no start is to come, nobody can go on.
pub fn idle_means_rest()
    ensures { (w : World) (c : ℕ) → IsGood w → is_idle (w.own c) ≡ true → w.running ≡ 0 → NothingToCome w → AtRest w }
{}
