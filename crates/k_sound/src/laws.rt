// The laws. Each is a function that does nothing, whose contract is the law.
ghost use Rattle.k_context.specs.Contexts.{ContextSeen, IsFit, IsSound, asked, begun, carrier_of, is_open, resumed};
ghost use Rattle.k_context.specs.Contexts.{step_of, thread_of};
ghost use Rattle.k_ids.specs.declared.threads.ThreadId.{ThreadId};
ghost use Rattle.k_locks.specs.Steps.{suits};
ghost use Rattle.k_locks.specs.declared.steps.Answer.{Answer};
ghost use Rattle.k_script.specs.Limits.{IsScript};
ghost use Rattle.k_script.specs.Plays.{IsInRange};
ghost use Rattle.k_script.specs.Script.{Script};
ghost use Rattle.k_sound.specs.Hands.{HandProper};
ghost use Rattle.std.specs.Prelude.{true, ℕ, ◌<◌, ◌≡◌};

/// A new context is sound: that of a thread of the table, and that of a carrier.
pub fn a_new_context_is_sound()
    ensures thread { (script : Script) (id : ThreadId) (program priority : ℕ) → IsScript script → IsInRange script.table id
        → priority < 64 → IsSound script (thread_of script id program priority) }
    ensures carrier { (script : Script) (number : ℕ) → number < 8 → IsSound script (carrier_of number) }
{}

/// A sound context stays sound where its next call begins, where it is asked for its step, and where the step was answered: by an
/// answer that the step can have, and that fits where it stands.
pub fn a_context_stays_sound()
    ensures begun { (script : Script) (v : ContextSeen) → IsScript script → IsSound script v → IsSound script (begun script v) }
    ensures asked { (script : Script) (v : ContextSeen) → IsSound script v → IsSound script (asked v) }
    ensures answered { (script : Script) (v : ContextSeen) (a : Answer) → is_open v ≡ true → IsSound script v
        → suits (step_of v) a ≡ true → HandProper v → IsFit script v a → IsSound script (resumed v a) }
{}
