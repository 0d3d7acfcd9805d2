// The laws of the counts of steps. Each is a function that does nothing, whose contract is the law.
ghost use Rattle.std.specs.Prelude.{List, Option, Some, length, ℕ, ◌<◌, ◌≡◌, ◌≤◌};
ghost use Rattle.k_caller.specs.Threads.{ThreadSeen};
ghost use Rattle.k_caller.specs.declared.activity.Activity.TheVariants as activity;
ghost use Rattle.k_caller.specs.declared.thread.ThreadLocation.TheVariants as location;
ghost use Rattle.k_context.specs.Contexts.{ContextSeen, Thread, asked, begun, done_of, owner_of, serial_of, thread_of, with_switch, without_switch, woken};
ghost use Rattle.k_ids.specs.declared.calls.Reply.{Reply};
ghost use Rattle.k_ids.specs.declared.threads.ThreadId.{ThreadId};
ghost use Rattle.k_marks.specs.Booted.{boot_counting};
ghost use Rattle.k_marks.specs.Brief.{IsTallied};
ghost use Rattle.k_marks.specs.Moved.{IsCountable, counting_by};
ghost use Rattle.k_marks.specs.Counting.{Changes, Counting, Goes, IsCounted, IsNew, IsUnmarked};
ghost use Rattle.k_marks.specs.Runs.{AreInPlace, IsRoomy, boot_versions};
ghost use Rattle.k_script.specs.Script.{Script};
ghost use Rattle.k_switch.specs.Carriers.{last_serial};
ghost use Rattle.k_switch.specs.declared.switch.SwitchCall.{SwitchCall};
ghost use Rattle.k_world.specs.Boot.{booted};
ghost use Rattle.k_world.specs.Runs.{Turn, run_of};
ghost use Rattle.k_world.specs.Lawful.{IsLawfulMarks, IsOnceMade, numbers_of};
ghost use Rattle.k_world.specs.Steps.{moved, parked, sliced, started, step_in};
ghost use Rattle.k_world.specs.Worlds.{World};

/// When a run begins, nothing is marked and nothing is counted.
pub fn nothing_is_counted_at_the_start()
    ensures booted { (script : Script) (carriers : ℕ) → IsTallied script.table (boot_counting script carriers) }
    ensures unmarked { (table : ℕ) (s : Counting) → IsUnmarked table s → IsCounted table s }
{}

/// Whatever becomes of contexts and of the log, each context that is there has counted the marks of its call, and no call to
/// come has one.
pub fn contexts_count_their_marks()
    ensures { (table : ℕ) (s t : Counting) → IsCounted table s → Changes s t → IsCounted table t }
{}

/// Where contexts have counted their marks, the marks of each call are numbered in the order of its steps, and none stands
/// twice.
pub fn marks_stay_in_order()
    ensures order { (table : ℕ) (s : Counting) → IsCounted table s → IsLawfulMarks s.marks }
    ensures once { (table : ℕ) (s : Counting) → IsCounted table s → IsOnceMade s.marks }
    ensures call { (table : ℕ) (s : Counting) → IsCounted table s → (n : ℕ) (v : ContextSeen) → s.context n ≡ Some v →
        length (numbers_of (owner_of v) (serial_of v) s.marks) ≡ done_of v }
{}

/// So it is after each step of a carrier, which finds contexts where they are, and something to count. A start, the end of a
/// slice and a park leave the log as it is.
pub fn a_carriers_step_is_counted()
    ensures moved { (script : Script) (c table : ℕ) (w : World) (s : Counting) → IsTallied table s → s.marks ≡ w.steps →
        IsCountable (step_in script c w) s → IsTallied table (counting_by script w (step_in script c w) s) }
    ensures lawful { (script : Script) (c table : ℕ) (w : World) (s : Counting) → IsTallied table s → s.marks ≡ w.steps →
        IsCountable (step_in script c w) s → IsLawfulMarks (moved script c w).steps }
    ensures log { (script : Script) (c : ℕ) (w : World) (s : Counting) →
        (counting_by script w (step_in script c w) s).marks ≡ (moved script c w).steps }
    ensures flags { (c number : ℕ) (w : World) → ((started c number w).steps ≡ w.steps) × ((sliced c w).steps ≡ w.steps) ×
        ((parked c w).steps ≡ w.steps) }
{}

/// Over a whole run no step is made twice, and the steps of each call are numbered in the order in which they were made: where
/// each step along the run finds contexts where they are and something to count, and leaves contexts where they are.
pub fn no_step_is_made_twice_over_a_run()
    ensures order { (script : Script) (carriers : ℕ) (turns : List Turn) → IsRoomy script carriers →
        AreInPlace script turns (booted script carriers) (boot_versions script) →
        IsLawfulMarks (run_of script carriers turns).steps }
    ensures once { (script : Script) (carriers : ℕ) (turns : List Turn) → IsRoomy script carriers →
        AreInPlace script turns (booted script carriers) (boot_versions script) →
        IsOnceMade (run_of script carriers turns).steps }
{}

/// What becomes of a context where its section makes no step is as the counts have it: where it is asked, woken, begins its
/// next call, or begins or ends a switch; and a new thread's context has counted nothing.
pub fn contexts_go_as_counted()
    ensures asked { (v : ContextSeen) → Goes v (asked v) }
    ensures woken { (v : ContextSeen) → Goes v (woken v) }
    ensures begun { (script : Script) (v : ContextSeen) →
        ((t : ThreadSeen) (last : Option Reply) → v ≡ Thread t → t.activity ≡ activity.Alone (location.Between last) →
        t.serial < last_serial) → Goes v (begun script v) }
    ensures with_switch { (c : SwitchCall) (v : ContextSeen) → serial_of v ≤ last_serial → Goes v (with_switch c v) }
    ensures without_switch { (v : ContextSeen) → Goes v (without_switch v) }
    ensures placed { (script : Script) (id : ThreadId) (program priority : ℕ) → IsNew id (thread_of script id program priority) }
{}
