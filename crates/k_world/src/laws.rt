// The laws of worlds, and of the marks that steps leave. Each is a function that does nothing, whose contract is the law.
ghost use Rattle.std.specs.Prelude.{◌≡◌, ◌≢◌, ◌<◌, ◌≤◌, ◌+◌, ◌++◌, ◌∷◌, ◌&&◌, ℕ, Bool, true, false, not, if◌then◌else◌, List, [], Option, Some, None, IfSome, length, slice_index_or};
ghost use Rattle.k_ids.specs.declared.lock_word.LockWord.TheVariants.{Free};
ghost use Rattle.k_ids.specs.ContextWords.{context_bits};
ghost use Rattle.k_ids.specs.LockWords.{lock_bits};
ghost use Rattle.k_ids.specs.StateWords.{state_bits};
ghost use Rattle.k_locks.specs.declared.steps.Answer.{Answer};
ghost use Rattle.k_locks.specs.declared.steps.Step.{Step};
ghost use Rattle.k_locks.specs.declared.locks.Lock.{Lock};
ghost use Rattle.k_locks.specs.declared.locks.WordName.TheVariants as word;
ghost use Rattle.k_locks.specs.Places.{IsLock, home_of, index_of, lock_number, slot_of};
ghost use Rattle.k_locks.specs.Steps.{is_again, one_more};
ghost use Rattle.k_ready.specs.Lists.{list_of, stands};
ghost use Rattle.k_script.specs.Script.{Script};
ghost use Rattle.k_context.specs.declared.owner.Owner.{Owner};
ghost use Rattle.k_context.specs.Contexts.{ContextSeen, done_of, owner_of, resumed, serial_of};
ghost use Rattle.k_switch.specs.Carriers.{last_serial};
ghost use Rattle.k_carrier.specs.declared.marks.StepMark.{StepMark};
ghost use Rattle.k_carrier.specs.declared.marks.Want.{Want};
ghost use Rattle.k_carrier.specs.Answers as answers;
ghost use Rattle.k_carrier.specs.Moves.{MoveSeen};
ghost use Rattle.k_carrier.specs.Moves as moves;
ghost use Rattle.k_carrier.specs.Rules.{is_interrupted};
ghost use Rattle.k_carrier.specs.Seen.{HandSeen, new_carrier};
ghost use Rattle.k_world.specs.Boot.{boot_context, boot_home, boot_ready, boot_resting, boot_state, booted, has_start, thread_line};
ghost use Rattle.k_world.specs.Examples.{ClientIsHelped, CreatorHelpsTwo, ReceiverIsHelped};
ghost use Rattle.k_world.specs.Frames.{Extends, IsBootSized, IsOfContext, IsSized, is_section};
ghost use Rattle.k_world.specs.Lawful.{IsGot, IsLater, IsLawfulLog, IsLawfulMarks, IsOnceMade, numbers_of};
ghost use Rattle.k_world.specs.Marks.{Onward, course_of, has_mark, held_up, mark_at, marks_by, same_goal, same_owner, standing_at, step_mark};
ghost use Rattle.k_world.specs.Moves.{change_of, found_by, slots_by, word_on, words_by};
ghost use Rattle.k_world.specs.Steps.{CarrierStep, carrier_after, course_in, moved, moved_by, parked, sliced, started, step_in, waits_after, waits_by};
ghost use Rattle.k_world.specs.Worlds.{Away, WaitLog, World, carrier_at, slot_at, word_at};

/// What stands where in the world in which a run begins.
pub fn a_run_begins_so()
    ensures states { (script : Script) (carriers n : ℕ) → n < 64 → word_at (booted script carriers) (word.State n) ≡ state_bits (boot_state script n) }
    ensures mails { (script : Script) (carriers n : ℕ) → n < 64 → word_at (booted script carriers) (word.Mail n) ≡ 0 }
    ensures locks { (script : Script) (carriers : ℕ) (l : Lock) → IsLock l → word_at (booted script carriers) (word.Lock l) ≡ lock_bits Free }
    ensures contexts { (script : Script) (carriers n : ℕ) → n < 72 → word_at (booted script carriers) (word.Context n) ≡ context_bits (boot_context script carriers n) }
    ensures homes { (script : Script) (carriers : ℕ) (l : Lock) → IsLock l → slot_at (booted script carriers) (home_of l) ≡ boot_home script (lock_number l) }
    ensures slots { (script : Script) (carriers n : ℕ) → n < 72 → slot_at (booted script carriers) (slot_of n) ≡ boot_resting script carriers n }
    ensures carriers { (script : Script) (carriers c : ℕ) → c < carriers → carrier_at (booted script carriers) c ≡ new_carrier c script.table }
    ensures sizes { (script : Script) (carriers : ℕ) → IsBootSized script carriers (booted script carriers) }
{}

/// A thread with a start line stands in no ready list when a run begins. The others stand in that of their priority.
pub fn a_thread_waits_for_its_start()
    ensures waits { (script : Script) (n priority : ℕ) → has_start script n ≡ true → stands n (list_of (boot_ready script).lists priority) ≡ false }
    ensures ready { (script : Script) (n : ℕ) → n < length script.threads → (thread_line script n).priority < 64 → has_start script n ≡ false → stands n (list_of (boot_ready script).lists (thread_line script n).priority) ≡ true }
{}

/// A step changes one word and one slot at most. A look, a take and a give of a context are on its word and slot alone, and a look
/// changes nothing.
pub fn a_step_is_on_one_word()
    ensures words { (w : World) (i : ℕ) (m : MoveSeen) (n : ℕ) → n ≢ index_of (word_on m) → slice_index_or (words_by w i m) n 0 ≡ slice_index_or w.words n 0 }
    ensures slots { (script : Script) (w : World) (m : MoveSeen) (n : ℕ) → IfSome (change_of script m (found_by w m)) (λ c. n ≢ c.slot) → slice_index_or (slots_by script w m) n Away ≡ slot_at w n }
    ensures contexts { (script : Script) (n old new : ℕ) (v : ContextSeen) → IsOfContext script (moves.Look n) n × IsOfContext script (moves.TakeContext n old new) n × IsOfContext script (moves.GiveContext n new v) n }
    ensures looks { (script : Script) (w : World) (i n : ℕ) → (words_by w i (moves.Look n) ≡ w.words) × (slots_by script w (moves.Look n) ≡ w.slots) }
{}

/// Nothing that is by number or by place grows or shrinks.
pub fn lists_keep_their_lengths()
    ensures moved { (script : Script) (c : ℕ) (w : World) → IsSized w (moved script c w) }
    ensures started { (c number : ℕ) (w : World) → IsSized w (started c number w) }
    ensures sliced { (c : ℕ) (w : World) → IsSized w (sliced c w) }
    ensures parked { (c : ℕ) (w : World) → IsSized w (parked c w) }
{}

/// The logs only grow, and the history by one entry at most, and by none but at a step of a section. A mark keeps whose wait it is
/// and what for, and once got it stays so.
pub fn logs_grow()
    ensures history { (script : Script) (c : ℕ) (w : World) → Extends w.history (moved script c w).history }
    ensures one { (script : Script) (c : ℕ) (w : World) → length (moved script c w).history ≤ length w.history + 1 }
    ensures steps { (script : Script) (c : ℕ) (w : World) → Extends w.steps (moved script c w).steps }
    ensures links { (script : Script) (c : ℕ) (w : World) → Extends w.waits.links (moved script c w).waits.links }
    ensures waits { (script : Script) (c : ℕ) (w : World) (k : ℕ) → k < length w.waits.marks → (k < length (moved script c w).waits.marks) × IsLater (mark_at w.waits.marks k) (mark_at (moved script c w).waits.marks k) }
    ensures sections { (script : Script) (w : World) (s : CarrierStep) → is_section s.answer ≡ false → (moved_by script w s).history ≡ w.history }
{}

/// A step of a section has a mark exactly where it isn't to be made again, and where it belongs to a call whose numbers haven't
/// ended. Looks, takes and gives have none.
pub fn a_step_is_marked_unless_made_again()
    ensures section { (h : HandSeen) (s : Step) (a : Answer) (runner : Owner) → marks_by runner (course_of (Some h) (moves.Section s) (answers.Section a)) ≡ (if not (is_again a) && has_mark h.value then step_mark h.value runner ∷ [] else []) }
    ensures looks { (h : Option HandSeen) (n word : ℕ) (runner : Owner) → marks_by runner (course_of h (moves.Look n) (answers.Looked word)) ≡ [] }
    ensures takes { (h : Option HandSeen) (n old new found : ℕ) (v : ContextSeen) (runner : Owner) → (marks_by runner (course_of h (moves.TakeContext n old new) (answers.Took v)) ≡ []) × (marks_by runner (course_of h (moves.TakeContext n old new) (answers.TakeLost found)) ≡ []) }
    ensures gives { (h : Option HandSeen) (n new : ℕ) (v : ContextSeen) (runner : Owner) → marks_by runner (course_of h (moves.GiveContext n new v) answers.Given) ≡ [] }
{}

/// The steps that have a mark are those that the context counts.
pub fn a_marked_step_is_counted()
    ensures { (v : ContextSeen) (a : Answer) → serial_of v ≤ last_serial → done_of v ≤ last_serial → done_of (resumed v a) ≡ (if not (is_again a) && has_mark v then one_more (done_of v) else done_of v) }
{}

/// The marks of a call are numbered in the order of its steps, so none stands twice. So it stays with one mark more, and after each
/// step, where the context has counted the marks of its call.
pub fn marks_are_in_order()
    ensures none { IsLawfulMarks [] }
    ensures once { (marks : List StepMark) → IsLawfulMarks marks → IsOnceMade marks }
    ensures moved { (script : Script) (c : ℕ) (w : World) → IsLawfulMarks w.steps → ((v : ContextSeen) → course_in (step_in script c w) ≡ Onward v → length (numbers_of (owner_of v) (serial_of v) w.steps) ≡ done_of v) → IsLawfulMarks (moved script c w).steps }
    ensures next { (marks : List StepMark) (v : ContextSeen) (runner : Owner) → IsLawfulMarks marks → length (numbers_of (owner_of v) (serial_of v) marks) ≡ done_of v → IsLawfulMarks (marks ++ step_mark v runner ∷ []) }
{}

/// Each mark of a wait has its links, the first for what its requester wants, none twice, and allows as many steps as they have
/// left; and what stands wasn't got. So it is at first, and after each step.
pub fn waits_are_lawful()
    ensures booted { (script : Script) (carriers : ℕ) → IsLawfulLog (booted script carriers).waits }
    ensures moved { (script : Script) (c : ℕ) (w : World) → IsLawfulLog w.waits → IsLawfulLog (moved script c w).waits }
{}

/// Whichever carrier makes a step, after it no mark stands of another carrier that was interrupted before it.
pub fn an_interruption_breaks_a_wait()
    ensures { (script : Script) (c d : ℕ) (w : World) → d ≢ c → d < length w.carriers → is_interrupted (carrier_at w d) ≡ true → standing_at (moved script c w).waits d ≡ None }
{}

/// A wait is got by the step with which its requester's section goes on, whichever carrier makes it. That step isn't counted in it.
pub fn the_requesters_step_ends_a_wait()
    ensures { (w : World) (c : ℕ) (is_helped : Bool) (v : ContextSeen) (l : WaitLog) (d k : ℕ) → IsLawfulLog l → standing_at l d ≡ Some k → same_owner (mark_at l.marks k).requester (owner_of v) ≡ true → IsGot l (waits_by w c is_helped (Onward v) l) d k }
{}

/// A requester that asks again, whoever holds up now what it wants, adds nothing to its mark.
pub fn asking_again_adds_nothing()
    ensures { (c : ℕ) (v : ContextSeen) (wanted : Want) (holder : Option ContextSeen) (l : WaitLog) (k : ℕ) → standing_at l c ≡ Some k → held_up c false v wanted holder l ≡ l }
{}

/// No mark stands of a carrier whose goal isn't the one any more that it had before its step.
pub fn a_dropped_goal_breaks_a_wait()
    ensures { (w : World) (s : CarrierStep) → same_goal s.before.goal (carrier_after s).goal ≡ false → standing_at (waits_after w s) s.number ≡ None }
{}

/// Three runs, worked from beginning to end: a client that is helped out of its section, a creator that helps a destroyer and through
/// it a sender, and a receiver that another carrier helps.
pub fn worked_runs_come_out()
    ensures client { ClientIsHelped }
    ensures creator { CreatorHelpsTwo }
    ensures receiver { ReceiverIsHelped }
{}
