// The laws. Each is a function that does nothing, whose contract is the law.
ghost use Rattle.std.specs.Prelude.{◌≡◌, ◌≢◌, ◌<◌, ◌==◌, ℕ, Bool, true, false, Option, Some, None, IfSome, List};
ghost use Rattle.std.specs.Prelude.{length, slice_set};
ghost use Rattle.k_ids.specs.declared.threads.ThreadId.{ThreadId};
ghost use Rattle.k_ids.specs.ContextWords.{IsContextSpelling, context_word_of};
ghost use Rattle.k_script.specs.Script.{Script};
ghost use Rattle.k_ids.specs.StateWords.{state_word_of};
ghost use Rattle.k_model.specs.Maps.{upd};
ghost use Rattle.k_ready.specs.Lists.{Ready};
ghost use Rattle.k_locks.specs.declared.goods.Goods.{Goods};
ghost use Rattle.k_locks.specs.declared.steps.Answer.{Answer};
ghost use Rattle.k_locks.specs.declared.steps.Answer.TheVariants as answer;
ghost use Rattle.k_locks.specs.declared.locks.Lock.{Lock};
ghost use Rattle.k_locks.specs.declared.locks.WordName.TheVariants as name;
ghost use Rattle.k_locks.specs.declared.steps.Told.{Told};
ghost use Rattle.k_locks.specs.declared.steps.Told.TheVariants as told;
ghost use Rattle.k_locks.specs.Steps.{is_again};
ghost use Rattle.k_switch.specs.declared.goal.Goal.{Goal};
ghost use Rattle.k_switch.specs.declared.switch.SwitchCall.{SwitchCall};
ghost use Rattle.k_switch.specs.declared.switch.SwitchLocation.TheVariants as location;
ghost use Rattle.k_switch.specs.declared.switch.SwitchLocked.TheVariants as locked;
ghost use Rattle.k_switch.specs.Switches.{filled, taken};
ghost use Rattle.k_caller.specs.declared.ran.Ran.TheVariants as ran;
ghost use Rattle.k_caller.specs.Threads.{ThreadSeen};
ghost use Rattle.k_caller.specs.Threads as threads;
ghost use Rattle.k_context.specs.Contexts.{ContextSeen, Thread, begun, ran_of, step_of};
ghost use Rattle.k_context.specs.Contexts as contexts;
ghost use Rattle.k_carrier.specs.Answers as answers;
ghost use Rattle.k_carrier.specs.Asked.{LookAt, PutDown, Run, Take, ask_of, asked, lock_acquired, out_of, rested};
ghost use Rattle.k_carrier.specs.Flags as flags;
ghost use Rattle.k_carrier.specs.Resumed.{resumed, told_in};
ghost use Rattle.k_carrier.specs.Rules as carriers;
ghost use Rattle.k_carrier.specs.Seen.{CarrierSeen, HandSeen};
ghost use Rattle.k_carrier.specs.Starts.{is_due};
ghost use Rattle.k_world.specs.Moves.{answer_by};
ghost use Rattle.k_world.specs.Steps as raws;
ghost use Rattle.k_world.specs.Worlds.{carrier_at, word_at};
ghost use Rattle.k_world.specs.Worlds as raw;
ghost use Rattle.k_tokens.specs.Good.{Holder, IsGood};
ghost use Rattle.k_tokens.specs.Grants.{Grants, IsRun};
ghost use Rattle.k_tokens.specs.Steps.{ThreadStep, after_step, without_goal};
ghost use Rattle.k_tokens.specs.World.{ContextName, OfCarrier, World, with_carrier};
ghost use Rattle.k_switching.specs.Rules as rules;
ghost use Rattle.k_grants.specs.Granted.{IsFound, IsWait};
ghost use Rattle.k_grants.specs.Views.{name_of};
ghost use Rattle.k_moves.specs.Moved.{IsGiven, IsInHand, IsMoved, IsStarted, is_replaced};
ghost use Rattle.k_moves.specs.Sums.{AreViewed, IsThere, MayMove};
ghost use Rattle.k_moves.specs.Switched.{HasLists, IsListable, IsStepped, ShowsWord, in_switch, stepped};
ghost use Rattle.k_moves.specs.Told.{IsPush, IsTold, finding_by, wait_by};
ghost use Rattle.k_moves.specs.Views.{IsViewed, ShowsContext, ShowsThread, carrier_view, condition_of, readied_by, target_in};

/// A carrier's rules say the same of it and of its view: whether it is interrupted, begins to switch or puts its hand down, and
/// which context it is to take.
pub fn a_carrier_follows_the_same_rules()
    ensures interrupted { (k : CarrierSeen) → rules.is_interrupted (carrier_view k) ≡ carriers.is_interrupted k }
    ensures begins { (k : CarrierSeen) → rules.begins (carrier_view k) ≡ carriers.begins k }
    ensures readied { (k : CarrierSeen)
        → carrier_view (carriers.readied k) ≡ readied_by (rules.begins (carrier_view k)) (carrier_view k) }
    ensures target { (k : CarrierSeen) → rules.target_of (carrier_view k) ≡ target_in k.table (carriers.target_of k) }
    ensures place { (k : CarrierSeen) → IfSome k.goal (λ g. g.id.number < k.table)
        → rules.context_at k.number (rules.target_of (carrier_view k))
        ≡ name_of k.table (carriers.context_at k (carriers.target_of k)) }
    ensures gives { (w : World) (k : CarrierSeen) (h : HandSeen) → ShowsContext w k.table h.context h.value
        → rules.gives w k.number (carrier_view k) (name_of k.table h.context) ≡ carriers.gives k h }
{}

/// A look at the context that is to be taken is that of the view, but where the goal was destroyed and its number's context is
/// in another carrier's hand, a later thread's: there the goal is dropped at once. The world stays good in any case.
pub fn a_look_is_the_same()
    ensures look { (script : Script) (w : World) (k : CarrierSeen) (n bits : ℕ) (s : ThreadStep) → IsViewed w k → IsGiven k
        → ask_of k ≡ LookAt n → rules.word_of w (name_of k.table n) ≡ context_word_of bits
        → is_replaced (carriers.target_of (carriers.readied k)) (context_word_of bits) ≡ false
        → rules.carrier_step w k.number s ≡ with_carrier w k.number (carrier_view (resumed (asked script k) (answers.Looked
        bits))) }
    ensures replaced { (script : Script) (w : World) (k : CarrierSeen) (n bits : ℕ) (s : ThreadStep) → IsViewed w k
        → IsGiven k → ask_of k ≡ LookAt n → rules.word_of w (name_of k.table n) ≡ context_word_of bits
        → is_replaced (carriers.target_of (carriers.readied k)) (context_word_of bits) ≡ true
        → carrier_view (resumed (asked script k) (answers.Looked bits)) ≡ without_goal (carrier_view (carriers.readied k)) }
    ensures kept { (script : Script) (w : World) (k : CarrierSeen) (n bits : ℕ) → IsViewed w k → IsGiven k
        → ask_of k ≡ LookAt n → rules.word_of w (name_of k.table n) ≡ context_word_of bits → IsGood w
        → k.number < w.carriers
        → IsGood (with_carrier w k.number (carrier_view (resumed (asked script k) (answers.Looked bits)))) }
{}

/// A take is won where the word is still the same, bit by bit; and what it makes of the carrier and of the context is what it
/// makes of the view: the goal is woken, a dead one is dropped, and in its own context a switch begins. A take that is lost
/// takes nothing.
pub fn a_take_is_the_same()
    ensures words { (a b : ℕ) → IsContextSpelling a → IsContextSpelling b
        → rules.same_word (context_word_of a) (context_word_of b) ≡ (a == b) }
    ensures won { (script : Script) (w : World) (k : CarrierSeen) (n bits : ℕ) (s : ThreadStep) (v held : ContextSeen)
        → IsViewed w k → IsGiven k → ask_of k ≡ Take n bits → rules.word_of w (name_of k.table n) ≡ context_word_of bits
        → ShowsContext w k.table n v → IsInHand (resumed (asked script k) (answers.Took v)) n held
        → IsMoved w (rules.carrier_step w k.number s) k (resumed (asked script k) (answers.Took v)) n held (Some k.number) }
    ensures lost { (script : Script) (w : World) (k : CarrierSeen) (n bits : ℕ) (s : ThreadStep) → IsViewed w k → IsGiven k
        → ask_of k ≡ Take n bits → (found : ℕ) → rules.word_of w (name_of k.table n) ≡ context_word_of found
        → IsContextSpelling bits → IsContextSpelling found → found ≢ bits
        → rules.carrier_step w k.number s ≡ with_carrier w k.number (carrier_view (resumed (asked script k) (answers.TakeLost
        found))) }
{}

/// What a give makes of the carrier and of the context that it puts down is what it makes of the view: who has released what it
/// was helped for isn't helped any more, and a finished switch of the carrier's own is taken out.
pub fn a_give_is_the_same()
    ensures { (script : Script) (w : World) (k : CarrierSeen) (h : HandSeen) (s : ThreadStep) → IsViewed w k
        → ask_of k ≡ PutDown h → ShowsContext w k.table h.context h.value
        → IsMoved w (rules.carrier_step w k.number s) k (resumed (asked script k) answers.Given) h.context (rested
        (carriers.is_own k h) h.value) None }
{}

/// A start, the end of a slice and a park are those of the view; a park only where there is something in hand. Without a hand
/// it is put down as soon as there is one, and the world stays good too.
pub fn what_comes_from_outside_is_the_same()
    ensures start { (w : World) (k : CarrierSeen) (number : ℕ) (unstarted : List Bool) → IsViewed w k
        → w.unmade ≡ is_due unstarted → number < length k.starts → number < length unstarted
        → IsStarted w (rules.started w k.number number) (flags.started number k) (slice_set unstarted number false) }
    ensures slice { (w : World) (k : CarrierSeen) → IsViewed w k
        → rules.sliced w k.number ≡ with_carrier w k.number (carrier_view (flags.sliced k)) }
    ensures park { (w : World) (k : CarrierSeen) → IsViewed w k → flags.has_hand k ≡ true
        → rules.parked w k.number ≡ with_carrier w k.number (carrier_view (flags.parked k)) }
    ensures parked { (w : World) (k : CarrierSeen) → IsViewed w k → IsGood w
        → IsGood (with_carrier w k.number (carrier_view (flags.parked k))) }
{}

/// A step of a switch, in the hand of its carrier or of another, is that of the view, location by location: its acquire of the
/// ready lock, which it gets or finds owned, its loads of a thread's word, and its release, with which the lists and the
/// carrier's goal change.
pub fn a_switch_is_the_same()
    ensures got { (script : Script) (w : World) (k : CarrierSeen) (n d serial done : ℕ) (c : SwitchCall) (s : ThreadStep)
        → IsViewed w k → (r : Ready) (goods : Goods)
        → ask_of k ≡ Run (record { context = n; value = in_switch d serial done c (location.AcquireReady) })
        → ShowsContext w k.table n (in_switch d serial done c (location.AcquireReady)) → w.ready_owner ≡ None
        → IsStepped w (rules.carrier_step w k.number s) k (resumed (asked script k) (answers.Section (answer.Got goods))) n
        (stepped script (in_switch d serial done c (location.AcquireReady)) (answer.Got goods)) (Some (OfCarrier d)) r r }
    ensures owned { (script : Script) (w : World) (k : CarrierSeen) (n d serial done : ℕ) (c : SwitchCall) (s : ThreadStep)
        → IsViewed w k → (r : Ready) (owner : ℕ)
        → ask_of k ≡ Run (record { context = n; value = in_switch d serial done c (location.AcquireReady) })
        → ShowsContext w k.table n (in_switch d serial done c (location.AcquireReady))
        → w.ready_owner ≡ Some (name_of k.table owner)
        → IsStepped w (rules.carrier_step w k.number s) k (resumed (asked script k) (answers.Section (answer.Told (told.Owned
        owner)))) n (stepped script (in_switch d serial done c (location.AcquireReady)) (answer.Told (told.Owned owner)))
        (Some (name_of k.table owner)) r r }
    ensures goal { (script : Script) (w : World) (k : CarrierSeen) (n d serial done : ℕ) (c : SwitchCall) (s : ThreadStep)
        → IsViewed w k → (r : Ready) (goal : Goal) (lists : Ready) (bits : ℕ)
        → ask_of k ≡ Run (record {
          context = n;
          value = in_switch d serial done c (location.Locked (locked.LoadGoal goal)
              lists);
        })
        → ShowsContext w k.table n (in_switch d serial done c (location.Locked (locked.LoadGoal goal) lists))
        → ShowsWord w.threads goal.id.number (state_word_of bits)
        → IsStepped w (rules.carrier_step w k.number s) k (resumed (asked script k) (answers.Section (answer.Told (told.Loaded
        bits)))) n (stepped script (in_switch d serial done c (location.Locked (locked.LoadGoal goal) lists)) (answer.Told
        (told.Loaded bits))) w.ready_owner r r }
    ensures start { (script : Script) (w : World) (k : CarrierSeen) (n d serial done : ℕ) (c : SwitchCall) (s : ThreadStep)
        → IsViewed w k → (r : Ready) (back : Option Goal) (number : ℕ) (lists : Ready) (bits : ℕ)
        → ask_of k ≡ Run (record {
          context = n;
          value = in_switch d serial done c (location.Locked (locked.LoadStart back
              number) lists);
        })
        → ShowsContext w k.table n (in_switch d serial done c (location.Locked (locked.LoadStart back number) lists))
        → ShowsWord w.threads number (state_word_of bits)
        → IsStepped w (rules.carrier_step w k.number s) k (resumed (asked script k) (answers.Section (answer.Told (told.Loaded
        bits)))) n (stepped script (in_switch d serial done c (location.Locked (locked.LoadStart back number) lists))
        (answer.Told (told.Loaded bits))) w.ready_owner r r }
    ensures released { (script : Script) (w : World) (k : CarrierSeen) (n d serial done : ℕ) (c : SwitchCall) (s : ThreadStep)
        → IsViewed w k → (back started : Option Goal) (r : Ready)
        → ask_of k ≡ Run (record {
          context = n;
          value = in_switch d serial done c (location.Locked (locked.ReleaseReady back
              started) r);
        })
        → ShowsContext w k.table n (in_switch d serial done c (location.Locked (locked.ReleaseReady back started) r))
        → HasLists r w → IsListable back → IsListable started
        → IsStepped w (rules.carrier_step w k.number s) k (resumed (asked script k) (answers.Section (answer.Told
        told.Released))) n (stepped script (in_switch d serial done c (location.Locked (locked.ReleaseReady back started)
        r)) (answer.Told told.Released)) None r (taken (filled c back started r)) }
{}

/// A step of a thread's context is the step that its location grants, and what becomes of the carrier is what it says, where
/// that and what is told of it are of one kind: whom it helps, whether a thread above its goal is ready, and whether its goal
/// is left.
pub fn a_threads_step_is_the_same()
    ensures step { (script : Script) (w : World) (k : CarrierSeen) (n : ℕ) (t : ThreadSeen) (s : ThreadStep) → IsViewed w k
        → ask_of k ≡ Run (record { context = n; value = Thread t }) → ShowsThread w.threads k.table n t
        → rules.carrier_step w k.number s ≡ after_step w k.number n s }
    ensures carrier { (script : Script) (w : World) (k : CarrierSeen) (n : ℕ) (t : ThreadSeen) (s : ThreadStep)
        → IsViewed w k → ask_of k ≡ Run (record { context = n; value = Thread t }) → ShowsThread w.threads k.table n t
        → (a : Answer)
        → IsTold w k.number k.table n k.goal (lock_acquired (step_of (begun script (Thread t)))) (told_in a) (ran_of
        (contexts.asked (begun script (Thread t))) a) s
        → (after_step w k.number n s).carrier ≡ upd w.carrier k.number (carrier_view (resumed (asked script k)
        (answers.Section a))) }
{}

/// A step that a location grants, with what a carrier finds by what it is told, is of one kind with what is told: so the laws
/// on turns and on carriers meet. That a push is told only of a release that pushes is taken for granted.
pub fn what_is_granted_is_told()
    ensures waits { (size : ℕ) (acquired : Option Lock) (t : Option Told) → IsWait (wait_by size acquired t) }
    ensures told { (w : World) (c size me : ℕ) (goal : Option Goal) (acquired : Option Lock) (t : ThreadSeen) (a : Answer)
        (s : ThreadStep) (holder : ThreadId
        → Holder) → IsRun w c me holder → Grants w me s
        → IsFound (finding_by size goal acquired (told_in a) (threads.ran_of t a)) (is_again a) s
        → (after_step w c me s).threads.condition me ≡ condition_of (threads.resumed t a).activity → ((priority : ℕ)
        → threads.ran_of t a ≡ ran.Pushed priority → IsPush s)
        → IsTold w c size me goal acquired (told_in a) (threads.ran_of t a) s }
{}

/// One move of a carrier in the raw world is one step of the carriers that keep the good world: after it all carriers are again
/// as the world has them. A look that finds a goal replaced drops it instead. What comes from outside does so too.
pub fn a_move_is_a_step()
    ensures look { (script : Script) (c : ℕ) (r : raw.World) (w : World) (s : ThreadStep) → AreViewed r w → MayMove r w c
        → (n : ℕ) → ask_of (carrier_at r c) ≡ LookAt n
        → is_replaced (carriers.target_of (carriers.readied (carrier_at r c))) (context_word_of (word_at r (name.Context n)))
        ≡ false
        → AreViewed (raws.moved script c r) (rules.carrier_step w c s) }
    ensures replaced { (script : Script) (c : ℕ) (r : raw.World) (w : World) (s : ThreadStep) → AreViewed r w
        → MayMove r w c → (n : ℕ) → ask_of (carrier_at r c) ≡ LookAt n
        → is_replaced (carriers.target_of (carriers.readied (carrier_at r c))) (context_word_of (word_at r (name.Context n)))
        ≡ true
        → AreViewed (raws.moved script c r) (with_carrier w c (without_goal (w.carrier c))) }
    ensures take { (script : Script) (c : ℕ) (r : raw.World) (w : World) (s : ThreadStep) → AreViewed r w → MayMove r w c
        → (n bits : ℕ) → ask_of (carrier_at r c) ≡ Take n bits → IsThere r n bits
        → AreViewed (raws.moved script c r) (rules.carrier_step w c s) }
    ensures give { (script : Script) (c : ℕ) (r : raw.World) (w : World) (s : ThreadStep) → AreViewed r w → MayMove r w c
        → (h : HandSeen) → ask_of (carrier_at r c) ≡ PutDown h → ShowsContext w (carrier_at r c).table h.context h.value
        → AreViewed (raws.moved script c r) (rules.carrier_step w c s) }
    ensures switch { (script : Script) (c : ℕ) (r : raw.World) (w : World) (s : ThreadStep) → AreViewed r w → MayMove r w c
        → (a : Answer) (n : ℕ) (v : ContextSeen) (ready : Option ContextName) (lists after : Ready)
        → answer_by r (out_of script (carrier_at r c)) ≡ answers.Section a
        → IsStepped w (rules.carrier_step w (carrier_at r c).number s) (carrier_at r c) (resumed (asked script (carrier_at r
        c)) (answers.Section a)) n v ready lists after
        → AreViewed (raws.moved script c r) (rules.carrier_step w c s) }
    ensures thread { (script : Script) (c : ℕ) (r : raw.World) (w : World) (s : ThreadStep) → AreViewed r w → MayMove r w c
        → (a : Answer) (n : ℕ) (t : ThreadSeen) → answer_by r (out_of script (carrier_at r c)) ≡ answers.Section a
        → ask_of (carrier_at r c) ≡ Run (record { context = n; value = Thread t })
        → ShowsThread w.threads (carrier_at r c).table n t
        → IsTold w (carrier_at r c).number (carrier_at r c).table n (carrier_at r c).goal (lock_acquired (step_of (begun
        script (Thread t)))) (told_in a) (ran_of (contexts.asked (begun script (Thread t))) a) s
        → AreViewed (raws.moved script c r) (rules.carrier_step w c s) }
    ensures start { (c : ℕ) (r : raw.World) (w : World) → AreViewed r w → MayMove r w c → (script : Script) (number : ℕ)
        → w.unmade ≡ is_due r.unstarted → number < 64 → number < length r.unstarted
        → AreViewed (raws.started c number r) (rules.started w c number) }
    ensures slice { (c : ℕ) (r : raw.World) (w : World) → AreViewed r w → MayMove r w c → (script : Script)
        → AreViewed (raws.sliced c r) (rules.sliced w c) }
    ensures park { (c : ℕ) (r : raw.World) (w : World) → AreViewed r w → MayMove r w c → (script : Script)
        → flags.has_hand (carrier_at r c) ≡ true → AreViewed (raws.parked c r) (rules.parked w c) }
{}
