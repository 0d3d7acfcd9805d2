// The laws of the sequential specification. Each is a function that does nothing, whose contract is the law.
ghost use Rattle.k_ids.specs.declared.calls.Act.TheVariants as act;
ghost use Rattle.k_ids.specs.declared.calls.Outcome.TheVariants as outcome;
ghost use Rattle.k_ids.specs.declared.calls.Phase.{Phase};
ghost use Rattle.k_ids.specs.declared.calls.Reply.{Reply};
ghost use Rattle.k_ids.specs.declared.calls.Reply.TheVariants as reply;
ghost use Rattle.k_ids.specs.declared.histories.Entry.{Entry};
ghost use Rattle.k_ids.specs.declared.histories.Event.{Event};
ghost use Rattle.k_ids.specs.declared.histories.ReplyLine.{ReplyLine};
ghost use Rattle.k_ids.specs.declared.threads.Status.TheVariants as status;
ghost use Rattle.k_ids.specs.declared.threads.ThreadId.{ThreadId};
ghost use Rattle.k_model.specs.Answered.{AddsReplies, IsAnswered, IsEarlierCall, reply_to};
ghost use Rattle.k_model.specs.Effort.{added, effort, waits};
ghost use Rattle.k_model.specs.History.{IsReached, opened};
ghost use Rattle.k_model.specs.Keeps.{renewed_number, IsRenewed, Leaves};
ghost use Rattle.k_model.specs.Ranges.{IsRanged};
ghost use Rattle.k_model.specs.Sound.{IsListed, IsSound, WaitsNowhere};
ghost use Rattle.k_model.specs.State.{is_present, KernelState, Waiting, with_status};
ghost use Rattle.k_model.specs.Step.{acted, called, is_enabled, killed, last_version, outcome_of, step, taken};
ghost use Rattle.std.specs.List.{AllByRecursion};
ghost use Rattle.std.specs.Prelude.{false, length, List, None, Ok, Some, true, ℕ, [], ◌+◌, ◌<◌, ◌∷◌, ◌≡◌, ◌≢◌, ◌≤◌};

/// A step is made exactly where the event is enabled, and gives what the event makes of the state.
pub fn a_step_is_made()
    ensures enabled { (k : KernelState) (e : Event) → is_enabled k e ≡ true → step k e ≡ Ok (outcome_of k e) }
    ensures only { (k : KernelState) (e : Event) (new : KernelState × _) → step k e ≡ Ok new → is_enabled k e ≡ true }
{}

/// The waiting lists of an opening state are sound, and every event keeps them so: each entry is that of a thread that
/// sends to the list's thread, none stands there twice, and nobody waits for a dead number.
pub fn lists_stay_sound()
    ensures opening { (versions : List ℕ) (threads : ℕ) → IsSound (opened versions threads) }
    ensures kept { (k : KernelState) (e : Event) → is_enabled k e ≡ true → IsSound k → IsSound (outcome_of k e).0 }
{}

/// The replies of an opening state are in order, and every event keeps them so: each is that to a call which was made, no
/// call has two, and a thread that waits has none yet to its last call.
pub fn replies_stay_in_order()
    ensures opening { (versions : List ℕ) (threads : ℕ) → IsAnswered (opened versions threads) }
    ensures kept { (k : KernelState) (e : Event) → is_enabled k e ≡ true → IsSound k → IsAnswered k → IsAnswered (outcome_of k e).0 }
{}

/// Each state that a legal history leaves has sound lists, in which every sender to a present thread stands, and its replies
/// in order.
pub fn reached_states_are_good()
    ensures sound { (versions : List ℕ) (threads : ℕ) (entries : List Entry) (k : KernelState) → IsReached versions threads entries k → IsSound k }
    ensures answered { (versions : List ℕ) (threads : ℕ) (entries : List Entry) (k : KernelState) → IsReached versions threads entries k → IsAnswered k }
    ensures listed { (versions : List ℕ) (threads : ℕ) (entries : List Entry) (k : KernelState) → IsReached versions threads entries k → IsListed k }
{}

/// An event adds two replies at most, of different threads, and each is the first to its thread's last call.
pub fn an_event_answers_last_calls()
    ensures { (k : KernelState) (e : Event) → is_enabled k e ≡ true → IsSound k → IsAnswered k → (lines : List ReplyLine) × AddsReplies k (outcome_of k e).0 lines }
{}

/// A reply that there is never changes, and an earlier call never gets another answer.
pub fn replies_never_change()
    ensures answered { (k : KernelState) (e : Event) → is_enabled k e ≡ true → IsSound k → IsAnswered k → (id : ThreadId) (serial : ℕ) (r : Reply) → reply_to k.replies id serial ≡ Some r → reply_to (outcome_of k e).0.replies id serial ≡ Some r }
    ensures earlier { (k : KernelState) (e : Event) → is_enabled k e ≡ true → IsSound k → IsAnswered k → (id : ThreadId) (serial : ℕ) → IsEarlierCall (outcome_of k e).0 id serial → reply_to (outcome_of k e).0.replies id serial ≡ reply_to k.replies id serial }
{}

/// No call has serial 0, so none has a reply.
pub fn serials_begin_at_one()
    ensures { (k : KernelState) (id : ThreadId) → IsAnswered k → reply_to k.replies id 0 ≡ None }
{}

/// Every event takes from what is still to come, where its thread is below its limit of calls; only a create adds, at most
/// the calls of the new thread. So a history without creates ends.
pub fn an_event_takes_effort()
    ensures { (limit : ℕ → ℕ) (k : KernelState) (e : Event) → (k.place e.who.number).serial < limit e.who.number → is_enabled k e ≡ true → IsSound k → effort limit (outcome_of k e).0 + 1 ≤ effort limit k + added limit (called k e.who e.serial) e.act }
{}

/// The threads from which an event may come that isn't a call are counted: a call adds one at most, and each other event takes
/// one.
pub fn waits_are_counted()
    ensures call { (k : KernelState) (who : ThreadId) (serial : ℕ) (p : Phase) → IsSound k → waits (acted k who serial (act.Call p)).0 ≤ waits k + 1 }
    ensures gone { (k : KernelState) (who : ThreadId) (serial : ℕ) → is_enabled k (record { who = who; serial = serial; act = act.Gone }) ≡ true → IsSound k → waits (acted k who serial act.Gone).0 + 1 ≤ waits k }
    ensures pick { (k : KernelState) (who : ThreadId) (serial : ℕ) → is_enabled k (record { who = who; serial = serial; act = act.Pick }) ≡ true → IsSound k → waits (acted k who serial act.Pick).0 + 1 ≤ waits k }
{}

/// Each number but the caller's, and but that of a new thread, has the thread that it had, with the calls that it had made; a
/// settled thread doesn't go on, and a dead number stays dead. The number of a new thread was dead, and its thread runs.
pub fn an_event_leaves_the_others()
    ensures left { (k : KernelState) (e : Event) (number : ℕ) → is_enabled k e ≡ true → IsSound k → number ≢ e.who.number → renewed_number (called k e.who e.serial) e.act ≢ Some number → Leaves k (outcome_of k e).0 number }
    ensures renewed { (k : KernelState) (e : Event) (number : ℕ) → is_enabled k e ≡ true → renewed_number (called k e.who e.serial) e.act ≡ Some number → IsRenewed k number (outcome_of k e).0 }
{}

/// A thread that waits for one that isn't there, and is freed, runs, has the reply Gone to its last call, and stands in no
/// waiting list.
pub fn the_freed_wait_nowhere()
    ensures runs { (k : KernelState) (who : ThreadId) (serial : ℕ) → is_enabled k (record { who = who; serial = serial; act = act.Gone }) ≡ true → ((acted k who serial act.Gone).0.place who.number).status ≡ status.Run }
    ensures told { (k : KernelState) (who : ThreadId) (serial : ℕ) → is_enabled k (record { who = who; serial = serial; act = act.Gone }) ≡ true → IsSound k → IsAnswered k → reply_to (acted k who serial act.Gone).0.replies who serial ≡ Some reply.Gone }
    ensures nowhere { (k : KernelState) (who : ThreadId) (serial : ℕ) → is_enabled k (record { who = who; serial = serial; act = act.Gone }) ≡ true → IsSound k → WaitsNowhere (acted k who serial act.Gone).0 who.number }
{}

/// A destroyed thread is not there any more, nobody waits in its list, and it stands in none.
pub fn the_destroyed_wait_nowhere()
    ensures absent { (k : KernelState) (victim : ThreadId) → is_present (killed k victim) victim ≡ false }
    ensures empty { (k : KernelState) (victim : ThreadId) → ((killed k victim).place victim.number).waiting ≡ [] }
    ensures nowhere { (k : KernelState) (victim : ThreadId) → is_present k victim ≡ true → IsSound k → WaitsNowhere (killed k victim) victim.number }
{}

/// A pick with nobody waiting receives from any; otherwise it takes the first entry of its list.
pub fn a_pick_takes_the_first()
    ensures waits { (k : KernelState) (who : ThreadId) (serial : ℕ) → (k.place who.number).waiting ≡ [] → acted k who serial act.Pick ≡ (with_status (with_status k who.number status.Run) who.number (status.Receiving None), outcome.Waits) }
    ensures takes { (k : KernelState) (who : ThreadId) (serial : ℕ) (w : Waiting) (ws : List Waiting) → (k.place who.number).waiting ≡ w ∷ ws → acted k who serial act.Pick ≡ (taken (with_status k who.number status.Run) who serial 0, outcome.Took w.0 w.1) }
{}

/// Who sends to a thread that is there stands in its list, in an opening state and after every event. So no waiting sender
/// is lost.
pub fn senders_stay_listed()
    ensures opening { (versions : List ℕ) (threads : ℕ) → IsListed (opened versions threads) }
    ensures kept { (k : KernelState) (e : Event) → is_enabled k e ≡ true → IsSound k → IsListed k → IsListed (outcome_of k e).0 }
{}

/// Versions stay in their range, 0 to 1,048,575 and from 1 for a thread, in an opening state of such versions and after
/// every event; and every reply is that of a thread which a number of the table has or had, and names such.
pub fn versions_stay_in_range()
    ensures opening { (versions : List ℕ) (threads : ℕ) → AllByRecursion (λ version. version ≤ last_version) versions → IsRanged (opened versions threads) }
    ensures kept { (k : KernelState) (e : Event) → is_enabled k e ≡ true → IsSound k → IsRanged k → IsRanged (outcome_of k e).0 }
{}
