// The laws of what a memory shows. Each is a function that does nothing, whose contract is the law. In each `m` is the memory
// before the event, `m'` the one after it, and `k` the state that `m` shows.
ghost use Rattle.k_shown.specs.Boot.{IsOpening, boot, boot_word};
ghost use Rattle.k_shown.specs.Memory.{Memory, Shows, joined_of, table, waiting, with_queue, with_word};
ghost use Rattle.k_shown.specs.Rows.{Alike, Answers, Gives, IsFirst, IsIn, IsUnwanted, IsWordOf, Sending, call_of, called_by, gone_of, next_serial, pick_of, sending_of, sent_line, taking, told, waiting_without};
ghost use Rattle.k_shown.specs.Sound.{IsCaller, IsSoundMemory, IsSoundNumbers};
ghost use Rattle.k_ids.specs.declared.calls.Outcome.{Outcome};
ghost use Rattle.k_ids.specs.declared.calls.Outcome.TheVariants as outcome;
ghost use Rattle.k_ids.specs.declared.calls.Phase.{Phase};
ghost use Rattle.k_ids.specs.declared.calls.Phase.TheVariants as phase;
ghost use Rattle.k_ids.specs.declared.calls.Reply.TheVariants as reply;
ghost use Rattle.k_ids.specs.declared.histories.Event.{Event};
ghost use Rattle.k_ids.specs.declared.histories.ReplyLine.{ReplyLine};
ghost use Rattle.k_ids.specs.declared.state_word.StateWord.{StateWord};
ghost use Rattle.k_ids.specs.declared.threads.Status.{Status};
ghost use Rattle.k_ids.specs.declared.threads.Status.TheVariants as status;
ghost use Rattle.k_ids.specs.declared.threads.ThreadId.{ThreadId};
ghost use Rattle.k_locks.specs.Numbers.{alive, lowest_free, version_at, worn};
ghost use Rattle.k_locks.specs.Shown.{found_in, is_present_in, shows};
ghost use Rattle.k_model.specs.History.{opened};
ghost use Rattle.k_model.specs.Maps.{upd};
ghost use Rattle.k_model.specs.State.{KernelState, Waiting, answered, same_id, takes_from, waits_for_absent, with_status};
ghost use Rattle.k_model.specs.Step.{is_own, killed, passed, queued, renewed, status_after, step, taken};
ghost use Rattle.k_senders.specs.Queue.{Queue};
ghost use Rattle.std.specs.Prelude.{Bool, List, None, Ok, Option, Some, [], false, length, true, ℕ, ◌+◌, ◌++◌, ◌<◌, ◌∷◌, ◌≡◌};

/// The memory in which a kernel begins is sound, and shows the opening state; each of its threads runs, and may make a call.
pub fn a_boot_memory_is_sound()
    ensures sound { (versions : List ℕ) (threads : ℕ) (priority : ℕ → ℕ) → IsOpening versions threads priority → IsSoundMemory (boot versions threads priority) }
    ensures shows { (versions : List ℕ) (threads : ℕ) (priority : ℕ → ℕ) → IsOpening versions threads priority → Shows (boot versions threads priority) (opened versions threads) }
    ensures runs { (versions : List ℕ) (threads : ℕ) (priority : ℕ → ℕ) → IsOpening versions threads priority → (n : ℕ) → n < threads → IsCaller (boot versions threads priority) (record { number = n; version = 1 }) (boot_word versions threads priority n) }
{}

/// What is shown depends on versions, statuses, joined sends and waiting senders alone.
pub fn alike_memories_show_the_same()
    ensures { (m m' : Memory) (k : KernelState) → Shows m k → Alike m m' → Shows m' k }
{}

/// What a row gives is a step of the specification: the state that it names is the one that the event leaves.
pub fn a_row_is_a_step()
    ensures { (k : KernelState) (event : Event) (o : Outcome) (k' : KernelState) (lines : List ReplyLine) (m' : Memory) → Gives k event o k' lines m' → step k event ≡ Ok (k', o) }
{}

/// A send, a call or a reply: it is refused, or its message passes and the receiver runs, or its caller waits, last in the
/// receiver's queue.
pub fn a_send_is_shown()
    ensures own { (m m' : Memory) (k : KernelState) (me : ThreadId) (p : Phase) (s : Sending) → Shows m k → IsIn m me status.Run → sending_of p ≡ Some s → same_id s.to me ≡ true → Alike m m' → Answers k me p outcome.Own reply.Own m' }
    ensures absent { (m m' : Memory) (k : KernelState) (me : ThreadId) (p : Phase) (s : Sending) → Shows m k → IsIn m me status.Run → sending_of p ≡ Some s → same_id s.to me ≡ false → is_present_in (m.word s.to.number) s.to ≡ false → Alike m m' → Answers k me p (outcome.Absent (found_in s.to.number (m.word s.to.number))) (reply.Absent (found_in s.to.number (m.word s.to.number))) m' }
    ensures busy { (m m' : Memory) (k : KernelState) (me : ThreadId) (p : Phase) (s : Sending) → Shows m k → IsIn m me status.Run → sending_of p ≡ Some s → same_id s.to me ≡ false → is_present_in (m.word s.to.number) s.to ≡ true → takes_from (shows (m.word s.to.number).state) me s.zero ≡ false → s.zero ≡ true → Alike m m' → Answers k me p (outcome.Busy (found_in s.to.number (m.word s.to.number))) (reply.Busy (found_in s.to.number (m.word s.to.number))) m' }
    ensures passes { (m m' : Memory) (k : KernelState) (me : ThreadId) (p : Phase) (s : Sending) → Shows m k → IsIn m me status.Run → sending_of p ≡ Some s → same_id s.to me ≡ false → is_present_in (m.word s.to.number) s.to ≡ true → takes_from (shows (m.word s.to.number).state) me s.zero ≡ true → (w v : StateWord) → IsWordOf me s.after false w → IsWordOf s.to status.Run false v → Alike (with_word (with_word m s.to.number v) me.number w) m' → Gives k (call_of k me p) outcome.Passed (passed (called_by k me) me (next_serial k me) s.to s.message s.after) (told s.to (k.place s.to.number).serial (reply.Got me s.message) ∷ sent_line me (next_serial k me) s.after) m' }
    ensures waits { (m m' : Memory) (k : KernelState) (me : ThreadId) (p : Phase) (s : Sending) → Shows m k → IsIn m me status.Run → sending_of p ≡ Some s → same_id s.to me ≡ false → is_present_in (m.word s.to.number) s.to ≡ true → takes_from (shows (m.word s.to.number).state) me s.zero ≡ false → s.zero ≡ false → (w : StateWord) (q : Queue) → IsWordOf me (status.Sending s.to) s.joined w → waiting q ≡ waiting (m.queue s.to.number) ++ (me, s.message) ∷ [] → Alike (with_queue (with_word m me.number w) s.to.number q) m' → Gives k (call_of k me p) outcome.Waits (queued (called_by k me) me s.to s.message s.joined) [] m' }
{}

/// A receive: it is refused, or the first message that it wants is taken and the sender goes on, or its caller waits.
pub fn a_receive_is_shown()
    ensures own { (m m' : Memory) (k : KernelState) (me : ThreadId) (from : Option ThreadId) (zero : Bool) → Shows m k → IsIn m me status.Run → is_own from me ≡ true → Alike m m' → Answers k me (phase.Receive from zero) outcome.Own reply.Own m' }
    ensures nobody { (m m' : Memory) (k : KernelState) (me : ThreadId) (from : Option ThreadId) (zero : Bool) → Shows m k → IsIn m me status.Run → is_own from me ≡ false → IsUnwanted from (waiting (m.queue me.number)) → zero ≡ true → Alike m m' → Answers k me (phase.Receive from zero) outcome.Nobody reply.Nobody m' }
    ensures waits { (m m' : Memory) (k : KernelState) (me : ThreadId) (from : Option ThreadId) (zero : Bool) → Shows m k → IsIn m me status.Run → is_own from me ≡ false → IsUnwanted from (waiting (m.queue me.number)) → zero ≡ false → (w : StateWord) → IsWordOf me (status.Receiving from) false w → Alike (with_word m me.number w) m' → Gives k (call_of k me (phase.Receive from zero)) outcome.Waits (with_status (called_by k me) me.number (status.Receiving from)) [] m' }
    ensures takes { (m m' : Memory) (k : KernelState) (me : ThreadId) (from : Option ThreadId) (zero : Bool) → Shows m k → IsIn m me status.Run → (w : Waiting) (before after : List Waiting) → IsFirst from (waiting (m.queue me.number)) w before after → IsIn m w.0 (status.Sending me) → is_own from me ≡ false → (v : StateWord) (q : Queue) → IsWordOf w.0 (status_after (joined_of (m.word w.0.number).state) me) false v → waiting q ≡ before ++ after → Alike (taking m me w.0 v q) m' → Gives k (call_of k me (phase.Receive from zero)) (outcome.Took w.0 w.1) (taken (called_by k me) me (next_serial k me) (length before)) (told me (next_serial k me) (reply.Got w.0 w.1) ∷ sent_line w.0 (k.place w.0.number).serial (status_after (joined_of (m.word w.0.number).state) me)) m' }
{}

/// A thread that waits for one that isn't there runs, and its call has the reply that tells so.
pub fn a_gone_event_is_shown()
    ensures { (m m' : Memory) (k : KernelState) (me : ThreadId) (s : Status) (w : StateWord) → Shows m k → IsIn m me s → waits_for_absent (table m) s ≡ true → IsWordOf me status.Run false w → Alike (with_word m me.number w) m' → Gives k (gone_of k me) outcome.Freed (answered (with_status k me.number status.Run) me (k.place me.number).serial reply.Gone) (told me (k.place me.number).serial reply.Gone ∷ []) m' }
{}

/// A pick: the first waiting message is taken, the caller runs and the sender goes on; or the caller waits for any.
pub fn a_pick_is_shown()
    ensures takes { (m m' : Memory) (k : KernelState) (me : ThreadId) → Shows m k → IsIn m me status.Picking → (u : StateWord) → IsWordOf me status.Run false u → (w : Waiting) (after : List Waiting) → waiting (m.queue me.number) ≡ w ∷ after → IsIn m w.0 (status.Sending me) → (v : StateWord) (q : Queue) → IsWordOf w.0 (status_after (joined_of (m.word w.0.number).state) me) false v → waiting q ≡ after → Alike (taking (with_word m me.number u) me w.0 v q) m' → Gives k (pick_of k me) (outcome.Took w.0 w.1) (taken (with_status k me.number status.Run) me (k.place me.number).serial 0) (told me (k.place me.number).serial (reply.Got w.0 w.1) ∷ sent_line w.0 (k.place w.0.number).serial (status_after (joined_of (m.word w.0.number).state) me)) m' }
    ensures waits { (m m' : Memory) (k : KernelState) (me : ThreadId) → Shows m k → IsIn m me status.Picking → waiting (m.queue me.number) ≡ [] → (w : StateWord) → IsWordOf me (status.Receiving None) false w → Alike (with_word m me.number w) m' → Gives k (pick_of k me) outcome.Waits (with_status (with_status k me.number status.Run) me.number (status.Receiving None)) [] m' }
{}

/// A create: the lowest free number has a new thread that runs, or there is none.
pub fn a_create_is_shown()
    ensures made { (m m' : Memory) (k : KernelState) (me : ThreadId) → Shows m k → IsIn m me status.Run → (program priority n : ℕ) → IsSoundNumbers m → lowest_free m.numbers ≡ Some n → (id : ThreadId) → id ≡ record { number = n; version = version_at m.numbers n + 1 } → (w : StateWord) → IsWordOf id status.Run false w → Alike (with_word m n w) m' → Gives k (call_of k me (phase.Create program priority)) (outcome.Made id) (answered (renewed (called_by k me) n) me (next_serial k me) (reply.Made id)) (told me (next_serial k me) (reply.Made id) ∷ []) m' }
    ensures full { (m m' : Memory) (k : KernelState) (me : ThreadId) → Shows m k → IsIn m me status.Run → (program priority : ℕ) → IsSoundNumbers m → lowest_free m.numbers ≡ None → Alike m m' → Answers k me (phase.Create program priority) (outcome.Full (alive m.numbers) (worn m.numbers)) (reply.Full (alive m.numbers) (worn m.numbers)) m' }
{}

/// A destroy: the victim is dead, nobody waits to send to it, and it waits in no queue; or it isn't there.
pub fn a_destroy_is_shown()
    ensures own { (m m' : Memory) (k : KernelState) (me : ThreadId) → Shows m k → IsIn m me status.Run → (who : ThreadId) → same_id who me ≡ true → Alike m m' → Answers k me (phase.Destroy who) outcome.Own reply.Own m' }
    ensures absent { (m m' : Memory) (k : KernelState) (me : ThreadId) → Shows m k → IsIn m me status.Run → (who : ThreadId) → same_id who me ≡ false → is_present_in (m.word who.number) who ≡ false → Alike m m' → Answers k me (phase.Destroy who) (outcome.Absent (found_in who.number (m.word who.number))) (reply.Absent (found_in who.number (m.word who.number))) m' }
    ensures killed { (m m' : Memory) (k : KernelState) (me : ThreadId) → Shows m k → IsIn m me status.Run → (who : ThreadId) → same_id who me ≡ false → is_present_in (m.word who.number) who ≡ true → (w : StateWord) (qs : ℕ → Queue) → IsWordOf who status.Dead false w → ((n : ℕ) → waiting (qs n) ≡ waiting_without m who n) → Alike (record m { word = upd m.word who.number w; queue = qs }) m' → Gives k (call_of k me (phase.Destroy who)) outcome.Killed (answered (killed (called_by k me) who) me (next_serial k me) reply.Killed) (told me (next_serial k me) reply.Killed ∷ []) m' }
{}

/// The end of a thread's program.
pub fn an_end_is_shown()
    ensures { (m m' : Memory) (k : KernelState) (me : ThreadId) → Shows m k → IsIn m me status.Run → (w : StateWord) → IsWordOf me status.Ended false w → Alike (with_word m me.number w) m' → Gives k (call_of k me phase.End) outcome.Ended (with_status (called_by k me) me.number status.Ended) [] m' }
{}
