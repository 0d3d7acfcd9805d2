// The laws of sections run alone. Each is a function that does nothing, whose contract is the law.
ghost use Rattle.k_alone.specs.Alone.{Makes, MakesNothing, begun, current};
ghost use Rattle.k_shown.specs.Rows.{call_of, pick_of};
ghost use Rattle.k_alone.specs.CreateAlone.{create_kind};
ghost use Rattle.k_alone.specs.DestroyAlone.{IsDestroyCall, destroy_kind};
ghost use Rattle.k_shown.specs.Memory.{Memory, Shows};
ghost use Rattle.k_alone.specs.ReceiveAlone.{IsReceiveCall, pick_call, receive_kind};
ghost use Rattle.k_alone.specs.SendAlone.{Delivers, IsSendCall, send_kind};
ghost use Rattle.k_shown.specs.Sound.{IsCaller, IsDelivered, IsPicker, IsSoundMemory};
ghost use Rattle.k_ids.specs.declared.calls.Phase.TheVariants as phase;
ghost use Rattle.k_ids.specs.declared.state_word.StateWord.{StateWord};
ghost use Rattle.k_ids.specs.declared.threads.ThreadId.{ThreadId};
ghost use Rattle.k_ids.specs.StateWords.{IsPartner, state_bits, state_word_of};
ghost use Rattle.k_ipc.specs.declared.send.SendCall.{SendCall};
ghost use Rattle.k_ipc.specs.declared.receive.ReceiveCall.{ReceiveCall};
ghost use Rattle.k_ipc.specs.ReceiveTable.{receive_of};
ghost use Rattle.k_ipc.specs.SendTable.{phase_by, send_of};
ghost use Rattle.k_ipc.specs.Words.{IsPickingOf};
ghost use Rattle.k_locks.specs.Shown.{is_present_in, shows};
ghost use Rattle.k_locks.specs.Threads.{IsRunOf};
ghost use Rattle.k_model.specs.State.{KernelState, same_id, takes_from};
ghost use Rattle.k_threads.specs.CreateTable.{create_of};
ghost use Rattle.k_threads.specs.DestroyTable.{destroy_of};
ghost use Rattle.k_threads.specs.declared.create.CreateCall.{CreateCall};
ghost use Rattle.k_threads.specs.declared.destroy.DestroyCall.{DestroyCall};
ghost use Rattle.std.specs.Prelude.{List, false, true, ℕ, ◌+◌, ◌<◌, ◌≡◌, ◌⊎◌};

/// A caller's state word is one with which its section may be begun, and so is that of one who picks.
pub fn a_caller_may_begin_its_section()
    ensures word { (m : Memory) (me : ThreadId) (own : StateWord) → IsSoundMemory m → IsCaller m me own ⊎ IsPicker m me own → state_word_of (state_bits own) ≡ own }
    ensures runs { (m : Memory) (me : ThreadId) (own : StateWord) → IsSoundMemory m → IsCaller m me own → IsRunOf me (state_bits own) }
    ensures picks { (m : Memory) (me : ThreadId) (own : StateWord) → IsSoundMemory m → IsPicker m me own → IsPickingOf me (state_bits own) }
{}

/// A send, a call or a reply alone makes its event: the message passes, the caller waits, or the send is refused.
pub fn a_send_alone_makes_its_event()
    ensures { (c : SendCall) (m : Memory) (k : KernelState) (own : StateWord) → Shows m k → IsSoundMemory m → IsCaller m c.caller own → IsSendCall c → Makes (send_kind ((k.place c.caller.number).serial + 1)) (begun m (send_of c own)) k (call_of k c.caller (phase_by c c.manner)) }
{}

/// A message that passes is in the receiver's mail word, the receiver runs with a word that names the sender, and the section
/// ends as such a send does.
pub fn a_passed_message_is_delivered()
    ensures { (c : SendCall) (serial : ℕ) (m : Memory) (own : StateWord) → IsSoundMemory m → IsCaller m c.caller own → IsSendCall c → same_id c.to c.caller ≡ false → is_present_in (m.word c.to.number) c.to ≡ true → takes_from (shows (m.word c.to.number).state) c.caller c.zero ≡ true → Delivers c (send_kind serial) (begun m (send_of c own)) }
{}

/// A receive alone makes its event: a waiting message is taken, the caller waits, or the receive is refused. Where the one
/// that it waits for isn't there, it is freed at once by a gone event.
pub fn a_receive_alone_makes_its_event()
    ensures { (c : ReceiveCall) (m : Memory) (k : KernelState) (own : StateWord) → Shows m k → IsSoundMemory m → IsCaller m c.caller own → IsReceiveCall c → Makes (receive_kind ((k.place c.caller.number).serial + 1)) (begun m (receive_of c own)) k (call_of k c.caller (phase.Receive c.from c.zero)) }
{}

/// A pick alone makes its event: the first waiting message is taken, or the caller waits for any.
pub fn a_pick_alone_makes_its_event()
    ensures { (me : ThreadId) (m : Memory) (k : KernelState) (own : StateWord) → Shows m k → IsSoundMemory m → IsPicker m me own → IsPartner me → Makes (receive_kind (k.place me.number).serial) (begun m (receive_of (pick_call me) own)) k (pick_of k me) }
{}

/// A pick makes no event where a message was delivered to its caller since the reply: it leaves all as it is.
pub fn a_pick_of_a_delivered_caller_makes_nothing()
    ensures { (me : ThreadId) (serial : ℕ) (m : Memory) (own : StateWord) → IsSoundMemory m → IsDelivered m me → MakesNothing (receive_kind serial) (begun m (receive_of (pick_call me) own)) }
{}

/// A create alone makes its event: the lowest free number has a new thread, or there is none.
pub fn a_create_alone_makes_its_event()
    ensures { (c : CreateCall) (m : Memory) (k : KernelState) (own : StateWord) → Shows m k → IsSoundMemory m → IsCaller m c.caller own → c.priority < 64 → Makes (create_kind (current k c.caller)) (begun m (create_of c own)) k (call_of k c.caller (phase.Create c.program c.priority)) }
{}

/// A destroy alone makes its event: the victim is dead, or it isn't there. The gone events of the threads that waited for the
/// victim follow at once.
pub fn a_destroy_alone_makes_its_event()
    ensures { (c : DestroyCall) (m : Memory) (k : KernelState) (own : StateWord) → Shows m k → IsSoundMemory m → IsCaller m c.caller own → IsDestroyCall m c → Makes (destroy_kind (current k c.caller)) (begun m (destroy_of c own)) k (call_of k c.caller (phase.Destroy c.who)) }
{}
