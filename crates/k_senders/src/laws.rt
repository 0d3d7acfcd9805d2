// What entries say without their bits. The law is a function that does nothing, whose contract is the law.
ghost use Rattle.std.specs.Prelude.{◌==◌, ◌&&◌, ◌≡◌, ◌↔◌, ◌<◌, ◌^◌};
ghost use Rattle.k_ids.specs.declared.threads.Message.{Message};
ghost use Rattle.k_ids.specs.declared.threads.ThreadId.{ThreadId};
ghost use Rattle.k_senders.specs.declared.entries.SenderEntry.{SenderEntry};
ghost use Rattle.k_senders.specs.Entries.{IsEntry, entry_for, message_of, number_of, sender_of, who_of};

/// An entry and its sender with the message are one for one. An entry has the bits of a thread exactly where the thread is its
/// sender.
pub fn an_entry_is_a_sender_and_a_message()
    ensures number_small { (e : SenderEntry) → number_of e < 64 }
    ensures number { (who : ThreadId) (message : Message) → who.number < 64 → number_of (entry_for who message) ≡ who.number }
    ensures version_small { (e : SenderEntry) → (sender_of e).version < 2 ^ 20 }
    ensures version { (who : ThreadId) (message : Message) → who.number < 64 → who.version < 2 ^ 20 →
        (sender_of (entry_for who message)).version ≡ who.version }
    ensures sender { (who : ThreadId) (message : Message) → who.number < 64 → who.version < 2 ^ 20 →
        sender_of (entry_for who message) ≡ who }
    ensures small { (who : ThreadId) (message : Message) → who.number < 64 → who.version < 2 ^ 20 →
        IsEntry (entry_for who message) }
    ensures spelled { (e : SenderEntry) → IsEntry e → entry_for (sender_of e) (message_of e) ≡ e }
    ensures same { (e : SenderEntry) (id : ThreadId) → IsEntry e → id.number < 64 → id.version < 2 ^ 20 →
        (e.who ≡ who_of id) ↔ (sender_of e ≡ id) }
    ensures tested { (e : SenderEntry) (id : ThreadId) → IsEntry e → id.number < 64 → id.version < 2 ^ 20 →
        (e.who == who_of id) ≡ ((number_of e == id.number) && ((sender_of e).version == id.version)) }
    ensures message { (who : ThreadId) (message : Message) → message.low < 2 ^ 32 →
        message_of (entry_for who message) ≡ message }
{}
