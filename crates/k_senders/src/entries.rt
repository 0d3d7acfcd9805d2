// An entry of a queue.
ghost use Rattle.std.specs.Prelude.{◌≡◌, ◌<◌, ◌^◌};
ghost use Rattle.k_senders.specs.Entries.{thread_of, who_of};

use k_ids::{Message, ThreadId};
use k_links::Numbered;

/// One who waits to send.
///
/// Contracts see the sender and the message by the ghost functions `sender_of` and `message_of`, and no bits.
#[derive(Clone, Copy, Debug, PartialEq, Eq)]
pub struct SenderEntry {
    /// The sender: its version times 64 plus its number.
    pub who: u64,
    /// Its message: the high word times 2^32 plus the low word.
    pub message: u64,
}

impl SenderEntry {
    ghost use Rattle.k_senders.specs.Entries.{IsEntry, entry_for, message_of, number_of, sender_of};

    /// The entry of a sender, whose number is 0 to 63 and whose version is below 2^20, and of its message.
    #[tactic(auto, using(crate::proofs::EntrySpelled::entry_sender, crate::proofs::EntrySpelled::entry_message, crate::proofs::EntrySpelled::who_small), unfolding(crate::specs::Entries::entry_for))]
    pub fn of(who: ThreadId, message: Message) -> SenderEntry
        requires number { who.number < 64 }
        requires version { who.version < 2 ^ 20 }
        ensures entry { result ≡ entry_for who message }
        ensures sender { sender_of result ≡ who }
        ensures message { message_of result ≡ message }
        ensures spelled { IsEntry result }
    {
        SenderEntry {
            who: who_of(who),
            message: message.packed(),
        }
    }

    /// The sender: its number is 0 to 63, and its version below 2^20.
    #[tactic(auto, unfolding(crate::specs::Entries::sender_of))]
    pub fn sender(&self) -> ThreadId
        ensures sender { result ≡ sender_of self.now }
        ensures number { result.number < 64 }
        ensures version { result.version < 2 ^ 20 }
    {
        thread_of(self.who)
    }

    /// The message.
    #[tactic(auto, unfolding(crate::specs::Entries::message_of))]
    pub fn message(&self) -> Message
        ensures { result ≡ message_of self.now }
    {
        Message::of(self.message)
    }

    /// The sender's number: 0 to 63.
    pub fn number(&self) -> u8
        ensures number { result ≡ number_of self.now }
        ensures small { result < 64 }
    {
        self.sender().number
    }
}

impl Numbered for SenderEntry {
    ghost use Rattle.k_senders.specs.Entries.{number_of};

    ghost number = { number_of };

    fn number(&self) -> u8 {
        self.sender().number
    }
}

/// A thread in 64 bits, as an entry names it: its version times 64 plus its number.
#[tactic(auto, unfolding(crate::specs::Entries::who_of))]
pub fn who_of(id: ThreadId) -> u64
    ensures { result ≡ who_of id }
{
    64 * u64::from(id.version) + u64::from(id.number)
}

/// The thread that these bits name: the number in bits 0 to 5, the version in bits 6 to 25.
#[tactic(auto, unfolding(crate::specs::Entries::thread_of))]
pub fn thread_of(who: u64) -> ThreadId
    ensures thread { result ≡ thread_of who }
    ensures number { result.number < 64 }
    ensures version { result.version < 2 ^ 20 }
{
    ThreadId {
        number: (who % 64) as u8,
        version: (who / 64 % (1 << 20)) as u32,
    }
}
