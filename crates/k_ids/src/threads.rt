// Threads, their messages, and what a thread number shows.
ghost use Rattle.std.specs.Prelude.{◌≡◌};

/// A thread: its number in the table, and which thread of that number it is.
///
/// Each creation on a number raises its version, so the id of a thread that was destroyed never names a later thread of the
/// same number.
#[derive(Clone, Copy, Debug, PartialEq, Eq)]
pub struct ThreadId {
    /// The place in the table: 0 to 63.
    pub number: u8,
    /// 1 to 1,048,575 for a thread; 0 where a number has had none yet.
    pub version: u32,
}

/// A short message: two 32-bit words, which travel in registers (*L4 Reference Manual 2.0*, short IPC).
#[derive(Clone, Copy, Debug, PartialEq, Eq)]
pub struct Message {
    pub low: u32,
    pub high: u32,
}

impl Message {
    ghost use Rattle.k_ids.specs.Messages.{message_bits, message_of_bits};

    /// The message in 64 bits, as a thread's mail word has it: the low word in the lower half.
    pub fn packed(&self) -> u64
        ensures bits { result ≡ message_bits self.now }
        ensures back { message_of_bits result ≡ self.now }
    {
        u64::from(self.low) + (u64::from(self.high) << 32)
    }

    /// The message that these bits are: every number of 64 bits is one.
    pub fn of(bits: u64) -> Message
        ensures message { result ≡ message_of_bits bits }
        ensures back { message_bits result ≡ bits }
    {
        Message {
            low: (bits % (1 << 32)) as u32,
            high: (bits >> 32) as u32,
        }
    }
}

/// What a thread is doing.
#[derive(Clone, Copy, Debug, PartialEq, Eq)]
pub enum Status {
    /// The number has no thread: none yet, or its last one was destroyed.
    Dead,
    /// It runs, and may make a call.
    Run,
    /// It waits until this thread takes its message.
    Sending { to: ThreadId },
    /// It waits for a message from this thread, or from any where none is named.
    Receiving { from: Option<ThreadId> },
    /// It has answered a caller by a reply, and hasn't looked yet at who waits to send to it.
    Picking,
    /// It has reached the end of its program. It is still there until it is destroyed, and receives nothing more.
    Ended,
}

/// What a number shows: the thread that has it, or had it last, and its status.
#[derive(Clone, Copy, Debug, PartialEq, Eq)]
pub struct Found {
    pub id: ThreadId,
    pub status: Status,
}
