// The calls of a thread, and how they are answered.
use crate::threads::{Found, Message, ThreadId};

/// One phase of an operation. A call of a thread is a phase, and takes the thread's next serial number.
///
/// Reply and wait is two phases, a send and an open receive, or, in version 2 of the script, one `Reply`.
#[derive(Clone, Copy, Debug, PartialEq, Eq)]
pub enum Phase {
    /// Send a message to a thread.
    Send {
        to: ThreadId,
        message: Message,
        /// The timeout is zero: the send doesn't wait. Otherwise it waits without limit.
        zero: bool,
        /// The operation is a call: once its message has passed, the sender waits for the partner's answer.
        joined: bool,
    },
    /// Receive a message from this thread, or from any where none is named.
    Receive {
        from: Option<ThreadId>,
        /// The timeout is zero: the receive doesn't wait.
        zero: bool,
    },
    /// Create a thread on the lowest free number.
    Create {
        /// The number of a program: 0 to 254.
        program: u8,
        /// 0 to 63, of which 63 is the highest.
        priority: u8,
    },
    /// Destroy a thread.
    Destroy {
        who: ThreadId,
    },
    /// Send a message to a thread, and then pick the next sender: the first that waits, or else whoever comes.
    Reply {
        to: ThreadId,
        message: Message,
        /// The timeout of the send is zero.
        zero: bool,
    },
    /// The program is over.
    End,
}

/// What a thread learns of a call. Each call has one reply at most.
#[derive(Clone, Copy, Debug, PartialEq, Eq)]
pub enum Reply {
    /// Its message was taken.
    Sent,
    /// It got this message.
    Got { from: ThreadId, message: Message },
    /// It created this thread.
    Made { id: ThreadId },
    /// It destroyed its victim.
    Killed,
    /// There is no such thread; this is what its number shows.
    Absent { found: Found },
    /// The partner doesn't receive, and the timeout is zero; this is what the partner's number shows.
    Busy { found: Found },
    /// Nobody waits to send, and the timeout is zero.
    Nobody,
    /// It named itself.
    Own,
    /// No number is free: so many have a thread, and so many have had their last version. Together at most 64.
    Full { alive: u8, worn: u8 },
    /// The thread that it waited for is not there any more.
    Gone,
}

/// What happens in an event: a call is made, or a thread goes on with its last one.
#[derive(Clone, Copy, Debug, PartialEq, Eq)]
pub enum Act {
    /// The thread makes a call.
    Call { phase: Phase },
    /// The thread waits for one that isn't there, and is freed.
    Gone,
    /// The thread has replied, and takes the first that waits to send to it, or waits itself.
    Pick,
}

/// What comes of an event.
#[derive(Clone, Copy, Debug, PartialEq, Eq)]
pub enum Outcome {
    /// The partner got the message at once.
    Passed,
    /// The caller waits.
    Waits,
    /// The caller took this message of a waiting sender.
    Took { from: ThreadId, message: Message },
    /// This thread was created.
    Made { id: ThreadId },
    /// The victim was destroyed.
    Killed,
    /// There is no such thread; this is what its number shows.
    Absent { found: Found },
    /// The partner doesn't receive, and the timeout is zero; this is what the partner's number shows.
    Busy { found: Found },
    /// Nobody waits to send, and the timeout is zero.
    Nobody,
    /// The caller named itself.
    Own,
    /// No number is free: so many have a thread, and so many have had their last version. Together at most 64.
    Full { alive: u8, worn: u8 },
    /// The caller's program is over.
    Ended,
    /// The thread was freed by a gone event.
    Freed,
}
