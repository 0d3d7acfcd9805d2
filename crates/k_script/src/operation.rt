// The operations of a program.

/// A thread that an operation names.
#[derive(Clone, Copy, Debug, PartialEq, Eq)]
pub enum Who {
    /// The first thread of this number: 0 to 63, below the size of the table.
    Number(u8),
    /// The sender of the message last got.
    Last,
    /// The thread last made.
    Made,
}

/// A word of a message.
#[derive(Clone, Copy, Debug, PartialEq, Eq)]
pub enum Value {
    Number(u32),
    /// The low word of the message last got.
    Got0,
    /// The high word of the message last got.
    Got1,
}

/// An operation: the IPC calls of L4 (Liedtke, *L4 Reference Manual 2.0*), the two thread calls, and what makes a program
/// longer: work and repeats.
///
/// `zero` says that the timeout is zero; otherwise it is never. Of a call and of a reply it is the timeout of the send.
#[derive(Clone, Copy, Debug, PartialEq, Eq)]
pub enum Operation {
    Send {
        to: Who,
        low: Value,
        high: Value,
        zero: bool,
    },
    /// A receive from this thread, or from any where none is named.
    Receive {
        from: Option<Who>,
        zero: bool,
    },
    /// A send, and then a receive from the same thread.
    Call {
        to: Who,
        low: Value,
        high: Value,
        zero: bool,
    },
    /// A send to the sender of the message last got, and, if it is taken, an open receive.
    Reply {
        low: Value,
        high: Value,
        zero: bool,
    },
    /// A new thread.
    Create {
        /// 0 to 254.
        program: u8,
        /// 0 to 63, of which 63 is the highest.
        priority: u8,
    },
    Destroy {
        who: Who,
    },
    /// So many loads of the thread's own state word, and no call.
    Work {
        /// 1 to 4,294,967,295.
        count: u32,
    },
    /// What stands between this and its `Again` is done so many times.
    Repeat {
        /// 1 to 65,535.
        count: u16,
    },
    /// The end of the innermost repeat that is open.
    Again,
}
