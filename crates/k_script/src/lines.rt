// The first threads of a script, and its schedule.

/// A thread of the script: the first of its number.
#[derive(Clone, Copy, Debug, PartialEq, Eq)]
pub struct ThreadLine {
    /// 0 to 63, of which 63 is the highest.
    pub priority: u8,
    /// The number of its program.
    pub program: u8,
}

/// An event of the schedule.
#[derive(Clone, Copy, Debug, PartialEq, Eq)]
pub enum AtWhat {
    /// The thread of this number becomes ready; before, it isn't.
    Start(u8),
    /// The time slice of this carrier ends.
    Slice(u8),
}

/// An event of the schedule, and when it happens.
#[derive(Clone, Copy, Debug, PartialEq, Eq)]
pub struct AtLine {
    /// How many atomic steps were made before.
    pub step: u32,
    pub what: AtWhat,
}

/// An item of the schedule's turns: which carrier comes next. Carriers are numbered from 0 to 7.
#[derive(Clone, Copy, Debug, PartialEq, Eq)]
pub enum Item {
    /// So many steps of the carrier: 1 to 1,000,000.
    Steps { carrier: u8, count: u32 },
    /// The carrier puts down what it has in hand.
    Park { carrier: u8 },
}
