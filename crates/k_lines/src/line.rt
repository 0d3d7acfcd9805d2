// What a line says.
use crate::numeral::Numeral;
use k_script::Name;

/// A thread that an operation names.
#[derive(Clone, Copy, Debug, PartialEq, Eq)]
pub enum WhoWord {
    /// `#T`
    Number(Numeral),
    /// `last`
    Last,
    /// `made`
    Made,
}

/// A word of a message.
#[derive(Clone, Copy, Debug, PartialEq, Eq)]
pub enum ValueWord {
    Number(Numeral),
    /// `got0`
    Got0,
    /// `got1`
    Got1,
}

/// An item of a `turns` line.
#[derive(Clone, Copy, Debug, PartialEq, Eq)]
pub enum ItemWord {
    /// `C*COUNT`
    Steps { carrier: Numeral, count: Numeral },
    /// `C!`
    Park { carrier: Numeral },
}

/// An operation of a program. `zero` says that the timeout is zero.
#[derive(Drop)]
pub enum OperationLine {
    /// `send WHO A B`
    Send {
        to: WhoWord,
        low: ValueWord,
        high: ValueWord,
        zero: bool,
    },
    /// `receive WHO`
    Receive {
        from: WhoWord,
        zero: bool,
    },
    /// `wait`
    Wait {
        zero: bool,
    },
    /// `call WHO A B`
    Call {
        to: WhoWord,
        low: ValueWord,
        high: ValueWord,
        zero: bool,
    },
    /// `reply A B`
    Reply {
        low: ValueWord,
        high: ValueWord,
        zero: bool,
    },
    /// `create NAME PRIO`
    Create {
        program: Name,
        priority: Numeral,
    },
    /// `destroy WHO`
    Destroy {
        who: WhoWord,
    },
    /// `work N`
    Work {
        count: Numeral,
    },
    /// `repeat N`
    Repeat {
        count: Numeral,
    },
    /// `again`
    Again,
}

/// A line that has words, other than `turns`.
#[derive(Drop)]
pub enum Line {
    /// `kernel V`
    Kernel(Numeral),
    /// `table N`
    Table(Numeral),
    /// `carriers M`
    Carriers(Numeral),
    /// `show steps`
    ShowSteps,
    /// `aged T V`
    Aged { number: Numeral, version: Numeral },
    /// `program NAME`
    Program(Name),
    /// `end`
    End,
    /// `thread PRIO NAME`
    Thread { priority: Numeral, program: Name },
    /// `at K start T`
    Start { step: Numeral, number: Numeral },
    /// `at K slice C`
    Slice { step: Numeral, carrier: Numeral },
    Operation(OperationLine),
}
