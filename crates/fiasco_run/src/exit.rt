// How a call of the program ends.
ghost use Rattle.std.specs.Prelude.{◌≡◌, ◌≤◌, ◌++◌, ◌∷◌, length, codes, decimal};
ghost use Rattle.k_text.specs.Texts.{line_text};
ghost use Rattle.fiasco_run.specs.Exits.{exit_number, exit_text, refusal_words, why_word};
ghost use Rattle.fiasco_run.specs.Served.{IsPutText};

use itoa::Buffer;
use k_history::Verdict;
use k_outside::{Sink, put_all};
use k_reader::{ScriptFault, Why};
use k_text::Line;

/// The status of a call.
#[derive(Clone, Copy, Debug, PartialEq, Eq)]
pub enum Exit {
    /// The whole text was put.
    Done,
    /// The bytes are no script within the limits. The fault is never want of memory.
    Refused { fault: ScriptFault },
    /// The words are none of the call's forms.
    Usage,
    /// The source failed.
    ReadFault,
    /// The sink failed; a front of the text that was due was put.
    WriteFault,
    NoMemory,
    /// The history is not a legal, playing, finished one of the script. The verdict is never `Legal`.
    Illegal { verdict: Verdict },
}

impl Exit {
    /// The exit status of the program: 0 to 6.
    pub fn number(&self) -> u8
        ensures { result ≡ exit_number self.now }
    {
        match self {
            Exit::Done => 0,
            Exit::Refused { .. } => 1,
            Exit::Usage => 2,
            Exit::ReadFault => 3,
            Exit::WriteFault => 4,
            Exit::NoMemory => 5,
            Exit::Illegal { .. } => 6,
        }
    }

    /// Its text, with a line feed; empty where it has none of its own.
    pub(crate) fn line(&self) -> Line
        ensures { result ≡ exit_text self.now }
    {
        match self {
            Exit::Refused { fault } => refusal_line(*fault),
            Exit::Usage => line_of(b"usage: fiasco_run run, check, big N, carry M\n"),
            Exit::ReadFault => line_of(b"read fault\n"),
            Exit::NoMemory => line_of(b"no memory\n"),
            Exit::Illegal { verdict } => verdict.line(),
            Exit::Done | Exit::WriteFault => Line::new(),
        }
    }

    /// Puts its text.
    pub fn put<K: Sink>(&self, sink: &mut K) -> Exit
        ensures put { IsPutText result self.now (exit_text self.now) (K.held sink.old) (K.held sink.new) (K.faults sink.old) (K.faults sink.new) }
        ensures later { K.faults sink.old ≤ K.faults sink.new }
    {
        put_line(*self, &self.line(), sink)
    }
}

/// Puts a line, and answers this status, or that of a fault of the sink.
pub(crate) fn put_line<K: Sink>(exit: Exit, line: &Line, sink: &mut K) -> Exit
    ensures put { IsPutText result exit line.now (K.held sink.old) (K.held sink.new) (K.faults sink.old) (K.faults sink.new) }
    ensures later { K.faults sink.old ≤ K.faults sink.new }
{
    match put_all(sink, line.as_bytes()) {
        Ok(()) => exit,
        Err(_) => Exit::WriteFault,
    }
}

fn line_of(text: &[u8]) -> Line
    requires { length text.now ≤ 128 }
    ensures { result ≡ text.now }
{
    let mut line = Line::new();
    line.push(text);
    line
}

fn why_word(why: Why) -> &'static [u8]
    ensures word { result.now ≡ why_word why }
    ensures short { length result.now ≤ 7 }
{
    match why {
        Why::Version => b"version",
        Why::Word => b"word",
        Why::Order => b"order",
        Why::Nest => b"nest",
        Why::Number => b"number",
        Why::Unknown => b"unknown",
        Why::Table => b"table",
        Why::Many => b"many",
    }
}

fn refusal_line(fault: ScriptFault) -> Line
    ensures { result ≡ line_text (refusal_words fault) }
{
    let mut line = Line::new();
    match fault {
        ScriptFault::TooLarge => line.push(b"refused too large"),
        ScriptFault::Line { line: number, why } => {
            line.push(b"refused line");
            line.push_number(number);
            line.push_word(why_word(why));
        }
        ScriptFault::TooLong { steps } => {
            let mut buffer = Buffer::new();
            line.push(b"refused too long");
            line.push_word(buffer.format(steps).as_bytes());
        }
        ScriptFault::NoMemory => line.push(b"no memory"),
    }
    line.end();
    line
}
