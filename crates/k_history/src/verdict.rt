// What a check says.
ghost use Rattle.std.specs.Prelude.{◌≡◌};
ghost use Rattle.k_history.specs.declared.verdict.Verdict.TheVariants as verdict;
ghost use Rattle.k_history.specs.Verdicts.{verdict_text};

use k_ids::{Found, Outcome, ThreadId};
use k_text::Line;

/// What a check says of a history. Reasons stand in the order in which they are tried at a line; the first line at fault is
/// judged alone.
#[derive(Clone, Copy, Debug, PartialEq, Eq)]
pub enum Verdict {
    /// It is a legal, playing, finished history, of so many events.
    Legal {
        events: u32,
    },
    /// This line, from 1, is no line of a history, or names a thread number that isn't in the table.
    Unreadable {
        line: u32,
    },
    /// This event, from 0, may not be made when it comes. This is what its thread's number shows, and the last serial of the
    /// thread shown, 0 where it has made no call.
    Illegal {
        index: u32,
        found: Found,
        serial: u32,
    },
    /// This event, from 0, is a call that its thread's program doesn't give then.
    Strange {
        index: u32,
    },
    /// This event, from 0, has another outcome: this one.
    Differs {
        index: u32,
        outcome: Outcome,
    },
    /// More is to come behind the last line, and of this thread first: that of the lowest number from which an event is to
    /// come.
    Unfinished {
        who: ThreadId,
    },
}

impl Verdict {
    /// Its line, with a line feed: `legal E`, `unreadable L`, `illegal I found FOUND serial S`, `strange I`,
    /// `differs I OUTCOME` or `unfinished ID`.
    pub fn line(&self) -> Line
        ensures { result ≡ verdict_text self.now }
    {
        let mut line = Line::new();
        match *self {
            Verdict::Legal { events } => {
                line.push(b"legal");
                line.push_number(events);
            }
            Verdict::Unreadable { line: number } => {
                line.push(b"unreadable");
                line.push_number(number);
            }
            Verdict::Illegal {
                index,
                found,
                serial,
            } => return illegal_line(index, found, serial),
            Verdict::Strange { index } => {
                line.push(b"strange");
                line.push_number(index);
            }
            Verdict::Differs { index, outcome } => {
                line.push(b"differs");
                line.push_number(index);
                line.push_outcome(outcome);
            }
            Verdict::Unfinished { who } => {
                line.push(b"unfinished");
                line.push_id(who);
            }
        }
        line.end();
        line
    }
}

fn illegal_line(index: u32, found: Found, serial: u32) -> Line
    ensures { result ≡ verdict_text (verdict.Illegal index found serial) }
{
    let mut line = Line::new();
    line.push(b"illegal");
    line.push_number(index);
    line.push_word(b"found");
    line.push_found(found);
    line.push_word(b"serial");
    line.push_number(serial);
    line.end();
    line
}
