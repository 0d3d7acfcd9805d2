// The last line of a report.
ghost use Rattle.std.specs.Prelude.{◌≡◌, List, ℕ};
ghost use Rattle.std.specs.List.{count_by};
ghost use Rattle.k_calls.specs.Calls.{is_helped};
ghost use Rattle.k_report.specs.Totals.{totals_text};

use crate::words::push_large;
use k_calls::is_helped;
use k_carrier::StepMark;
use k_text::{Line, Printed};

/// How much a run did.
#[derive(Clone, Copy)]
pub(crate) struct Totals {
    pub events: u64,
    pub steps: u64,
    /// The steps that were made for another one than their owner.
    pub helped: u64,
}

/// `total events E steps S helped H`.
impl Printed for Totals {
    ghost text = { totals_text };

    fn line(&self) -> Line {
        let mut line = Line::new();
        line.push(b"total");
        line.push_word(b"events");
        push_large(&mut line, self.events);
        line.push_word(b"steps");
        push_large(&mut line, self.steps);
        line.push_word(b"helped");
        push_large(&mut line, self.helped);
        line.end();
        line
    }
}

/// How many steps were made for another one than their owner.
pub(crate) fn helped(steps: &[StepMark]) -> u64
    ensures { result ≡ count_by is_helped steps.now }
{
    let mut count = 0;
    for mark in steps {
        if is_helped(*mark) {
            count += 1;
        }
    }
    count
}
