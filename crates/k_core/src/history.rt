// The history: each event takes its serial.
ghost use Rattle.std.specs.Prelude.{◌≡◌, ◌<◌, ◌^◌, ◌≤◌, IfOk, IfSome, Some, [], length, replicate};
ghost use Rattle.std.specs.Prelude.{slice_index_or};
ghost use Rattle.k_locks.specs.Points.{serial_for};
ghost use Rattle.k_world.specs.Steps.{counted_serials, recorded, with_new};
ghost use Rattle.k_core.specs.Conditions.{CanAppend};
ghost use Rattle.k_core.specs.Parts.{entry_at};
ghost use Rattle.k_places.specs.Fits.{IsMadeWithin};

use k_ids::{Act, Entry, Event, NoMemory, Outcome};
use k_locks::Point;
use std::alloc::Global;
use std::marker::Model;

/// The history, and the last serial of each thread number.
///
/// Contracts see both, and how many entries there is room for in all.
#[derive(Drop)]
pub(crate) struct History {
    serials: Vec<u32>,
    entries: Vec<Entry>,
}

impl Model for History {
    ghost use Rattle.std.specs.Prelude.{vec_capacity};
    ghost use Rattle.k_core.specs.Parts.{Recorded};

    ghost Value = { Recorded };

    ghost view = { λ h. record {
      serials = h.serials.items;
      entries = h.entries.items;
      capacity = vec_capacity h.entries;
    } };
}

impl History {
    /// No entry, and no call of any of these thread numbers. There is room for so many entries.
    pub(crate) fn opened(alloc: Global, table: u8, room: usize) -> Result<History, NoMemory>
        ensures serials { IfOk result (λ h. h.serials ≡ replicate table 0) }
        ensures entries { IfOk result (λ h. h.entries ≡ []) }
        ensures room { IfOk result (λ h. room ≤ h.capacity) }
    {
        Ok(History {
            serials: vec![in alloc; 0; usize::from(table)]?,
            entries: Vec::with_capacity(alloc, room)?,
        })
    }

    /// Appends the event of a step, if it made one. A call takes the next serial of its thread, another event
    /// that of the thread's last call. A thread that was created has made no call.
    pub(crate) fn record(&mut self, point: Option<Point>)
        requires { IfSome (entry_at self.old.serials point) (CanAppend self.old) }
        ensures serials { self.new.serials ≡ counted_serials (entry_at self.old.serials point)
            self.old.serials }
        ensures entries { self.new.entries ≡ recorded (entry_at self.old.serials point) self.old.entries }
        ensures capacity { self.new.capacity ≡ self.old.capacity }
    {
        if let Some(point) = point {
            let serial = self.serial_of(point);
            self.serials[usize::from(point.who.number)] = serial;
            self.begin_made(point.outcome);
            let event = Event {
                who: point.who,
                serial,
                act: point.act,
            };
            self.entries.push_reserved(Entry {
                event,
                outcome: point.outcome,
            });
        }
    }

    // The serial of an event.
    fn serial_of(&self, point: Point) -> u32
        requires number { point.who.number < length self.now.serials }
        requires fits { serial_for point.act (slice_index_or self.now.serials point.who.number 0) < 2 ^ 32 }
        ensures { result ≡ serial_for point.act (slice_index_or self.now.serials point.who.number 0) }
    {
        let last = self.serials[usize::from(point.who.number)];
        match point.act {
            Act::Call { .. } => last + 1,
            Act::Gone | Act::Pick => last,
        }
    }

    // A new thread has made no call.
    fn begin_made(&mut self, outcome: Outcome)
        requires { IsMadeWithin (length self.old.serials) outcome }
        ensures serials { self.new.serials ≡ with_new outcome self.old.serials }
        ensures entries { self.new.entries ≡ self.old.entries }
        ensures capacity { self.new.capacity ≡ self.old.capacity }
    {
        if let Outcome::Made { id } = outcome {
            self.serials[usize::from(id.number)] = 0;
        }
    }

    /// The events with their outcomes, in their order.
    pub(crate) fn entries(&self) -> &[Entry]
        ensures { result.now ≡ self.now.entries }
    {
        &self.entries
    }
}
