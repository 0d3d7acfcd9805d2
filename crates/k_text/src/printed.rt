// Whole lines, and lists of them.
ghost use Rattle.std.specs.Prelude.{◌≡◌, List, ℕ};
ghost use Rattle.std.specs.List.{flat_map};
ghost use Rattle.k_outside.specs.Outside.{HasCause, PutsAll};
ghost use Rattle.k_text.specs.Texts.{entry_text, final_text, reply_line_text};

use crate::line::Line;
use k_ids::{Entry, Found, ReplyLine};
use k_outside::{Failed, Sink, put_all};

/// What is printed as a line.
pub trait Printed {
    /// The line's text, with its line feed.
    ghost text: { Self → List ℕ };

    fn line(&self) -> Line
        ensures { result ≡ text self.now };
}

/// A line of a history: `ID SERIAL PHASE -> OUTCOME`, `ID SERIAL end`, `ID SERIAL gone` or `ID SERIAL pick -> OUTCOME`.
impl Printed for Entry {
    ghost text = { entry_text };

    fn line(&self) -> Line {
        let mut line = Line::new();
        line.push_id_text(self.event.who);
        line.push_number(self.event.serial);
        line.push_act(self.event.act);
        line.push_result(self.outcome);
        line.end();
        line
    }
}

/// `reply ID SERIAL REPLY`.
impl Printed for ReplyLine {
    ghost text = { reply_line_text };

    fn line(&self) -> Line {
        let mut line = Line::new();
        line.push(b"reply");
        line.push_id(self.id);
        line.push_number(self.serial);
        line.push_reply(self.reply);
        line.end();
        line
    }
}

/// What a number shows at the end: `end ID STATUS`.
impl Printed for Found {
    ghost text = { final_text };

    fn line(&self) -> Line {
        let mut line = Line::new();
        line.push(b"end");
        line.push_found(*self);
        line.end();
        line
    }
}

/// Puts the line of an item, as one piece.
pub fn put_line<K: Sink, T: Printed>(sink: &mut K, item: &T) -> Result<(), Failed>
    ensures bytes { PutsAll (K.held sink.old) (K.held sink.new) result (T.text item.now) }
    ensures cause { HasCause (K.faults sink.old) (K.faults sink.new) result }
{
    let line = item.line();
    put_all(sink, line.as_bytes())
}

/// Puts the line of each item in turn, each as one piece. After `Failed` a front of their text was put.
pub fn put_each<K: Sink, T: Printed>(sink: &mut K, items: &[T]) -> Result<(), Failed>
    ensures bytes { PutsAll (K.held sink.old) (K.held sink.new) result (flat_map T.text items.now) }
    ensures cause { HasCause (K.faults sink.old) (K.faults sink.new) result }
{
    for item in items {
        put_line(sink, item)?;
    }
    Ok(())
}
