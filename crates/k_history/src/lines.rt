// A history's lines.
ghost use Rattle.std.specs.Prelude.{◌≡◌, ◌≤◌, ◌-◌, ◌++◌, drop, length, take, IfSome, Some};
ghost use Rattle.k_ids.specs.declared.histories.Entry.{Entry};
ghost use Rattle.k_text.specs.Texts.{entry_text};
ghost use Rattle.k_history.specs.Fits.{FitsEntry, Spells};

use crate::reading::entry_of;
use crate::words::line_words;
use k_ids::Entry;
use k_text::Printed;

/// Writes the line of an entry, with its line feed, into the front of the buffer, and gives the line's length. The rest of
/// the buffer stays as it was.
///
/// The line is `ID SERIAL PHASE -> OUTCOME`, `ID SERIAL end`, `ID SERIAL gone` or `ID SERIAL pick -> OUTCOME`. Every entry
/// has one, whatever its numbers are. Only reading a line back needs ranges: thread numbers below 64, versions at most
/// 1,048,575, priorities below 64, programs below 255, counts of a full table at most 64, and the outcome `Ended` exactly
/// for an end and `Freed` exactly for a gone, since neither is printed. [`read_line`] reads such an entry back from its line
/// without the line feed.
pub fn event_line(entry: &Entry, into: &mut [u8; 128]) -> usize
    ensures short { result ≤ 128 }
    ensures len { result ≡ length (entry_text entry.now) }
    ensures text { into.new ≡ entry_text entry.now ++ drop result into.old }
    ensures spelled { FitsEntry entry.now → Spells (take (result - 1) into.new) entry.now }
{
    let line = entry.line();
    let text = line.as_bytes();
    into[..text.len()].copy_from_slice(text);
    text.len()
}

/// The entry that a line spells, without its line feed: `None` exactly where it spells none.
///
/// A line spells an entry where it is [`event_line`]'s and the entry's numbers are in their ranges: thread numbers 0 to 63,
/// versions 1 to 1,048,575 (0 too where a number is shown that had no thread yet), priorities 0 to 63, programs 0 to 254,
/// counts of a full table 0 to 64, serials and message words 0 to 4,294,967,295. So words stand one space apart, numbers have
/// no leading zeros, and no line spells two entries. Any printed outcome may stand behind any event that has one.
pub fn read_line(line: &[u8]) -> Option<Entry>
    ensures spelled { IfSome result (Spells line.now) }
    ensures found { (e : Entry) → Spells line.now e → result ≡ Some e }
{
    let words = line_words(line)?;
    entry_of(words.as_slice())
}
