//! Reading a script's text.
//!
//! A text is made of lines in a fixed order: `kernel`, `table`, `carriers`, `show steps`, `aged`, the programs, `thread`, `at`
//! and `turns` (docs/SCRIPT.md has them all). The text and its language are this project's own; the operations are the IPC
//! operations of L4 (Liedtke, *L4 Reference Manual 2.0*) and the two thread calls.
//!
//! # What is promised
//!
//! - [`read`] answers a script exactly where the bytes are a text of one (specs/Grammar.antt: `IsText`), at most 1,048,576 of
//!   them, and its weight is at most 4,000,000; and it answers that script. A text is no text of another script
//!   ([`a_text_is_read`]).
//! - Else it names the first bad line, with the first of the reasons Word, Order, Nest, Number, Unknown, Table and Many that
//!   applies; the first line with words has the reason Version, whatever is wrong with it (specs/Reading.antt: `read_of`).
//!
//! Reading takes a time linear in the bytes. A name is looked up among at most 255, and a started thread among at most 64.
#![tactic(auto)]

mod draft;
mod fault;
mod laws;
mod reader;
mod resolve;
mod turns;

pub use fault::{ScriptFault, Why};
pub use laws::a_text_is_read;
pub use reader::read;
