//! Inputs: a source is read to its end, or up to the byte with which it is too large.
//!
//! - [`read_all`] reads a script: at most 1,048,576 bytes.
//! - [`read_divided`] reads a script and a history: the script, a line that is exactly `--`, and the lines of the history.
//!   The script has at most 1,048,576 bytes, and the whole input at most 135,266,304. It stops at the first byte with which
//!   one of these limits is surely passed.
//! - [`divide`] cuts such an input into its script and its history.
//!
//! A read byte is looked at once, and a division looks at each byte of the script once.
#![tactic(auto)]

mod divider;
mod fault;
mod parts;
mod read;

pub use fault::InputFault;
pub use parts::divide;
pub use read::{read_all, read_divided};
