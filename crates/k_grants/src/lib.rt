//! Each turn of a thread's context on a board is a step of who is on, which its location grants.
//!
//! It has no code. `specs/Views` says what of a board (k_board) bears on who is on: what each state word shows, and what each
//! location is about, which is the locks that it holds, whom its section has turned on and has yet to push, whom it has killed,
//! and whose context it has placed. `specs/Pushes` says what each location with a thread to push says of that thread.
//! `specs/Granted` says when a board and a world of who is on (k_tokens) agree, and what it is that a turn is granted: it is
//! one step of the thread's, the location grants it, and board and world agree after it.
//!
//! The function does nothing: its contract is the law. Kinds of steps are proved once, over any words and any places
//! (`proofs/Moves`, `proofs/Granting`, `proofs/Tabling`), and a location is one line that names its kind.
#![tactic(auto)]

mod laws;

pub use laws::each_turn_is_granted;
