//! A step of a carrier in the raw world lowers the work that the world has for it, while no other carrier has a context in hand.
//!
//! It has no code. A raw step is a step of the whole, or two where a thread's call begins (k_handling, k_running); each lowers the
//! work of the board and the carriers (k_work), which is that of the raw world (k_lowered). A step that makes an entry leaves less
//! room in the history.
//!
//! The function does nothing: it has the law as its contract.
#![tactic(auto)]

mod laws;

pub use laws::each_step_lowers_the_work;
