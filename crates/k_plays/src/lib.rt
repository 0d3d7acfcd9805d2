//! The history of a kernel's run plays its script: each linearization point keeps it so.
//!
//! It has no code. `specs/Scripts` has the programs of a script as boards have them, and others of which every call names
//! threads of the table and sends two words of 32 bits; within the script's bounds both give the same. `specs/Messages` says
//! which messages are two such words. `specs/Ledgers` says what a point stands on: its call is the one that the program gives
//! after the ledger's position and reply.
//!
//! The functions do nothing: each has a law as its contract. What a history is that follows its script, and where that leads
//! the programs, stands in k_room; what a point makes of the ledgers, in k_board.
#![tactic(auto)]

mod laws;

pub use laws::{
    a_program_gives_its_next_phase, a_script_has_programs_within_its_table,
    a_thread_goes_on_with_its_program, every_point_plays_the_script, every_step_keeps_the_ledgers,
    messages_stay_two_words, no_entry_plays_the_script,
};
