//! What the words of the kernel show of the sequential specification.
//!
//! It has no code. `specs/Memory` has the words and the guarded data by name, decoded, and which state of the specification they
//! show (`Shows`); `specs/Sound` what holds of a memory while no section is half done; `specs/Boot` the memory in which a kernel
//! begins; `specs/Rows` one event of the specification: the words and queues that it changes, and what it gives; `specs/Leaves`
//! what a section that is run alone leaves of words, mails and lists.
//!
//! The functions do nothing: each has a law as its contract, a clause a row of the specification. From a memory that shows a
//! state, and the conditions of the row on the words of those who take part, the event may be made in that state, with this
//! outcome and these replies; and each memory with the row's words and queues shows the state that it leaves. The words
//! themselves are variables: a clause asks of them only what they show.
#![tactic(auto)]

mod laws;

pub use laws::{
    a_boot_memory_is_sound, a_create_is_shown, a_destroy_is_shown, a_gone_event_is_shown,
    a_pick_is_shown, a_receive_is_shown, a_row_is_a_step, a_send_is_shown,
    alike_memories_show_the_same, an_end_is_shown,
};
