//! What a section of the kernel does when it runs alone: exactly what the sequential specification says that its call means.
//!
//! It has no code. The memory that a section works on, what it shows, and when it is sound stand in k_shown. `specs/Alone` has a
//! run of a section, each step answered by the memory, with no step of another between, and what such a run comes to;
//! `specs/SendAlone`, `ReceiveAlone`, `CreateAlone` and `DestroyAlone` the sections that run, by the tables of their own
//! libraries. What a step makes of a word, and what goes back with it, are the definitions of k_locks.
//!
//! The functions do nothing: each has a law as its contract. For each kind of call, from a sound memory: at each step the
//! conditions hold on which the code can be asked for it and told its answer; the section ends, it appends exactly its own
//! event, with the outcome that the specification gives, and the gone events of those that it frees, each enabled when it
//! comes; the memory then shows the state that these events leave, is sound again, and the reply told is that of this state.
//! A thread that it wakes is on, has the reply's result in its word and a message that came in its mail word, and stands at the
//! end of its ready list if it was off. All other words, mails, queues and ready lists are as they were.
#![tactic(auto)]

mod laws;

pub use laws::{
    a_caller_may_begin_its_section, a_create_alone_makes_its_event,
    a_destroy_alone_makes_its_event, a_passed_message_is_delivered, a_pick_alone_makes_its_event,
    a_pick_of_a_delivered_caller_makes_nothing, a_receive_alone_makes_its_event,
    a_send_alone_makes_its_event,
};
