//! The bound on waits for locks, over chains of owners.
#![tactic(auto)]

mod laws;

pub use laws::{
    Sectioned, a_chain_is_worked_out, a_count_that_stands_still_is_no_more, a_wait_is_bounded,
    a_wait_is_bounded_by_the_rules_of_the_hand, logs_show_a_mark, logs_tell_what_they_show,
};
