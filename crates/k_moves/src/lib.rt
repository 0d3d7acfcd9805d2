//! Each step of a carrier in the raw world is a step of the carriers that keep the good world.
#![tactic(auto)]

mod laws;

pub use laws::{
    a_carrier_follows_the_same_rules, a_give_is_the_same, a_look_is_the_same, a_move_is_a_step,
    a_switch_is_the_same, a_take_is_the_same, a_threads_step_is_the_same,
    what_comes_from_outside_is_the_same, what_is_granted_is_told,
};
