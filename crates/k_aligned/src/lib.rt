//! The raw world, the board that it shows, and its carriers as the good world has them.
//!
//! It has no code. The raw world (k_world) is all words, slots, carriers and logs, as lists. It shows a board (k_places), of which
//! the invariant is proved (k_invariant); and its carriers have a view (k_moves), of which it is proved who is on (k_switching).
//! Here the three are of one moment, between two moves.
#![tactic(auto)]
