//! Polygons made by a rule, on which the program shows how it does where a path is hardest.
#![tactic(auto)]

mod combs;
mod laws;

pub use combs::{MAX_TEETH, comb, comb_goal, comb_start};
pub use laws::{comb_ring, limit_in_numbers};
