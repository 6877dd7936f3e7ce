//! Laws of the relative hull: how paths from one point turn against each other, and that the sides close to one round.
#![tactic(auto)]

mod laws;

pub use laws::{
    exchange, from_third, joined_paths, no_three_joined, one_order, one_side, one_way, outer_pair,
    paths, round_closes, same_side, steps,
};
