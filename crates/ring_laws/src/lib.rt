//! Laws of simple rings: they wind once, have diagonals, and are cut in two by each.
#![tactic(auto)]

mod laws;

pub use laws::{cut_rule, diagonal_cut, kernel_by_half_planes, simple_ring};
