//! A triangulation of a polygon by diagonals.
#![tactic(auto)]

mod cut;
mod farthest;
mod laws;
mod triangulation;

pub use laws::some_cut_triangulation;
pub use triangulation::triangulate;
