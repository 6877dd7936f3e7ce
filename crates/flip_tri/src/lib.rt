//! The triangulation that the vertices of a polygon determine, from any other one, by flips: Lawson 1977.
#![tactic(auto)]

mod flips;
mod quad;
mod triangulation;
mod waiting;

pub use triangulation::cut_triangles;
