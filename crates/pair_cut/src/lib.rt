//! The paths between all pairs of vertices of a polygon, from one table; and which pairs see each other.
#![tactic(auto)]

mod climb;
mod laws;
mod rows;
mod table;

pub use laws::{limit_in_numbers, one_sights};
pub use table::{MAX_PAIRED, PairTable};
