//! Where a point is among the triangles of a polygon, the one sleeve between two of them, and the turns at its vertices.
#![tactic(auto)]

mod board;
mod laws;
mod location;
mod search;
mod sleeves;
mod touching;
mod walk;

pub use board::Board;
pub use laws::{full_without_straight, no_point_twice};
pub use location::locate;
pub use sleeves::sleeve;
pub use touching::touched;
