//! Triangles over the vertices of a polygon, and which of them share a side.
#![tactic(auto)]

mod corner;
mod mesh;
mod outward;
mod search;
mod sides;
mod sleeve;
mod triangle;

pub use corner::triangle_at;
pub use mesh::Mesh;
pub use outward::{Outward, Rooted};
pub use sleeve::Sleeve;
pub use triangle::{corner_opposite, has_corner, has_side, side_ends, side_number};
