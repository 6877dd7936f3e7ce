//! What a point of a polygon sees of its edges, by cones of sight over the triangles.
#![tactic(auto)]

mod cone;
mod edges;
mod part;
mod reached;
mod view;

pub use part::Part;
pub use view::see;
