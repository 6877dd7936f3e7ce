//! A bounding volume hierarchy over the triangles of a mesh, which says where to look first for the triangle that holds a point.
//! It is for speed alone. The plain call is the scan of `dual_tree::locate`; no clause says that a box holds its triangles.
//! It buys: `path` from a point to itself takes 4,336 instructions in a comb of 4,096 vertices, 7,034 in a maze (callgrind, 2 December 2026).
#![tactic(auto)]

mod extremes;
mod hierarchy;

pub use hierarchy::{Cursor, Hierarchy};
