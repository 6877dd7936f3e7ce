//! The kernel of a polygon: the points that see all of it.
#![tactic(auto)]

mod directions;
mod half_planes;

pub use half_planes::kernel;
