//! Where a point lies: inside a ring, on its boundary or outside. Whether a segment lies in a ring.
#![tactic(auto)]

mod breakpoint;
mod crossing;
mod edge_meetings;
mod level;
mod position;
mod segment;

pub use position::{Position, place, place_hom};
pub use segment::{holds_segment, holds_segment_within};
