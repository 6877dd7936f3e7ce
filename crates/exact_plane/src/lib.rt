//! Exact predicates on points with integer coordinates. An orientation test or a comparison of two points takes a step. Reading
//! coordinates takes 64 steps a point, by `Pt::parts`, `Hom::parts` and `BoundingBox::of`; numbers that were read are compared freely.
#![tactic(auto)]

mod bounding_box;
mod boxes;
mod cone;
mod direction;
mod extent;
mod hom;
mod memory;
mod pt;
mod segments;
mod steps;
mod triangle;
mod turns;
mod vector;
mod ways;
mod wide;

pub use bounding_box::BoundingBox;
pub use cone::in_cone;
pub use direction::{Direction, turn, turns as turns_to};
pub use extent::{is_within, order_upward};
pub use hom::{Hom, order_hom, turn_hom};
pub use memory::Memory;
pub use pt::{Pt, order};
pub use segments::{meet_only_at, on_segment, segments_meet};
pub use steps::Steps;
pub use triangle::{in_triangle, is_apart, is_right_of_none};
pub use turns::{Spot, Turns};
pub use ways::turn_of_ways;
pub use wide::compare;
