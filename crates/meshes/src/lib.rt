//! Triangles that fit a polygon, walks over them and sleeves, as plain data; and the laws of triangulations.
#![tactic(auto)]

mod diagonal;
mod laws;
mod tri;

pub use diagonal::Diagonal;
pub use laws::{
    boundary, ear, leaf_off_walk, leaves, separation, sight_in_piece, sight_in_sleeve,
    triangulation,
};
pub use tri::Tri;
