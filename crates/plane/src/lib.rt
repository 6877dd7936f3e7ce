//! Points, turns and segments of the plane: definitions and laws. The limits are all the code.
#![tactic(auto)]

mod laws;
mod limits;

pub use laws::limits_in_numbers;
pub use limits::{MAX_CHAIN, MAX_COORDINATE, MAX_CORNERS, MAX_HULL, MAX_SCRIPT};
