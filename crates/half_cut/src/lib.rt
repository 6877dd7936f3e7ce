//! Closed convex regions, cut along lines.
#![tactic(auto)]

mod block;
mod cut;
mod least;
mod region;
mod seek;
mod tail;

pub use cut::CutFault;
pub use region::Region;
