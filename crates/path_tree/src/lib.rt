//! The paths from a start to every vertex, by funnels that share their nodes.
#![tactic(auto)]

mod door;
mod funnel;
mod growth;
mod name;
mod onward;
mod tree;

pub use door::{Door, Visit, door_of};
pub use tree::PathTree;
