//! Lists of numbers that share their nodes: each call makes a new list and leaves its arguments as they were.
#![tactic(auto)]

mod change;
mod cutting;
mod joining;
mod node;
mod rotation;
mod search;
mod seq;
mod side;

pub use search::{Halves, Search};
pub use seq::SharedSeq;
