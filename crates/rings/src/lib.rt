//! Rings of points, their inside, chains and bends: definitions and laws.
#![tactic(auto)]

mod laws;

pub use laws::{one_full, seen_in_parts};
