//! Guards of a triangulated polygon: at most a third of its vertices, which see all of it.
#![tactic(auto)]

mod guarding;
mod laws;
mod members;
mod parting;
mod tally;

pub use guarding::{guards, guards_of};
pub use laws::{one_guards, one_parting};
