//! Triangles of a monotone piece of a polygon, with one stack.
#![tactic(auto)]

mod chains;
mod filling;
mod side;
mod stack;

pub use filling::fill;
pub use side::Side;
