//! A triangulation of a polygon by a sweep over its vertices in lexicographic order.
#![tactic(auto)]

// The sweep, in either direction.
mod triangulation;

// The lexicographic order of the vertices of a ring.
mod order;

// A board after a half turn, for the sweep from the greatest vertex to the least.
mod half_turned;

// What a vertex does, by its kind.
mod event;

// What the events see of the ring.
mod board;

// The gaps that the sweep line meets.
mod status;

// One gap.
mod gap;

// A region of a gap.
mod region;

// A chain of a region.
mod chain;

pub use order::lexical;
pub use triangulation::{sweep, sweep_ring};
