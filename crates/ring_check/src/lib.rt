//! Simple polygons: a list of points is accepted exactly if no two of its edges clash.
#![tactic(auto)]

// Polygons.
mod ring;

// Lists of points read counterclockwise.
mod orientation;

// The sweep, which accepts most lists that are simple.
mod sweep;

// The vertices in lexicographic order.
mod order;

// The events of the sweep: that order, and the rank of each vertex.
mod events;

// The status of the sweep.
mod status;

// Which of two edges is below the other.
mod edge_order;

// The list that the status is kept in.
mod gap_list;

// The search of the least clash, a scan of all pairs of edges.
mod clash;

// The edges that the scan leaves out.
mod candidates;

// Laws about lists of points.
mod laws;

pub use laws::{crossing_parity, winding_across};
pub use order::ranks_of;
pub use ring::{Ring, RingFault};
pub use sweep::sweep_finds_none;
