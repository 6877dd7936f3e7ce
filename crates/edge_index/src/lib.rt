//! An index of the edges of a list of points, which speeds up the search of the least clash in lists that `ring_check` rejects.
//! The plain call is the scan of all pairs of edges in `clash.rt` of `ring_check`, from which the index takes the edges that are clear.
//! It buys 3 milliseconds for 0.19 seconds at 4,096 vertices (a zigzag, 2 December 2026), so 13 for some 3,000 at 16,384: 134 million pairs.
#![tactic(auto)]

// The index.
mod index;

// Points, ways and edges by their coordinates.
mod place;

// Edges that are read.
mod probe;

// The points between two parallel lines.
mod slab;

// What a slab shows.
mod slabs;

// A box and a slab round edges.
mod cover;

// Edges with a cover.
mod runs;

// The greatest run to pass over.
mod walk;

// The edges by their directions.
mod kinds;

// The shear under which directions are told apart.
mod frame;

pub use index::EdgeIndex;
pub use place::Probe;
pub use probe::corner;
