// The ring of a sweep, as its events see it.
use exact_plane::Turns;
use std::alloc::Global;

// The board of a ring, the rank of each corner in lexicographic order, and the allocator for what is made of them.
#[derive(Drop)]
pub(crate) struct RankedBoard<'a, T: Turns> {
    pub(crate) alloc: Global,
    pub(crate) board: &'a T,
    pub(crate) rank: &'a [u32],
}
