// A start vertex: two edges begin, and a gap between them.
ghost use Rattle.std.specs.List.{insert};
ghost use Rattle.std.specs.Prelude.{◌≡◌, ◌+◌, ◌^◌, ◌≤◌, ◌<◌, OnOk, length};
ghost use Rattle.sweep_tri.specs.Meeting.{gap_of, region_from};

use super::Sweep;
use crate::gap::{Fork, Gap};
use exact_plane::Memory;
use std::alloc::Global;

impl Sweep {
    // A gap begins at place j.
    pub(super) fn start(&mut self, alloc: Global, j: usize, fork: Fork) -> Result<(), Memory>
        requires place { j ≤ length self.old.status }
        requires few { length self.old.status + 1 < 2 ^ 31 }
        ensures gaps { OnOk result (self.new.status ≡ insert self.old.status j (gap_of (region_from fork.vertex fork.below fork.above))) }
        ensures triangles { self.new.tris.items ≡ self.old.tris.items }
    {
        self.status.insert(j, Gap::at(alloc, fork)?)
    }
}
