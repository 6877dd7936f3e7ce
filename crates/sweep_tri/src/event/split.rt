// A split vertex: two edges begin within a gap.
ghost use Rattle.std.specs.List.{insert};
ghost use Rattle.std.specs.Prelude.{◌≡◌, ◌+◌, ◌^◌, ◌≤◌, ◌<◌, OnOk, length, slice_set};
ghost use Rattle.sweep_tri.specs.Gaps.{before_last, gap_at};
ghost use Rattle.sweep_tri.specs.Meeting.{gap_of, split_above, split_below};

use super::Sweep;
use crate::gap::{Fork, Gap};
use exact_plane::Memory;
use std::alloc::Global;

impl Sweep {
    // Gap j is split.
    pub(super) fn split(
        &mut self,
        alloc: Global,
        rank: &[u32],
        j: usize,
        fork: Fork,
    ) -> Result<(), Memory>
        requires place { j < length self.old.status }
        requires few { length self.old.status + 1 < 2 ^ 31 }
        requires lower { 2 ≤ length (gap_at self.old.status j).low.lower }
        requires upper { 2 ≤ length (gap_at self.old.status j).low.upper }
        requires lower_from { before_last (gap_at self.old.status j).low.lower < length rank.now }
        requires upper_from { before_last (gap_at self.old.status j).low.upper < length rank.now }
        ensures gaps { OnOk result (let g = gap_at self.old.status j in self.new.status
            ≡ insert (slice_set self.old.status j (gap_of (split_below rank.now g.low g.high fork.vertex fork.below))) (j + 1)
            (gap_of (split_above rank.now g.low g.high fork.vertex fork.above))) }
        ensures triangles { self.new.tris.items ≡ self.old.tris.items }
    {
        let gap = self.status.replace(j, Gap::none(alloc));
        let (below, above) = gap.split(alloc, rank, fork)?;
        self.status.replace(j, below);
        self.status.insert(j + 1, above)
    }
}
