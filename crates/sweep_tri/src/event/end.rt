// An end vertex: the two edges of a gap end.
ghost use Rattle.std.specs.List.{All, remove};
ghost use Rattle.std.specs.Prelude.{◌≡◌, ◌<◌, OnOk, [], ◌∷◌, ◌++◌, length};
ghost use Rattle.sweep_tri.specs.Entries.{IsAccounted, event_work};
ghost use Rattle.sweep_tri.specs.Gaps.{gap_at};
ghost use Rattle.sweep_tri.specs.Meeting.{AreFilled, closed_at, left_at};
ghost use Rattle.sweep_tri.specs.Ranked.{IsRanked};
ghost use Rattle.sweep_tri.specs.Region.{IsClosedRegion};

use super::Sweep;
use crate::board::RankedBoard;
use crate::gap::Gap;
use exact_plane::{Memory, Steps, Turns};
use mono_fill::Side;
use std::sync::ledger::Ledger;

impl Sweep {
    // Gap j ends at v.
    pub(super) fn end<T: Turns, L: Ledger>(
        &mut self,
        ring: &RankedBoard<T>,
        j: usize,
        v: u32,
        steps: &mut Steps<L>,
    ) -> Result<(), Memory>
        requires ranked { IsRanked (T.corners ring.now.board.now) ring.now.rank.now }
        requires place { j < length self.old.status }
        requires closed { let g = gap_at self.old.status j in
            All (IsClosedRegion (T.corners ring.now.board.now) ring.now.rank.now) (closed_at Side.Upper g.low g.high v ++ left_at Side.Upper g.low g.high v ∷ []) }
        ensures gaps { OnOk result (self.new.status ≡ remove self.old.status j) }
        ensures filled { OnOk result (let g = gap_at self.old.status j in
            AreFilled (T.corners ring.now.board.now) (closed_at Side.Upper g.low g.high v ++ left_at Side.Upper g.low g.high v ∷ []) self.old.tris.items self.new.tris.items) }
        ensures work { IsAccounted result self.old.status self.new.status event_work steps.old steps.new }
    {
        let gap = self.status.remove(ring.alloc, j)?;
        let region = gap.meet(ring, Side::Upper, v, &mut self.tris, steps)?;
        region.close(ring, &mut self.tris, steps)
    }
}
