// A merge vertex: two gaps meet where the edges between them end.
ghost use Rattle.std.specs.List.{All, remove};
ghost use Rattle.std.specs.Prelude.{◌≡◌, ◌-◌, ◌<◌, OnOk, Some, ◌++◌, length, slice_set};
ghost use Rattle.sweep_tri.specs.Entries.{IsAccounted, event_work};
ghost use Rattle.sweep_tri.specs.Gaps.{gap_at};
ghost use Rattle.sweep_tri.specs.Meeting.{AreFilled, closed_at, left_at};
ghost use Rattle.sweep_tri.specs.Ranked.{IsRanked};
ghost use Rattle.sweep_tri.specs.Region.{IsClosedRegion};

use super::Sweep;
use crate::board::RankedBoard;
use crate::gap::Gap;
use exact_plane::{Memory, Steps, Turns};
use mono_fill::Side;
use std::sync::ledger::Ledger;

impl Sweep {
    // The gap before gap j and gap j meet at v.
    pub(super) fn merge<T: Turns, L: Ledger>(
        &mut self,
        ring: &RankedBoard<T>,
        j: usize,
        v: u32,
        steps: &mut Steps<L>,
    ) -> Result<(), Memory>
        requires ranked { IsRanked (T.corners ring.now.board.now) ring.now.rank.now }
        requires first { 0 < j }
        requires place { j < length self.old.status }
        requires closed_below { let g = gap_at self.old.status j in All (IsClosedRegion (T.corners ring.now.board.now) ring.now.rank.now) (closed_at Side.Lower g.low g.high v) }
        requires closed_above { let g = gap_at self.old.status (j - 1) in All (IsClosedRegion (T.corners ring.now.board.now) ring.now.rank.now) (closed_at Side.Upper g.low g.high v) }
        ensures gaps { OnOk result (let g = gap_at self.old.status (j - 1) in let h = gap_at self.old.status j in
            self.new.status ≡ slice_set (remove self.old.status j) (j - 1)
            (record { low = left_at Side.Upper g.low g.high v; high = Some (left_at Side.Lower h.low h.high v) })) }
        ensures filled { OnOk result (let g = gap_at self.old.status (j - 1) in let h = gap_at self.old.status j in
            AreFilled (T.corners ring.now.board.now) (closed_at Side.Lower h.low h.high v ++ closed_at Side.Upper g.low g.high v) self.old.tris.items self.new.tris.items) }
        ensures work { IsAccounted result self.old.status self.new.status event_work steps.old steps.new }
    {
        let above = self.status.remove(ring.alloc, j)?;
        let high = above.meet(ring, Side::Lower, v, &mut self.tris, steps)?;
        let below = self.status.replace(j - 1, Gap::none(ring.alloc));
        let low = below.meet(ring, Side::Upper, v, &mut self.tris, steps)?;
        self.status.replace(j - 1, Gap::of_two(low, high));
        Ok(())
    }
}
