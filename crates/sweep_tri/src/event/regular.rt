// A regular vertex: one edge ends, and one goes on.
ghost use Rattle.std.specs.List.{All};
ghost use Rattle.std.specs.Prelude.{◌≡◌, ◌+◌, ◌≤◌, ◌<◌, ◌↔◌, OnOk, IsTrue, length, slice_index, slice_set};
ghost use Rattle.sweep_tri.specs.Entries.{IsAccounted, event_work};
ghost use Rattle.sweep_tri.specs.Frontier.{IsGapPlace};
ghost use Rattle.sweep_tri.specs.Gaps.{gap_at, low_front};
ghost use Rattle.sweep_tri.specs.Meeting.{AreFilled, closed_at, gap_of, left_at, with_vertex};
ghost use Rattle.sweep_tri.specs.Passing.{IsRegularVertex, IsNextEvent};
ghost use Rattle.sweep_tri.specs.Ranked.{IsRanked};
ghost use Rattle.sweep_tri.specs.Region.{IsClosedRegion};
ghost use Rattle.sweep_tri.specs.Swept.{IsSwept};

use super::Sweep;
use crate::board::RankedBoard;
use crate::gap::Gap;
use exact_plane::{Memory, Steps, Turns};
use mono_fill::Side;
use std::sync::ledger::Ledger;

impl Sweep {
    // One edge ends at v, and one goes on from there to w.
    pub(super) fn go_on<T: Turns, L: Ledger>(
        &mut self,
        ring: &RankedBoard<T>,
        j: usize,
        v: u32,
        w: u32,
        steps: &mut Steps<L>,
    ) -> Result<(), Memory>
        requires next { IsNextEvent (T.corners ring.now.board.now) ring.now.rank.now self.old.status self.old.tris.items v }
        requires place { IsGapPlace (T.corners ring.now.board.now) self.old.status v j }
        requires goes_on { IsRegularVertex ring.now.rank.now v w }
        ensures swept { OnOk result (IsSwept (T.corners ring.now.board.now) ring.now.rank.now (slice_index ring.now.rank.now v + 1) self.new.status self.new.tris.items) }
        ensures work { IsAccounted result self.old.status self.new.status event_work steps.old steps.new }
    {
        if self.low_ends(j, v) {
            self.go_on_at(ring, Side::Lower, j, v, w, steps)
        } else {
            self.go_on_at(ring, Side::Upper, j - 1, v, w, steps)
        }
    }

    // Whether there is a gap j, and the edge below it ends at v.
    fn low_ends(&self, j: usize, v: u32) -> bool
        requires some { j < length self.now.status → 2 ≤ length (gap_at self.now.status j).low.lower }
        ensures ends { IsTrue result ↔ ((j < length self.now.status) × ((low_front (gap_at self.now.status j)).to ≡ v)) }
    {
        j < self.status.len() && self.status.get(j).low_front().1 == v
    }

    // The edge of gap j on this side ends at v, and one goes on from there to w.
    fn go_on_at<T: Turns, L: Ledger>(
        &mut self,
        ring: &RankedBoard<T>,
        side: Side,
        j: usize,
        v: u32,
        w: u32,
        steps: &mut Steps<L>,
    ) -> Result<(), Memory>
        requires ranked { IsRanked (T.corners ring.now.board.now) ring.now.rank.now }
        requires place { j < length self.old.status }
        requires closed { let g = gap_at self.old.status j in All (IsClosedRegion (T.corners ring.now.board.now) ring.now.rank.now) (closed_at side g.low g.high v) }
        ensures gaps { OnOk result (let g = gap_at self.old.status j in
            self.new.status ≡ slice_set self.old.status j (gap_of (with_vertex side (left_at side g.low g.high v) w))) }
        ensures filled { OnOk result (let g = gap_at self.old.status j in
            AreFilled (T.corners ring.now.board.now) (closed_at side g.low g.high v) self.old.tris.items self.new.tris.items) }
        ensures work { IsAccounted result self.old.status self.new.status event_work steps.old steps.new }
    {
        let gap = self.status.replace(j, Gap::none(ring.alloc));
        let mut region = gap.meet(ring, side, v, &mut self.tris, steps)?;
        region.extend(side, w)?;
        self.status.replace(j, Gap::of(region));
        Ok(())
    }
}
