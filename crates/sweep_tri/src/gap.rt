// What lies between two edges that the sweep line meets: one open region, or two.
ghost use Rattle.std.specs.Prelude.{◌≡◌, ◌+◌, ◌*◌, ◌≤◌, ◌<◌, IfOk, OnOk, Some, [], ◌∷◌, ◌++◌, length};
ghost use Rattle.std.specs.List.{All};
ghost use Rattle.mono_fill.specs.Sides.{other_chain_side};
ghost use Rattle.sweep_tri.specs.Entries.{entries_of_all};
ghost use Rattle.sweep_tri.specs.Gaps.{before_last, highest, low_front, no_gap, up_front};
ghost use Rattle.sweep_tri.specs.Meeting.{AreFilled, at_edge, closed_at, gap_of, left_at, region_from, split_above, split_below};
ghost use Rattle.sweep_tri.specs.Ranked.{IsRanked};
ghost use Rattle.sweep_tri.specs.Region.{IsClosedRegion};

use crate::board::RankedBoard;
use crate::chain::{front_of, two};
use crate::region::Region;
use exact_plane::{Memory, Steps, Turns};
use meshes::Tri;
use mono_fill::Side;
use std::alloc::Global;
use std::sync::ledger::Ledger;

// What lies between two edges: one region, or two that meet at a merge vertex.
#[derive(Drop)]
pub(crate) struct Gap {
    pub(crate) low: Region,
    pub(crate) high: Option<Region>,
}

// A vertex where two edges begin, and the vertices below and above where they end.
#[derive(Clone, Copy)]
pub(crate) struct Fork {
    pub(crate) vertex: u32,
    pub(crate) below: u32,
    pub(crate) above: u32,
}

impl Gap {
    // A gap with nothing in it. It takes no memory.
    pub(crate) fn none(alloc: Global) -> Gap
        ensures { result ≡ no_gap }
    {
        Gap::of(Region {
            lower: Vec::new(alloc),
            upper: Vec::new(alloc),
        })
    }

    // The gap of one region.
    pub(crate) fn of(region: Region) -> Gap
        ensures { result ≡ gap_of region }
    {
        Gap {
            low: region,
            high: None,
        }
    }

    // The gap of two regions that meet at a merge vertex.
    pub(crate) fn of_two(low: Region, high: Region) -> Gap
        ensures { result ≡ record { low = low; high = Some high } }
    {
        Gap {
            low,
            high: Some(high),
        }
    }

    // The gap that begins at a fork.
    pub(crate) fn at(alloc: Global, fork: Fork) -> Result<Gap, Memory>
        ensures { IfOk result (λ gap. gap ≡ gap_of (region_from fork.vertex fork.below fork.above)) }
    {
        Ok(Gap::of(Region {
            lower: two(alloc, fork.vertex, fork.below)?,
            upper: two(alloc, fork.vertex, fork.above)?,
        }))
    }

    // The edge below the gap.
    pub(crate) fn low_front(&self) -> (u32, u32)
        requires { 2 ≤ length self.now.low.lower }
        ensures from { result.0 ≡ (low_front self.now).from }
        ensures to { result.1 ≡ (low_front self.now).to }
    {
        front_of(&self.low.lower)
    }

    // The edge above it.
    pub(crate) fn up_front(&self) -> (u32, u32)
        requires { 2 ≤ length (highest self.now.low self.now.high).upper }
        ensures from { result.0 ≡ (up_front self.now).from }
        ensures to { result.1 ≡ (up_front self.now).to }
    {
        match &self.high {
            Some(high) => front_of(&high.upper),
            None => front_of(&self.low.upper),
        }
    }

    // The region that stays open where the edge on this side ends at v. Of two regions the one there is closed.
    pub(crate) fn meet<T: Turns, L: Ledger>(
        self,
        ring: &RankedBoard<T>,
        side: Side,
        v: u32,
        tris: &mut Vec<Tri>,
        steps: &mut Steps<L>,
    ) -> Result<Region, Memory>
        requires ranked { IsRanked (T.corners ring.now.board.now) ring.now.rank.now }
        requires closed { All (IsClosedRegion (T.corners ring.now.board.now) ring.now.rank.now) (closed_at side self.low self.high v) }
        ensures left { IfOk result (λ region. region ≡ left_at side self.low self.high v) }
        ensures filled { OnOk result (AreFilled (T.corners ring.now.board.now) (closed_at side self.low self.high v) tris.old.items tris.new.items) }
        ensures steps { steps.new ≤ steps.old + 8 * entries_of_all (closed_at side self.low self.high v) }
    {
        let Gap { low, high } = self;
        match high {
            None => Ok(low),
            Some(high) => {
                let (mut closed, mut left) = ordered(side, low, high);
                closed.extend(side.opposite(), v)?;
                closed.close(ring, tris, steps)?;
                left.extend(side, v)?;
                Ok(left)
            }
        }
    }

    // The gaps below and above a fork within this one.
    pub(crate) fn split(self, alloc: Global, rank: &[u32], fork: Fork) -> Result<(Gap, Gap), Memory>
        requires lower { 2 ≤ length self.low.lower }
        requires upper { 2 ≤ length self.low.upper }
        requires lower_from { before_last self.low.lower < length rank.now }
        requires upper_from { before_last self.low.upper < length rank.now }
        ensures below { IfOk result (λ gaps. gaps.0 ≡ gap_of (split_below rank.now self.low self.high fork.vertex fork.below)) }
        ensures above { IfOk result (λ gaps. gaps.1 ≡ gap_of (split_above rank.now self.low self.high fork.vertex fork.above)) }
    {
        let Gap { low, high } = self;
        let (below, above) = match high {
            None => low.split(alloc, rank, fork)?,
            Some(high) => part(low, high, fork)?,
        };
        Ok((Gap::of(below), Gap::of(above)))
    }
}

// Two regions that meet at a merge vertex, each with the diagonal from there to the fork and an edge on from it.
fn part(mut low: Region, mut high: Region, fork: Fork) -> Result<(Region, Region), Memory>
    ensures below { IfOk result (λ parts. parts.0 ≡ record { lower = low.lower; upper = low.upper ++ fork.vertex ∷ fork.below ∷ [] }) }
    ensures above { IfOk result (λ parts. parts.1 ≡ record { lower = high.lower ++ fork.vertex ∷ fork.above ∷ []; upper = high.upper }) }
{
    low.extend(Side::Upper, fork.vertex)?;
    low.extend(Side::Upper, fork.below)?;
    high.extend(Side::Lower, fork.vertex)?;
    high.extend(Side::Lower, fork.above)?;
    Ok((low, high))
}

// Of the two regions of a gap the one at its edge on this side, and the other one.
fn ordered(side: Side, low: Region, high: Region) -> (Region, Region)
    ensures at { result.0 ≡ at_edge side low high }
    ensures other { result.1 ≡ at_edge (other_chain_side side) low high }
{
    match side {
        Side::Lower => (low, high),
        Side::Upper => (high, low),
    }
}
