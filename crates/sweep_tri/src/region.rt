// A region that is open, between a lower and an upper chain.
ghost use Rattle.std.specs.Prelude.{◌≡◌, ◌+◌, ◌*◌, ◌≤◌, ◌<◌, IfOk, OnOk, length};
ghost use Rattle.mono_fill.specs.Filled.{IsFilled};
ghost use Rattle.sweep_tri.specs.Entries.{entries};
ghost use Rattle.sweep_tri.specs.Gaps.{before_last};
ghost use Rattle.sweep_tri.specs.Meeting.{above_latest, below_latest, beside_front, past_diagonal, with_vertex};
ghost use Rattle.sweep_tri.specs.Ranked.{IsRanked};
ghost use Rattle.sweep_tri.specs.Region.{IsClosedRegion, boundary, seen_from};

use crate::board::RankedBoard;
use crate::chain::{before_last, front_of, three, turned_to, two};
use crate::gap::Fork;
use exact_plane::{Memory, Steps, Turns};
use meshes::Tri;
use mono_fill::{Side, fill};
use std::alloc::Global;
use std::marker::Model;
use std::sync::ledger::Ledger;

// A region between a lower and an upper chain, which rise from their common first vertex.
#[derive(Drop)]
pub(crate) struct Region {
    pub(crate) lower: Vec<u32>,
    pub(crate) upper: Vec<u32>,
}

impl Model for Region {
    ghost use Rattle.sweep_tri.specs.Region.{Chains};

    ghost Value = { Chains };

    ghost view = { λ region. record { lower = region.lower.items; upper = region.upper.items } };
}

impl Region {
    // Adds a vertex at the end of the chain on this side.
    pub(crate) fn extend(&mut self, side: Side, v: u32) -> Result<(), Memory>
        ensures { OnOk result (self.new ≡ with_vertex side self.old v) }
    {
        match side {
            Side::Lower => Ok(self.lower.push(v)?),
            Side::Upper => Ok(self.upper.push(v)?),
        }
    }

    // Appends triangles of the region, which is closed.
    pub(crate) fn close<T: Turns, L: Ledger>(
        self,
        ring: &RankedBoard<T>,
        tris: &mut Vec<Tri>,
        steps: &mut Steps<L>,
    ) -> Result<(), Memory>
        requires ranked { IsRanked (T.corners ring.now.board.now) ring.now.rank.now }
        requires closed { IsClosedRegion (T.corners ring.now.board.now) ring.now.rank.now self }
        ensures filled { OnOk result (IsFilled (T.corners ring.now.board.now) (boundary self) tris.old.items tris.new.items) }
        ensures steps { steps.new ≤ steps.old + 8 * entries self }
    {
        let piece = self.boundary()?;
        fill(ring.alloc, ring.board, ring.rank, &piece, tris, steps)
    }

    // The lower chain, and back along the upper one.
    fn boundary(self) -> Result<Vec<u32>, Memory>
        requires { 2 ≤ length self.upper }
        ensures { IfOk result (λ piece. piece.items ≡ boundary self) }
    {
        let Region {
            mut lower,
            mut upper,
        } = self;
        upper.reverse();
        lower.extend_from_slice(&upper[1..upper.len() - 1])?;
        Ok(lower)
    }

    // The regions below and above a diagonal to the fork, from the later of the vertices where the edges below and above begin.
    pub(crate) fn split(
        self,
        alloc: Global,
        rank: &[u32],
        fork: Fork,
    ) -> Result<(Region, Region), Memory>
        requires lower { 2 ≤ length self.lower }
        requires upper { 2 ≤ length self.upper }
        requires lower_from { before_last self.lower < length rank.now }
        requires upper_from { before_last self.upper < length rank.now }
        ensures below { IfOk result (λ parts. parts.0 ≡ below_latest rank.now self fork.vertex fork.below) }
        ensures above { IfOk result (λ parts. parts.1 ≡ above_latest rank.now self fork.vertex fork.above) }
    {
        let low_from = before_last(&self.lower);
        let up_from = before_last(&self.upper);
        if rank[up_from as usize] < rank[low_from as usize] {
            self.split_from(alloc, Side::Lower, fork.vertex, fork.below, fork.above)
        } else {
            let (above, below) = self.split_from(
                alloc,
                Side::Upper,
                fork.vertex,
                fork.above,
                fork.below,
            )?;
            Ok((below, above))
        }
    }

    // The region beside the edge on this side, which goes over a diagonal from where that begins to v and on to a, and the rest,
    // which goes on from v to b.
    fn split_from(
        self,
        alloc: Global,
        side: Side,
        v: u32,
        a: u32,
        b: u32,
    ) -> Result<(Region, Region), Memory>
        requires { 2 ≤ length (seen_from side self).lower }
        ensures beside { IfOk result (λ parts. parts.0 ≡ beside_front side self v a) }
        ensures past { IfOk result (λ parts. parts.1 ≡ past_diagonal side self v b) }
    {
        let Region { lower, upper } = self.seen_from(side);
        let (from, to) = front_of(&lower);
        let beside = Region {
            lower: two(alloc, from, to)?,
            upper: three(alloc, from, v, a)?,
        };
        let past = Region {
            lower: turned_to(lower, v, b)?,
            upper,
        };
        Ok((beside.seen_from(side), past.seen_from(side)))
    }

    // The region with the chain on this side for its lower one.
    fn seen_from(self, side: Side) -> Region
        ensures { result ≡ seen_from side self }
    {
        match side {
            Side::Lower => self,
            Side::Upper => Region {
                lower: self.upper,
                upper: self.lower,
            },
        }
    }
}
