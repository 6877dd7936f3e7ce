// The relative hull of some points in the polygon, and its round.
ghost use Rattle.std.specs.Prelude.{◌≤◌, ◌<◌, ◌+◌, ◌*◌, List, IfOk, length};
ghost use Rattle.plane.specs.Point.{Point};
ghost use Rattle.plane.specs.declared.limits.TheConstants.{MAX_HULL};
ghost use Rattle.geo_text.specs.Version.{by_version};
ghost use Rattle.ring_check.specs.Oriented.{given_of};
ghost use Rattle.rel_hull.specs.Table.{AreSides, table_points};
ghost use Rattle.geo_session.specs.Hull.{AreSidesOf};
ghost use Rattle.geo_session.specs.Paced.{hull_steps, round_steps};
ghost use Rattle.geo_session.specs.Round.{AreRound};
ghost use Rattle.geo_session.specs.Span.{AreSidesTold, IsSideTold, IsSpan};
ghost use Rattle.geo_session.specs.Told.{RepliesWithin, Tells};

use crate::held::Held;
use crate::span::{Span, at_places};
use exact_plane::{Memory, Pt, Steps};
use geo_reply::{Reply, Row, Side};
use geo_text::Version;
use rel_hull::{round, sides};
use std::alloc::Global;
use std::sync::ledger::Ledger;

impl Held {
    // The relative hull of some points, with what is told of its sides.
    pub(crate) fn hull<L: Ledger>(
        &self,
        alloc: Global,
        version: Version,
        points: &[Pt],
        steps: &mut Steps<L>,
    ) -> Result<Reply, Memory>
        requires some { 1 ≤ length points.now }
        requires few { length points.now ≤ MAX_HULL }
        ensures told { IfOk result (RepliesWithin (given_of self.now.ring) points.now (Tells Reply.Hull (AreSidesOf version (given_of self.now.ring) points.now))) }
        ensures steps { steps.new ≤ steps.old + hull_steps version (length self.now.ring.corners) (length points.now) }
    {
        let span = match self.span(alloc, points, steps)? {
            Ok(span) => span,
            Err(bad) => return Ok(Reply::Refused(bad)),
        };
        let pairs = sides(alloc, &self.ring, &span.chains, steps)?;
        let sides = self.told_sides(alloc, version, &span, &pairs, steps)?;
        Ok(Reply::Hull(Row::of(sides)))
    }

    // The round of the sides of the relative hull of some points, by their numbers.
    pub(crate) fn round<L: Ledger>(
        &self,
        alloc: Global,
        points: &[Pt],
        steps: &mut Steps<L>,
    ) -> Result<Reply, Memory>
        requires some { 1 ≤ length points.now }
        requires few { length points.now ≤ MAX_HULL }
        ensures told { IfOk result (RepliesWithin (given_of self.now.ring) points.now (Tells Reply.Round (AreRound (given_of self.now.ring) points.now))) }
        ensures steps { steps.new ≤ steps.old + round_steps (length self.now.ring.corners) (length points.now) }
    {
        let span = match self.span(alloc, points, steps)? {
            Ok(span) => span,
            Err(bad) => return Ok(Reply::Refused(bad)),
        };
        let places = round(alloc, &self.ring, &span.chains, steps)?;
        let numbers = at_places(alloc, &span.numbers, &places)?;
        Ok(Reply::Round(Row::of(numbers)))
    }

    // The sides between the numbered points at these places.
    fn told_sides<L: Ledger>(
        &self,
        alloc: Global,
        version: Version,
        span: &Span,
        pairs: &[(u32, u32)],
        steps: &mut Steps<L>,
    ) -> Result<Vec<Side>, Memory>
        requires { (points : List Point) × (IsSpan self.now.ring.corners self.now.tris points span.now × AreSides self.now.ring.corners (table_points span.now.chains) pairs.now) }
        ensures told { IfOk result (λ told. AreSidesTold version self.now.ring.corners span.now pairs.now (length pairs.now) told.items) }
        ensures steps { steps.new ≤ steps.old + length pairs.now * (by_version version 0 20 * length self.now.ring.corners) }
    {
        let mut told = Vec::with_capacity(alloc, pairs.len())?;
        for pair in pairs {
            told.push_reserved(self.told_side(alloc, version, span, *pair, steps)?);
        }
        Ok(told)
    }

    // One side.
    fn told_side<L: Ledger>(
        &self,
        alloc: Global,
        version: Version,
        span: &Span,
        pair: (u32, u32),
        steps: &mut Steps<L>,
    ) -> Result<Side, Memory>
        requires span { (points : List Point) × IsSpan self.now.ring.corners self.now.tris points span.now }
        requires ends { (pair.0 < length span.now.numbers.items) × (pair.1 < length span.now.numbers.items) }
        ensures told { IfOk result (IsSideTold version self.now.ring.corners span.now pair) }
        ensures steps { steps.new ≤ steps.old + by_version version 0 20 * length self.now.ring.corners }
    {
        let (start, end) = (span.numbers[pair.0 as usize], span.numbers[pair.1 as usize]);
        let tris = (span.tris[start as usize], span.tris[end as usize]);
        let chain = span.chains.chain(pair.0, pair.1).to_vec(alloc)?;
        let path = Row::of(self.shown(alloc, version, tris, chain, steps)?);
        Ok(Side { start, end, path })
    }
}
