// The verdict on a list of points, by the paths between some of them.
ghost use Rattle.std.specs.Prelude.{◌≡◌, ◌↔◌, ◌+◌, ◌-◌, ◌*◌, ◌≤◌, List, IfNone, IfOk, IfSome, IsTrue, length};
ghost use Rattle.plane.specs.Point.{whole};
ghost use Rattle.plane.specs.declared.limits.TheConstants.{MAX_CHAIN};
ghost use Rattle.rings.specs.Chain.{IsBentChain, IsPath};
ghost use Rattle.rings.specs.Inside.{IsIn};
ghost use Rattle.shared_seq.specs.Digits.{binary_digits};
ghost use Rattle.ring_check.specs.Oriented.{given_of};
ghost use Rattle.taut_check.specs.Sound.{AreSoundBefore};
ghost use Rattle.taut_check.specs.Verdict.{IsVerdict};
ghost use Rattle.geo_session.specs.Paced.{check_steps};
ghost use Rattle.geo_session.specs.Told.{Tells};

use crate::held::Held;
use dual_tree::{locate, sleeve};
use exact_plane::{Memory, Pt, Steps, order};
use geo_reply::Reply;
use inside_test::holds_segment_within;
use std::alloc::Global;
use std::cmp::Ordering;
use std::sync::ledger::Ledger;
use taut_check::{Sight, check_from};

// A segment that meets the edges at more points, its ends among them, is not placed between them: a walk tells sooner.
const FEW: usize = 3;

impl Held {
    // The verdict on a list of points. Where it is the path between its ends, one walk tells; else a search by halves finds a part of it
    // that is one, and the rules are looked at from the end of that on.
    pub(crate) fn judge<L: Ledger>(
        &self,
        alloc: Global,
        points: &[Pt],
        steps: &mut Steps<L>,
    ) -> Result<Reply, Memory>
        requires { length points.now ≤ MAX_CHAIN }
        ensures verdict { IfOk result (Tells Reply.Verdict (IsVerdict (given_of self.now.ring) points.now)) }
        ensures steps { steps.new ≤ steps.old + check_steps (length self.now.ring.corners) (length points.now) }
    {
        let taut = if self.is_path(alloc, points, steps)? {
            points.len()
        } else {
            self.taut_part(alloc, points, steps)?
        };
        let verdict = check_from(
            alloc,
            &self.ring,
            self,
            points,
            taut.saturating_sub(1),
            steps,
        )?;
        Ok(Reply::Verdict(verdict))
    }

    // How many points, from the first on, a search by halves finds to keep every rule up to the last. A part that follows on two of these
    // points keeps them too where it is a path.
    fn taut_part<L: Ledger>(
        &self,
        alloc: Global,
        points: &[Pt],
        steps: &mut Steps<L>,
    ) -> Result<usize, Memory>
        ensures within { IfOk result (λ taut. taut ≤ length points.now) }
        ensures sound { IfOk result (λ taut. AreSoundBefore self.now.ring.corners points.now (taut - 1)) }
        ensures steps { let n = length self.now.ring.corners in let m = length points.now in
            steps.new ≤ steps.old + binary_digits m * (5300 * n + m) }
    {
        let (mut taut, mut over) = (0, points.len());
        while taut + 1 < over {
            let middle = taut + (over - taut) / 2;
            if self.is_path(alloc, &points[taut.saturating_sub(2)..middle], steps)? {
                taut = middle;
            } else {
                over = middle;
            }
        }
        Ok(taut)
    }

    // Whether some points are the path from the first to the last. Two that differ are where they see each other.
    fn is_path<L: Ledger>(
        &self,
        alloc: Global,
        points: &[Pt],
        steps: &mut Steps<L>,
    ) -> Result<bool, Memory>
        ensures bent { IfOk result (λ is_path. IsTrue is_path → IsBentChain self.now.ring.corners points.now) }
        ensures steps { steps.new ≤ steps.old + (5300 * length self.now.ring.corners + length points.now) }
    {
        if points.is_empty() {
            return Ok(false);
        }
        let (first, last) = (points[0], points[points.len() - 1]);
        if points.len() == 2 {
            return Ok(!is_same(&first, &last, steps) && self.sees(alloc, &first, &last, steps)?);
        }
        match self.path_in(alloc, &first, &last, steps)? {
            Some(path) => Ok(are_same(&path, points, steps)),
            None => Ok(false),
        }
    }

    // The path from one point to another, if both are in the polygon.
    fn path_in<L: Ledger>(
        &self,
        alloc: Global,
        s: &Pt,
        t: &Pt,
        steps: &mut Steps<L>,
    ) -> Result<Option<Vec<Pt>>, Memory>
        ensures path { IfOk result (λ found. IfSome found (λ path. IsPath self.now.ring.corners s.now t.now path.items)) }
        ensures none { IfOk result (λ found. IfNone found (¬ (IsIn self.now.ring.corners (whole s.now) × IsIn self.now.ring.corners (whole t.now)))) }
        ensures steps { steps.new ≤ steps.old + 10 * length self.now.ring.corners }
    {
        let Some(from) = locate(&self.mesh, &self.ring, s, steps) else {
            return Ok(None);
        };
        let Some(to) = locate(&self.mesh, &self.ring, t, steps) else {
            return Ok(None);
        };
        let sleeve = sleeve(alloc, &self.mesh, from, to)?;
        let path = self.chain_along(alloc, &sleeve, s, t, steps)?;
        Ok(Some(path))
    }
}

// A segment that meets few edges is placed between them. Otherwise two points see each other where the path has no other point.
impl Sight for Held {
    ghost is_of = { λ held ring. held.ring.corners ≡ ring };

    ghost asks = { λ held most. 5300 * length held.ring.corners ≤ most };

    fn sees<L: Ledger>(
        &self,
        alloc: Global,
        p: &Pt,
        q: &Pt,
        steps: &mut Steps<L>,
    ) -> Result<bool, Memory> {
        let _ring_is_simple = self.ring.len();
        if let Some(sees) = holds_segment_within(alloc, &self.ring, p, q, FEW, steps)? {
            return Ok(sees);
        }
        match self.path_in(alloc, p, q, steps)? {
            Some(path) => Ok(path.len() <= 2),
            None => Ok(false),
        }
    }
}

// Whether two lists have the same points.
fn are_same<L: Ledger>(points: &[Pt], others: &[Pt], steps: &mut Steps<L>) -> bool
    ensures same { IsTrue result → points.now ≡ others.now }
    ensures steps { steps.new ≤ steps.old + length others.now }
{
    if points.len() != others.len() {
        return false;
    }
    for k in 0..points.len() {
        if !is_same(&points[k], &others[k], steps) {
            return false;
        }
    }
    true
}

// Whether two points are the same.
fn is_same<L: Ledger>(p: &Pt, q: &Pt, steps: &mut Steps<L>) -> bool
    ensures same { IsTrue result ↔ (p.now ≡ q.now) }
    ensures steps { steps.new ≡ steps.old + 1 }
{
    order(p, q, steps) == Ordering::Equal
}
