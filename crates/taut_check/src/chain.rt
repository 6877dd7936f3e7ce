// The rules that hold at each place.
ghost use Rattle.std.specs.Prelude.{◌≡◌, ◌+◌, ◌*◌, ◌<◌, ◌≤◌, ◌^◌, ◌↔◌, ℕ, IsTrue, IfOk, List, length};
ghost use Rattle.plane.specs.Point.{Point};
ghost use Rattle.rings.specs.Chain.{point_at};
ghost use Rattle.rings.specs.Inside.{IsIn};
ghost use Rattle.taut_check.specs.Found.{IsSeenAt};
ghost use Rattle.taut_check.specs.Verdict.{IsLeaving, IsRepeat};

use crate::sight::Sight;
use exact_plane::{Memory, Pt, Steps, order};
use std::alloc::Global;
use std::cmp::Ordering;
use std::sync::ledger::Ledger;

// The point at place `k`.
pub fn point(points: &[Pt], k: usize) -> Pt
    requires { k < length points.now }
    ensures { result ≡ point_at points.now k }
{
    points[k]
}

// Whether the point at place `k` is the same as the next.
pub fn is_repeat<L: Ledger>(points: &[Pt], k: usize, steps: &mut Steps<L>) -> bool
    requires { k < length points.now }
    ensures repeat { IsTrue result ↔ IsRepeat points.now k }
    ensures steps { steps.new ≤ steps.old + 1 }
{
    k < points.len() - 1
        && order(&point(points, k), &point(points, k + 1), steps) == Ordering::Equal
}

// Whether the point at place `k`, which the one before sees, is not in the ring, or does not see the next. A point that is seen is in the
// ring, and a lone one is where it sees itself.
pub fn is_leaving<S: Sight, L: Ledger>(
    alloc: Global,
    sight: &S,
    points: &[Pt],
    k: usize,
    steps: &mut Steps<L>,
) -> Result<bool, Memory>
    requires place { k < length points.now }
    ensures leaving { (ring : List Point) → S.is_of sight.now ring → IsSeenAt ring points.now k
        → IfOk result (λ leaving. IsTrue leaving ↔ IsLeaving ring points.now k) }
    ensures steps { (most : ℕ) → S.asks sight.now most → steps.new ≤ steps.old + most }
{
    let from = point(points, k);
    if k < points.len() - 1 {
        let to = point(points, k + 1);
        return Ok(!sight.sees(alloc, &from, &to, steps)?);
    }
    if 0 < k {
        return Ok(false);
    }
    Ok(!sight.sees(alloc, &from, &from, steps)?)
}
