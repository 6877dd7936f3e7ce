// The rules that hold at each inner place.
ghost use Rattle.std.specs.Prelude.{◌≡◌, ◌+◌, ◌*◌, ◌-◌, ◌<◌, ◌≤◌, ◌↔◌, ◌⊎◌, IsTrue, IfSome, IfNone, length};
ghost use Rattle.plane.specs.Point.{Point, whole};
ghost use Rattle.rings.specs.Bend.{AreNeighbours, IsReflexVertex};
ghost use Rattle.rings.specs.Chain.{IsInner, point_at};
ghost use Rattle.rings.specs.Orientation.{IsReflex};
ghost use Rattle.rings.specs.Ring.{vertex};
ghost use Rattle.taut_check.specs.Found.{IsNoReflexBefore};
ghost use Rattle.taut_check.specs.Verdict.{HasNoTurn, IsOnWrongSide};

use crate::chain::point;
use exact_plane::{Direction, Pt, Steps, in_cone, order, turns_to};
use ring_check::Ring;
use std::cmp::Ordering;
use std::sync::ledger::Ledger;

// Whether place `k` has a place before it and one after it.
pub fn is_inner(points: &[Pt], k: usize) -> bool
    requires { k < length points.now }
    ensures { IsTrue result ↔ IsInner points.now k }
{
    0 < k && k < points.len() - 1
}

// The number of the reflex vertex that is this point, if there is one. It takes at most two steps a vertex.
pub fn reflex_vertex<L: Ledger>(ring: &Ring, p: &Pt, steps: &mut Steps<L>) -> Option<u32>
    ensures range { IfSome result (λ i. i < length ring.now.corners) }
    ensures vertex { IfSome result (λ i. vertex ring.now.corners i ≡ p.now) }
    ensures reflex { IfSome result (λ i. IsReflex ring.now.corners i) }
    ensures none { IfNone result (¬ IsReflexVertex ring.now.corners p.now) }
    ensures steps { steps.new ≤ steps.old + 2 * length ring.now.corners }
{
    for i in 0..ring.len() {
        if is_reflex_at(ring, i, p, steps) {
            return Some(i);
        }
    }
    None
}

// Whether vertex `i` is this point, and reflex.
fn is_reflex_at<L: Ledger>(ring: &Ring, i: u32, p: &Pt, steps: &mut Steps<L>) -> bool
    requires { i < length ring.now.corners }
    ensures reflex { IsTrue result ↔ ((vertex ring.now.corners i ≡ p.now) × IsReflex ring.now.corners i) }
    ensures steps { steps.new ≤ steps.old + 2 }
{
    order(&ring.corner(i), p, steps) == Ordering::Equal && ring.is_reflex(i, steps)
}

// Whether the point at place `k` is on one line with the points beside it.
pub fn has_no_turn<L: Ledger>(points: &[Pt], k: usize, steps: &mut Steps<L>) -> bool
    requires { IsInner points.now k }
    ensures straight { IsTrue result ↔ HasNoTurn points.now k }
    ensures steps { steps.new ≡ steps.old + 1 }
{
    let (p, v, q) = (point(points, k - 1), point(points, k), point(points, k + 1));
    turns_to(Direction::Straight, &v, &p, &q, steps)
}

// Whether a ring neighbour of the point at place `k`, vertex `i` of the ring, is outside the closed cone between the
// rays to the points beside it.
pub fn is_on_wrong_side<L: Ledger>(
    ring: &Ring,
    i: u32,
    points: &[Pt],
    k: usize,
    steps: &mut Steps<L>,
) -> bool
    requires inner { IsInner points.now k }
    requires range { i < length ring.now.corners }
    requires vertex { vertex ring.now.corners i ≡ point_at points.now k }
    requires turns { ¬ HasNoTurn points.now k }
    ensures wrong { IsTrue result ↔ IsOnWrongSide ring.now.corners points.now k }
    ensures steps { steps.new ≤ steps.old + 6 }
{
    let (p, v, q) = (point(points, k - 1), point(points, k), point(points, k + 1));
    let (before, after) = neighbours(ring, i);
    if !in_cone(&v, &p, &q, &before, steps) {
        return true;
    }
    !in_cone(&v, &p, &q, &after, steps)
}

// The two ring neighbours of vertex `i`.
fn neighbours(ring: &Ring, i: u32) -> (Pt, Pt)
    requires { i < length ring.now.corners }
    ensures { (u : Point) → AreNeighbours ring.now.corners (vertex ring.now.corners i) u ↔ ((u ≡ result.0) ⊎ (u ≡ result.1)) }
{
    let _ring_is_simple = ring.len();
    (ring.previous(i), ring.next(i))
}
