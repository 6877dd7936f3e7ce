// The triangle that holds a point: the first of all, in one pass over them. A hierarchy over the triangles mostly ends the pass early.
ghost use Rattle.std.specs.Prelude.{◌≡◌, min, ◌+◌, ◌-◌, ◌*◌, ◌<◌, ◌≤◌, ◌^◌, ◌↔◌, ℕ, IfSome, IsNone, IsTrue, length};
ghost use Rattle.plane.specs.Point.{whole};
ghost use Rattle.plane.specs.Segment.{On};
ghost use Rattle.plane.specs.Turn.{IsLeft};
ghost use Rattle.rings.specs.Inside.{IsIn};
ghost use Rattle.rings.specs.Ring.{vertex};
ghost use Rattle.meshes.specs.Fits.{Fits, IsInTri, IsStrictlyInTri};
ghost use Rattle.meshes.specs.Mesh.{side_begin, side_end};
ghost use Rattle.meshes.specs.Side.{tri_at, HasCorner};
ghost use Rattle.dual_tree.specs.Location.{IsCornered, IsLeastHolding};

use crate::search::go_on;
use exact_plane::{Direction, Pt, Steps, is_apart, is_right_of_none, order, turn};
use meshes::Tri;
use ring_check::Ring;
use std::cmp::Ordering;
use std::sync::ledger::Ledger;
use tri_mesh::{Mesh, triangle_at};
use triangle_boxes::Cursor;

/// Returns the least triangle that holds `p`, its sides included, or none where `p` is not in the ring. It takes O(n) steps, at most 3
/// for each of the n - 2 triangles.
#[tactic(auto, using(crate::proofs::LocationFits::places))]
pub fn locate<L: Ledger>(mesh: &Mesh, ring: &Ring, p: &Pt, steps: &mut Steps<L>) -> Option<u32>
    requires { Fits ring.now.corners mesh.now }
    ensures least { IfSome result (IsLeastHolding ring.now.corners mesh.now (whole p.now)) }
    ensures none { IsNone result ↔ ¬ (IsIn ring.now.corners (whole p.now)) }
    ensures steps { steps.new ≤ steps.old + 3 * (length ring.now.corners - 2) }
{
    let mut cursor = Cursor::new();
    for i in 0..mesh.count() {
        let (is_held, spared) = holds(ring, &mesh.tri(i), p, steps);
        if is_held {
            return Some(i);
        }
        cursor.spared += spared;
        if let Some(k) = go_on(&mut cursor, mesh, ring, p, steps) {
            return Some(least_beside(mesh, ring, k, p, steps));
        }
    }
    None
}

// Returns whether the point is in the closed triangle, and how many of three steps are spared.
pub(crate) fn holds<L: Ledger>(ring: &Ring, tri: &Tri, p: &Pt, steps: &mut Steps<L>) -> (bool, u32)
    requires { IsCornered ring.now.corners tri.now }
    ensures holds { IsTrue result.0 ↔ IsInTri ring.now.corners tri.now (whole p.now) }
    ensures few { result.1 ≤ 2 }
    ensures paid { steps.new + result.1 ≤ steps.old + 3 }
{
    let (a, b, c) = corners_of(ring, tri);
    if is_apart(a, b, c, p, steps) {
        (false, 2)
    } else {
        (is_right_of_none(a, b, c, p, steps), 0)
    }
}

// The least triangle that holds the point, by one that does. Where the point is a corner of this one, it is the least with the
// corner, and where it is on a side, this one or the one across the side. It takes at most 6 steps.
#[tactic(auto, using(crate::proofs::LocationFits::places))]
fn least_beside<L: Ledger>(mesh: &Mesh, ring: &Ring, k: u32, p: &Pt, steps: &mut Steps<L>) -> u32
    requires fits { Fits ring.now.corners mesh.now }
    requires within { k < length mesh.now }
    requires held { IsInTri ring.now.corners (tri_at mesh.now k) (whole p.now) }
    ensures least { IsLeastHolding ring.now.corners mesh.now (whole p.now) result }
    ensures steps { steps.new ≤ steps.old + 6 }
{
    if let Some(v) = corner_at(mesh, ring, k, p, steps) {
        return triangle_at(mesh, v);
    }
    match side_at(mesh, ring, k, p, steps) {
        Some(side) => lesser(k, mesh.across(k, side)),
        None => k,
    }
}

// The lesser of a number and another one, if there is one.
fn lesser(k: u32, other: Option<u32>) -> u32
    ensures alone { IsNone other → result ≡ k }
    ensures both { IfSome other (λ l. result ≡ min k l) }
{
    other.map_or(k, |l| l.min(k))
}

// The corner of a triangle that the point is, if it is one. It takes at most 3 steps.
#[tactic(auto, using(crate::proofs::LocationFits::places))]
fn corner_at<L: Ledger>(
    mesh: &Mesh,
    ring: &Ring,
    k: u32,
    p: &Pt,
    steps: &mut Steps<L>,
) -> Option<u32>
    requires fits { Fits ring.now.corners mesh.now }
    requires within { k < length mesh.now }
    ensures corner { IfSome result (HasCorner (tri_at mesh.now k)) }
    ensures point { IfSome result (λ v. p.now ≡ vertex ring.now.corners v) }
    ensures none { IsNone result → (v : ℕ) → HasCorner (tri_at mesh.now k) v → ¬ (p.now ≡ vertex ring.now.corners v) }
    ensures steps { steps.new ≤ steps.old + 3 }
{
    let tri = mesh.tri(k);
    let (a, b, c) = corners_of(ring, &tri);
    if order(p, a, steps) == Ordering::Equal {
        Some(tri.a)
    } else if order(p, b, steps) == Ordering::Equal {
        Some(tri.b)
    } else if order(p, c, steps) == Ordering::Equal {
        Some(tri.c)
    } else {
        None
    }
}

// The side of a triangle on which the point is, which the triangle holds; none where it is left of all sides. It takes at most
// 3 steps.
#[tactic(auto, using(crate::proofs::LocationFits::places))]
fn side_at<L: Ledger>(mesh: &Mesh, ring: &Ring, k: u32, p: &Pt, steps: &mut Steps<L>) -> Option<u32>
    requires fits { Fits ring.now.corners mesh.now }
    requires within { k < length mesh.now }
    requires held { IsInTri ring.now.corners (tri_at mesh.now k) (whole p.now) }
    ensures number { IfSome result (λ side. side < 3) }
    ensures on { let t = tri_at mesh.now k in IfSome result (λ side.
        On (whole p.now) (whole (vertex ring.now.corners (side_begin t side))) (whole (vertex ring.now.corners (side_end t side)))) }
    ensures strictly { IsNone result → IsStrictlyInTri ring.now.corners (tri_at mesh.now k) (whole p.now) }
    ensures steps { steps.new ≤ steps.old + 3 }
{
    let (a, b, c) = corners_of(ring, &mesh.tri(k));
    if !is_left(a, b, p, steps) {
        Some(0)
    } else if !is_left(b, c, p, steps) {
        Some(1)
    } else if !is_left(c, a, p, steps) {
        Some(2)
    } else {
        None
    }
}

// Whether the point is left of the line from `a` to `b`. It takes one step.
fn is_left<L: Ledger>(a: &Pt, b: &Pt, p: &Pt, steps: &mut Steps<L>) -> bool
    ensures left { IsTrue result ↔ IsLeft (whole a.now) (whole b.now) (whole p.now) }
    ensures steps { steps.new ≡ steps.old + 1 }
{
    match turn(a, b, p, steps) {
        Direction::Left => true,
        _ => false,
    }
}

// The corners of the triangle.
pub(crate) fn corners_of<'a>(ring: &'a Ring, tri: &Tri) -> (&'a Pt, &'a Pt, &'a Pt)
    requires { IsCornered ring.now.corners tri.now }
    ensures counterclockwise { IsLeft (whole result.0.now) (whole result.1.now) (whole result.2.now) }
    ensures a { result.0.now ≡ vertex ring.now.corners tri.now.a }
    ensures b { result.1.now ≡ vertex ring.now.corners tri.now.b }
    ensures c { result.2.now ≡ vertex ring.now.corners tri.now.c }
{
    let corners = ring.corners();
    let a = &corners[tri.a as usize];
    let b = &corners[tri.b as usize];
    let c = &corners[tri.c as usize];
    (a, b, c)
}
