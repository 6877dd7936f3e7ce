ghost use Rattle.std.specs.Prelude.{◌≡◌, ◌+◌, ◌≤◌, ◌↔◌, IsTrue};
ghost use Rattle.plane.specs.Point.{whole};
ghost use Rattle.plane.specs.Triangle.{IsInTriangle};
ghost use Rattle.plane.specs.Turn.{IsLeft, IsRight};

use crate::pt::Pt;
use crate::steps::Steps;
use std::sync::ledger::Ledger;

/// Returns whether `p` is in the closed triangle `abc`, whose corners run counterclockwise. It takes 1 to 3 steps: one, by
/// comparisons alone, where `p` is outside the bounding box of the corners.
pub fn in_triangle<L: Ledger>(a: &Pt, b: &Pt, c: &Pt, p: &Pt, steps: &mut Steps<L>) -> bool
    requires counterclockwise { IsLeft (whole a.now) (whole b.now) (whole c.now) }
    ensures triangle { IsTrue result ↔ IsInTriangle a.now b.now c.now (whole p.now) }
    ensures steps_least { steps.old + 1 ≤ steps.new }
    ensures steps_most { steps.new ≤ steps.old + 3 }
{
    !is_apart(a, b, c, p, steps) && is_right_of_none(a, b, c, p, steps)
}

/// Returns whether `p` is outside the bounding box of the triangle `abc`, whose corners run counterclockwise: then it is not in
/// the triangle. It takes one step.
pub fn is_apart<L: Ledger>(a: &Pt, b: &Pt, c: &Pt, p: &Pt, steps: &mut Steps<L>) -> bool
    requires counterclockwise { IsLeft (whole a.now) (whole b.now) (whole c.now) }
    ensures apart { IsTrue result → ¬ IsInTriangle a.now b.now c.now (whole p.now) }
    ensures steps { steps.new ≡ steps.old + 1 }
{
    steps.tick();
    p.is_outside_box(a, b, c)
}

/// Returns whether `p` is right of no side of the triangle `abc`: in the closed triangle, if the corners run counterclockwise. It
/// takes two steps.
// A search among triangles seldom comes here, so it is kept out of its loop.
#[inline(never)]
pub fn is_right_of_none<L: Ledger>(a: &Pt, b: &Pt, c: &Pt, p: &Pt, steps: &mut Steps<L>) -> bool
    ensures triangle { IsTrue result ↔ IsInTriangle a.now b.now c.now (whole p.now) }
    ensures steps { steps.new ≡ steps.old + 2 }
{
    steps.add(2);
    !is_right(a, b, p) && !is_right(b, c, p) && !is_right(c, a, p)
}

// Whether `p` is right of the line from `a` to `b`.
#[tactic(auto, using(crate::proofs::CrossProduct::cross_is_determinant))]
fn is_right(a: &Pt, b: &Pt, p: &Pt) -> bool
    ensures { IsTrue result ↔ IsRight (whole a.now) (whole b.now) (whole p.now) }
{
    a.to(b).cross(a.to(p)) < 0
}
