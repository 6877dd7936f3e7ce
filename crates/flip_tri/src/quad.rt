// The quadrilateral of two triangles with a common side.
ghost use Rattle.std.specs.Prelude.{◌≡◌, ◌+◌, ◌≤◌, ◌↔◌, IsTrue, length};
ghost use Rattle.plane.specs.Order.{IsBefore};
ghost use Rattle.flip_tri.specs.Flips.{IsQuadBelow, IsConvexFrom, IsQuadToFlip};

use exact_plane::{Direction, Pt, Steps, order, turn};
use meshes::Tri;
use ring_check::Ring;
use std::cmp::Ordering;
use std::sync::ledger::Ledger;

// The common side goes from `from` to `to`, with the corner `left` of the one triangle on its left, and `right` of the other one on
// its right.
#[derive(Clone, Copy)]
pub(crate) struct Quad {
    pub from: u32,
    pub to: u32,
    pub left: u32,
    pub right: u32,
}

impl Quad {
    // Whether the common side is to be flipped: the least of the four corners is an end of it, and the quadrilateral turns left at
    // the other one. It takes at most 4 steps.
    pub(crate) fn is_to_flip<L: Ledger>(&self, ring: &Ring, steps: &mut Steps<L>) -> bool
        requires { IsQuadBelow (length ring.now.corners) self.now }
        ensures flip { IsTrue result ↔ IsQuadToFlip ring.now.corners self.now }
        ensures steps { steps.new ≤ steps.old + 4 }
    {
        let (from, to) = (ring.corner(self.from), ring.corner(self.to));
        let (left, right) = (ring.corner(self.left), ring.corner(self.right));
        if is_before(&from, &to, steps) {
            is_convex_from(&from, &right, &to, &left, steps)
        } else {
            is_convex_from(&to, &left, &from, &right, steps)
        }
    }

    // The triangles beside the other diagonal: that with the corner `from`, and that with `to`.
    pub(crate) fn flipped(&self) -> (Tri, Tri)
        ensures first { result.0 ≡ record { a = self.now.from; b = self.now.right; c = self.now.left } }
        ensures second { result.1 ≡ record { a = self.now.right; b = self.now.to; c = self.now.left } }
    {
        let first = Tri {
            a: self.from,
            b: self.right,
            c: self.left,
        };
        let second = Tri {
            a: self.right,
            b: self.to,
            c: self.left,
        };
        (first, second)
    }
}

// Whether a point comes before both `c` and `d`, and the turn from `d` over `j` to `c` is to the left.
#[tactic(auto, using(exact_plane::proofs::Directions::left_of_positive, exact_plane::proofs::Directions::positive_of_left))]
fn is_convex_from<L: Ledger>(i: &Pt, d: &Pt, j: &Pt, c: &Pt, steps: &mut Steps<L>) -> bool
    ensures convex { IsTrue result ↔ IsConvexFrom i.now d.now j.now c.now }
    ensures steps { steps.new ≤ steps.old + 3 }
{
    is_before(i, c, steps) && is_before(i, d, steps) && turn(d, j, c, steps) == Direction::Left
}

// Whether a point comes before another one. It takes one step.
fn is_before<L: Ledger>(p: &Pt, q: &Pt, steps: &mut Steps<L>) -> bool
    ensures before { IsTrue result ↔ IsBefore p.now q.now }
    ensures steps { steps.new ≡ steps.old + 1 }
{
    order(p, q, steps) == Ordering::Less
}
