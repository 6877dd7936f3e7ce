ghost use Rattle.std.specs.Prelude.{◌≡◌, ◌+◌, ◌≤◌, Some};
ghost use Rattle.meshes.specs.Cone.{is_left, is_off, is_right, narrowed, narrowed_left, narrowed_right, ray_to_end};

use exact_plane::{Direction, Pt, Steps, turn};
use std::marker::Model;
use std::sync::ledger::Ledger;

// A closed cone at a point, by a point on each of its two rays. It is one ray where the two are in line with the point,
// and all points where both are the point itself.
#[derive(Clone, Copy)]
pub(crate) struct Cone {
    pub left: Pt,
    pub right: Pt,
}

impl Model for Cone {
    ghost use Rattle.meshes.specs.Cone.{Cone};

    ghost Value = { Cone };

    ghost view = { λ cone. record { left = cone.left; right = cone.right } };

    ghost inverse = { λ cone. record { left = cone.left; right = cone.right } };
}

// What a point sees of the triangle beyond a side, by the cone of the triangle before it. The side goes from `r` to `l`, and
// the triangle before it is on the left. It takes at most 5 steps.
pub(crate) fn narrowed<L: Ledger>(
    q: &Pt,
    cone: &Option<Cone>,
    l: &Pt,
    r: &Pt,
    steps: &mut Steps<L>,
) -> Option<Cone>
    ensures cone { result ≡ narrowed q.now cone.now l.now r.now }
    ensures steps { steps.new ≤ steps.old + 5 }
{
    match cone {
        Some(cone) => narrow(q, cone, l, r, steps),
        None => None,
    }
}

// The same where there is a cone.
fn narrow<L: Ledger>(q: &Pt, cone: &Cone, l: &Pt, r: &Pt, steps: &mut Steps<L>) -> Option<Cone>
    ensures cone { result ≡ narrowed q.now (Some cone.now) l.now r.now }
    ensures steps { steps.new ≤ steps.old + 5 }
{
    if is_right(q, r, l, steps) {
        return ray_to_end(q, cone, l, r, steps);
    }
    if is_left(q, &cone.left, r, steps) || is_right(q, &cone.right, l, steps) {
        return None;
    }
    Some(Cone {
        left: narrowed_left(q, &cone.left, l, steps),
        right: narrowed_right(q, &cone.right, r, steps),
    })
}

// The ray to an end of a side, where a cone holds it. It takes at most 4 steps.
fn ray_to_end<L: Ledger>(q: &Pt, cone: &Cone, l: &Pt, r: &Pt, steps: &mut Steps<L>) -> Option<Cone>
    ensures cone { result ≡ ray_to_end q.now cone.now l.now r.now }
    ensures steps { steps.new ≤ steps.old + 4 }
{
    if !is_off(q, cone, l, steps) {
        Some(ray_to(l))
    } else if !is_off(q, cone, r, steps) {
        Some(ray_to(r))
    } else {
        None
    }
}

// The ray to a point.
fn ray_to(p: &Pt) -> Cone
    ensures { result ≡ record { left = p.now; right = p.now } }
{
    Cone {
        left: *p,
        right: *p,
    }
}

// Whether a cone does not hold a point. It takes at most 2 steps.
fn is_off<L: Ledger>(q: &Pt, cone: &Cone, x: &Pt, steps: &mut Steps<L>) -> bool
    ensures off { result ≡ is_off q.now cone.now x.now }
    ensures steps { steps.new ≤ steps.old + 2 }
{
    is_left(q, &cone.left, x, steps) || is_right(q, &cone.right, x, steps)
}

// The left point of a cone, narrowed to a side with the left end `l`. It takes one step.
fn narrowed_left<L: Ledger>(q: &Pt, left: &Pt, l: &Pt, steps: &mut Steps<L>) -> Pt
    ensures point { result ≡ narrowed_left q.now left.now l.now }
    ensures steps { steps.new ≡ steps.old + 1 }
{
    if is_left(q, left, l, steps) {
        *left
    } else {
        *l
    }
}

// The right point of a cone, narrowed to a side with the right end `r`. It takes one step.
fn narrowed_right<L: Ledger>(q: &Pt, right: &Pt, r: &Pt, steps: &mut Steps<L>) -> Pt
    ensures point { result ≡ narrowed_right q.now right.now r.now }
    ensures steps { steps.new ≡ steps.old + 1 }
{
    if is_right(q, right, r, steps) {
        *right
    } else {
        *r
    }
}

// Whether the turn from `q` over `a` to `b` is to the left. It takes one step.
fn is_left<L: Ledger>(q: &Pt, a: &Pt, b: &Pt, steps: &mut Steps<L>) -> bool
    ensures left { result ≡ is_left q.now a.now b.now }
    ensures steps { steps.new ≡ steps.old + 1 }
{
    turn(q, a, b, steps) == Direction::Left
}

// Whether it is to the right. It takes one step.
fn is_right<L: Ledger>(q: &Pt, a: &Pt, b: &Pt, steps: &mut Steps<L>) -> bool
    ensures right { result ≡ is_right q.now a.now b.now }
    ensures steps { steps.new ≡ steps.old + 1 }
{
    turn(q, a, b, steps) == Direction::Right
}
