ghost use Rattle.std.specs.Prelude.{◌≡◌, ◌+◌, ◌≤◌, ◌↔◌, IsTrue, false};
ghost use Rattle.plane.specs.Beside.{IsBeside};
ghost use Rattle.plane.specs.Box.{BoxesMeet};
ghost use Rattle.plane.specs.Order.{IsBetween, IsBeyond};
ghost use Rattle.plane.specs.Point.{whole};
ghost use Rattle.plane.specs.Segment.{Meet, MeetElsewhere, MeetOnlyAt, On};

use crate::direction::{Direction, turn, turns};
use crate::pt::{Pt, order};
use crate::steps::Steps;
use std::cmp::Ordering;
use std::sync::ledger::Ledger;

/// Whether `p` is on the segment from `a` to `b`. It takes 1 to 3 steps.
pub fn on_segment<L: Ledger>(p: &Pt, a: &Pt, b: &Pt, steps: &mut Steps<L>) -> bool
    ensures on { IsTrue result ↔ On (whole p.now) (whole a.now) (whole b.now) }
    ensures steps_least { steps.old + 1 ≤ steps.new }
    ensures steps_most { steps.new ≤ steps.old + 3 }
{
    turns(Direction::Straight, a, b, p, steps) && is_between(a, p, b, steps)
}

/// Whether a rational point is on both segments, from `a` to `b` and from `c` to `d`. It takes 1 to 16 steps: one
/// where their boxes are apart.
pub fn segments_meet<L: Ledger>(a: &Pt, b: &Pt, c: &Pt, d: &Pt, steps: &mut Steps<L>) -> bool
    ensures meet { IsTrue result ↔ Meet (whole a.now) (whole b.now) (whole c.now) (whole d.now) }
    ensures steps_least { steps.old + 1 ≤ steps.new }
    ensures steps_most { steps.new ≤ steps.old + 16 }
{
    if !boxes_meet(a, b, c, d, steps) {
        return false;
    }
    if is_beside(a, b, c, d, steps) {
        return false;
    }
    !is_beside(c, d, a, b, steps)
}

/// Whether every rational point on both segments, from `a` to `b` and from `b` to `c`, is `b`. It takes 1 to 8 steps.
pub fn meet_only_at<L: Ledger>(a: &Pt, b: &Pt, c: &Pt, steps: &mut Steps<L>) -> bool
    ensures only { IsTrue result ↔ MeetOnlyAt (whole a.now) (whole b.now) (whole c.now) }
    ensures elsewhere { result ≡ false → MeetElsewhere (whole a.now) (whole b.now) (whole c.now) }
    ensures steps_least { steps.old + 1 ≤ steps.new }
    ensures steps_most { steps.new ≤ steps.old + 8 }
{
    !turns(Direction::Straight, a, b, c, steps) || is_between(a, b, c, steps)
}

// Whether `b` comes between `a` and `c`, or with one of them, in the order of points. It takes two steps. Along a line
// this is the order on the line.
fn is_between<L: Ledger>(a: &Pt, b: &Pt, c: &Pt, steps: &mut Steps<L>) -> bool
    ensures between { IsTrue result ↔ IsBetween a.now b.now c.now }
    ensures outside { result ≡ false → IsBeyond a.now b.now c.now }
    ensures steps { steps.new ≡ steps.old + 2 }
{
    let (to_b, from_b) = (order(a, b, steps), order(b, c, steps));
    to_b == from_b || to_b == Ordering::Equal || from_b == Ordering::Equal
}

// Whether the bounding boxes of the two segments share a point. It takes one step.
fn boxes_meet<L: Ledger>(a: &Pt, b: &Pt, c: &Pt, d: &Pt, steps: &mut Steps<L>) -> bool
    ensures meet { IsTrue result ↔ BoxesMeet a.now b.now c.now d.now }
    ensures steps { steps.new ≡ steps.old + 1 }
{
    steps.tick();
    a.boxes_meet(b, c, d)
}

// Whether `c` and `d` lie strictly on one side of the line from `a` to `b`. It takes 1 or 2 steps.
fn is_beside<L: Ledger>(a: &Pt, b: &Pt, c: &Pt, d: &Pt, steps: &mut Steps<L>) -> bool
    ensures beside { IsTrue result ↔ IsBeside a.now b.now c.now d.now }
    ensures steps_least { steps.old + 1 ≤ steps.new }
    ensures steps_most { steps.new ≤ steps.old + 2 }
{
    match turn(a, b, c, steps) {
        Direction::Straight => false,
        side => turns(side, a, b, d, steps),
    }
}
