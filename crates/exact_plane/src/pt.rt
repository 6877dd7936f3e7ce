ghost use Rattle.std.specs.Int.{int_max, int_min};
ghost use Rattle.std.specs.Ordering.{int_cmp};
ghost use Rattle.std.specs.Prelude.{◌≡◌, ◌+◌, ◌<◌, ◌^◌, ◌-ℤ◌, ◌<ℤ◌, ◌≤ℤ◌, ◌↔◌, IsSome, IsTrue, IfSome, unsigned_abs};
ghost use Rattle.plane.specs.Box.{BoxesMeet, IntervalsMeet};
ghost use Rattle.plane.specs.Order.{IsBefore};
ghost use Rattle.plane.specs.Point.{IsInBounds, IsInLimit};
ghost use Rattle.exact_plane.specs.Outside.{IsOutside, IsOutsideBox};

use crate::steps::Steps;
use crate::vector::Vector;
use plane::MAX_COORDINATE;
use std::cmp::Ordering;
use std::marker::Model;
use std::sync::ledger::Ledger;

/// A point with integer coordinates, each at most `MAX_COORDINATE` in size: x to the right, y upward. Predicates on it take steps,
/// and so does reading its coordinates.
#[derive(Clone, Copy)]
pub struct Pt {
    x: i32,
    y: i32,
}

impl Model for Pt {
    ghost use Rattle.plane.specs.Point.{Point, IsInBounds};

    ghost Value = { Point };

    ghost view = { λ p. record { x = p.x; y = p.y } };

    ghost invariant = { λ p. IsInBounds (record { x = p.x; y = p.y }) };

    ghost inverse = { λ p. record { x = p.x; y = p.y } };
}

impl Pt {
    /// The point, or `None` where a coordinate passes the limit. It takes no step.
    pub fn of(x: i64, y: i64) -> Option<Pt>
        ensures bounds { IsSome result ↔ (IsInLimit x × IsInLimit y) }
        ensures point { IfSome result (λ p. p ≡ record { x = x; y = y }) }
    {
        if is_in_limit(x) && is_in_limit(y) {
            Some(Pt {
                x: x as i32,
                y: y as i32,
            })
        } else {
            None
        }
    }

    /// The coordinates x and y. To hand them out is dear: it takes 64 steps.
    pub fn parts<L: Ledger>(&self, steps: &mut Steps<L>) -> (i64, i64)
        ensures x { result.0 ≡ self.now.x }
        ensures y { result.1 ≡ self.now.y }
        ensures bounds { IsInBounds self.now }
        ensures steps { steps.new ≡ steps.old + 64 }
    {
        steps.add(64);
        (self.x as i64, self.y as i64)
    }

    /// That the coordinates are within the limit. It does nothing when it runs, and takes no step.
    pub fn coordinate_bounds(&self)
        ensures { IsInBounds self.now }
    {
        let _ = &self.x;
    }
}

impl Pt {
    // The coordinates x and y, within this crate.
    pub(crate) fn coordinates(&self) -> (i128, i128)
        ensures x { result.0 ≡ self.now.x }
        ensures y { result.1 ≡ self.now.y }
        ensures x_is_small { unsigned_abs self.now.x < 2 ^ 23 }
        ensures y_is_small { unsigned_abs self.now.y < 2 ^ 23 }
    {
        (self.x as i128, self.y as i128)
    }

    // The same in 32 bits.
    pub(crate) fn short_coordinates(&self) -> (i32, i32)
        ensures x { result.0 ≡ self.now.x }
        ensures y { result.1 ≡ self.now.y }
        ensures x_is_small { unsigned_abs self.now.x < 2 ^ 23 }
        ensures y_is_small { unsigned_abs self.now.y < 2 ^ 23 }
    {
        (self.x, self.y)
    }

    // The way to another point.
    pub(crate) fn to(&self, other: &Pt) -> Vector
        ensures x { result.x ≡ other.now.x -ℤ self.now.x }
        ensures y { result.y ≡ other.now.y -ℤ self.now.y }
    {
        Vector {
            x: (other.x - self.x) as i64,
            y: (other.y - self.y) as i64,
        }
    }

    // Whether the bounding box with these two corners shares a point with that of the other two.
    pub(crate) fn boxes_meet(&self, b: &Pt, c: &Pt, d: &Pt) -> bool
        ensures { IsTrue result ↔ BoxesMeet self.now b.now c.now d.now }
    {
        intervals_meet(self.x, b.x, c.x, d.x) && intervals_meet(self.y, b.y, c.y, d.y)
    }

    // Whether this point is outside the smallest box round three others. A coordinate of these is read only where those
    // before it leave the question open.
    pub(crate) fn is_outside_box(&self, a: &Pt, b: &Pt, c: &Pt) -> bool
        ensures { IsTrue result ↔ IsOutsideBox self.now a.now b.now c.now }
    {
        self.is_left_or_right(a, b, c) || self.is_below_or_above(a, b, c)
    }

    // Whether it is neither left of `west` nor right of `east`.
    pub(crate) fn is_between_sides(&self, west: &Pt, east: &Pt) -> bool
        ensures { IsTrue result ↔ (west.now.x ≤ℤ self.now.x × self.now.x ≤ℤ east.now.x) }
    {
        west.x <= self.x && self.x <= east.x
    }

    // Whether it is neither below `south` nor above `north`.
    pub(crate) fn is_between_levels(&self, south: &Pt, north: &Pt) -> bool
        ensures { IsTrue result ↔ (south.now.y ≤ℤ self.now.y × self.now.y ≤ℤ north.now.y) }
    {
        south.y <= self.y && self.y <= north.y
    }

    // Compares y.
    pub(crate) fn compare_levels(&self, other: &Pt) -> Ordering
        ensures { result ≡ int_cmp self.now.y other.now.y }
    {
        self.y.cmp(&other.y)
    }

    // Whether it is left of all three, or right of them.
    fn is_left_or_right(&self, a: &Pt, b: &Pt, c: &Pt) -> bool
        ensures { IsTrue result ↔ IsOutside self.now.x a.now.x b.now.x c.now.x }
    {
        if a.x < self.x {
            b.x < self.x && c.x < self.x
        } else {
            self.x < a.x && self.x < b.x && self.x < c.x
        }
    }

    // Whether it is below all three, or above them.
    fn is_below_or_above(&self, a: &Pt, b: &Pt, c: &Pt) -> bool
        ensures { IsTrue result ↔ IsOutside self.now.y a.now.y b.now.y c.now.y }
    {
        if a.y < self.y {
            b.y < self.y && c.y < self.y
        } else {
            self.y < a.y && self.y < b.y && self.y < c.y
        }
    }
}

// Whether the interval between two numbers shares a number with that between two others. The ends of the second are not
// put in order, which is more work than these comparisons.
fn intervals_meet(a: i32, b: i32, c: i32, d: i32) -> bool
    ensures { IsTrue result ↔ IntervalsMeet a b c d }
{
    is_at_most_either(a.min(b), c, d) && is_at_least_either(a.max(b), c, d)
}

// Whether a number is at most the greater of two others.
fn is_at_most_either(z: i32, c: i32, d: i32) -> bool
    ensures { IsTrue result ↔ (z ≤ℤ int_max c d) }
{
    z <= c || z <= d
}

// Whether it is at least the lesser of two others.
fn is_at_least_either(z: i32, c: i32, d: i32) -> bool
    ensures { IsTrue result ↔ (int_min c d ≤ℤ z) }
{
    c <= z || d <= z
}

fn is_in_limit(z: i64) -> bool
    ensures { IsTrue result ↔ IsInLimit z }
{
    z.unsigned_abs() <= MAX_COORDINATE
}

/// Compares x, then y. It takes one step.
pub fn order<L: Ledger>(a: &Pt, b: &Pt, steps: &mut Steps<L>) -> Ordering
    ensures less { (result ≡ Ordering.Less) ↔ IsBefore a.now b.now }
    ensures equal { (result ≡ Ordering.Equal) ↔ (a.now ≡ b.now) }
    ensures greater { (result ≡ Ordering.Greater) ↔ IsBefore b.now a.now }
    ensures steps { steps.new ≡ steps.old + 1 }
{
    steps.tick();
    a.x.cmp(&b.x).then(a.y.cmp(&b.y))
}
