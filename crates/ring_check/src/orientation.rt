// The area of a list of points, and the list read counterclockwise.
ghost use Rattle.std.specs.Prelude.{◌≡◌, ◌+◌, ◌*◌, ◌<◌, ◌≤◌, ◌^◌, ◌*ℤ◌, ◌-ℤ◌, length, unsigned_abs};
ghost use Rattle.plane.specs.Point.{IsInBounds};
ghost use Rattle.plane.specs.declared.limits.TheConstants.{MAX_CORNERS};
ghost use Rattle.rings.specs.Orientation.{doubled_area};
ghost use Rattle.ring_check.specs.Oriented.{given_of, oriented};

use exact_plane::{Pt, Steps};
use std::sync::ledger::Ledger;

// Reads the list of a ring counterclockwise, and answers whether it was turned round for that. It takes 128 steps a vertex.
pub fn turn_counterclockwise<L: Ledger>(points: &mut [Pt], steps: &mut Steps<L>) -> bool
    requires some { 0 < length points.old }
    requires most { length points.old ≤ MAX_CORNERS }
    ensures points { points.new ≡ (oriented points.old).corners }
    ensures turned { result ≡ (oriented points.old).is_turned }
    ensures steps { steps.new ≡ steps.old + 128 * length points.old }
{
    let is_clockwise = doubled_area(points, steps) < 0;
    if is_clockwise {
        points[1..].reverse();
    }
    is_clockwise
}

// Reads the list that a ring was made of, or that list as the ring has it again.
pub fn turn_back(points: &mut [Pt], is_turned: bool)
    requires some { 0 < length points.old }
    ensures { points.new ≡ given_of (record { corners = points.old; is_turned = is_turned }) }
{
    if is_turned {
        points[1..].reverse();
    }
}

// Twice the signed area of the ring with these vertices, positive where it runs counterclockwise. It takes 128 steps a vertex.
fn doubled_area<L: Ledger>(points: &[Pt], steps: &mut Steps<L>) -> i64
    requires some { 0 < length points.now }
    requires most { length points.now ≤ MAX_CORNERS }
    ensures area { result ≡ doubled_area points.now }
    ensures steps { steps.new ≡ steps.old + 128 * length points.now }
{
    let mut area = 0;
    for i in 1..points.len() {
        area += swept(&points[i - 1], &points[i], steps);
    }
    area + swept(&points[points.len() - 1], &points[0], steps)
}

// Twice the signed area that the way between two points sweeps out round the origin.
pub(crate) fn swept<L: Ledger>(from: &Pt, to: &Pt, steps: &mut Steps<L>) -> i64
    ensures value { result ≡ (from.now.x *ℤ to.now.y) -ℤ (to.now.x *ℤ from.now.y) }
    ensures small { unsigned_abs result < 2 ^ 47 }
    ensures steps { steps.new ≡ steps.old + 128 }
{
    swept_by(from.parts(steps), to.parts(steps))
}

// The same by the coordinates of both.
pub(crate) fn swept_by(from: (i64, i64), to: (i64, i64)) -> i64
    requires from { IsInBounds (record { x = from.0; y = from.1 }) }
    requires to { IsInBounds (record { x = to.0; y = to.1 }) }
    ensures value { result ≡ (from.0 *ℤ to.1) -ℤ (to.0 *ℤ from.1) }
    ensures small { unsigned_abs result < 2 ^ 47 }
{
    from.0 * to.1 - to.0 * from.1
}
