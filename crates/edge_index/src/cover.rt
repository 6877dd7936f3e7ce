// A box and a slab round edges, of which each can show that another edge is apart from all of them, and so can both together.
ghost use Rattle.std.specs.Int.{int_max, int_min};
ghost use Rattle.std.specs.Prelude.{◌≡◌, ◌<◌, ◌≤◌, ◌≤ℤ◌, ◌*ℤ◌, ◌^◌, ℤ, IsTrue, unsigned_abs};
ghost use Rattle.plane.specs.Point.{IsInLimit, Point};
ghost use Rattle.edge_index.specs.Covers.{AreDisjoint, IsInCover, KeepSide};
ghost use Rattle.edge_index.specs.Probes.{IsProbe};

use crate::place::Probe;
use crate::slab::Slab;
use exact_plane::BoundingBox;

// Beyond all coordinates.
const FARTHEST: i64 = 1 << 23;

// The points that are in both.
#[derive(Clone, Copy)]
pub(crate) struct Cover {
    pub bounds: BoundingBox,
    pub slab: Slab,
}

impl Cover {
    // No point; the slab goes this way.
    pub fn along(slab: &Slab) -> Cover {
        Cover {
            bounds: BoundingBox::empty(),
            slab: *slab,
        }
    }

    // The cover of its points and the ends of an edge.
    pub fn with(&self, edge: &Probe) -> Cover
        ensures ends { (p q : Point) → IsProbe edge.now p q → IsInCover result p × IsInCover result q }
        ensures old { (q : Point) → IsInCover self.now q → IsInCover result q }
    {
        Cover {
            bounds: self.bounds.joined(&edge.bounds),
            slab: self.slab.with(&edge.from).with(&edge.to),
        }
    }

    // The cover of the points of this one and of another, whose slab goes the same way.
    pub fn joined(&self, other: &Cover) -> Cover
        requires across { self.now.slab.across ≡ other.now.slab.across }
        requires up { self.now.slab.up ≡ other.now.slab.up }
        ensures first { (q : Point) → IsInCover self.now q → IsInCover result q }
        ensures second { (q : Point) → IsInCover other.now q → IsInCover result q }
    {
        Cover {
            bounds: self.bounds.joined(&other.bounds),
            slab: self.slab.joined(&other.slab),
        }
    }

    // Whether its box, its slab or the line of an edge shows that the edge meets no segment of two of its points.
    pub fn is_apart(&self, edge: &Probe) -> bool
        ensures { IsTrue result → AreDisjoint self.now edge.now }
    {
        !edge.bounds.overlaps(&self.bounds) || self.slab.misses(edge) || self.is_beside(edge)
    }

    // Whether all of it is to one side of the line of an edge. Where the edge goes (a, b), and the slab goes (c, d), a point that is h to
    // the right of the way of the slab is to a side of the line that is told by the sign of x (a d - b c) - a h and a number, which is that
    // of the side times c, and by y (a d - b c) - b h and another, which is that times d. Both are greatest at a corner.
    fn is_beside(&self, edge: &Probe) -> bool
        ensures { IsTrue result → AreDisjoint self.now edge.now }
    {
        let (slab, around, way) = (&self.slab, &self.bounds, &edge.way);
        let slope = way.across * slab.up - way.up * slab.across;
        if slab.up.abs() < slab.across.abs() {
            let line = slab.across * edge.here;
            keep_side(
                slope,
                way.across,
                line,
                within(around.west),
                within(around.east),
                slab,
            )
        } else {
            let line = slab.up * edge.here;
            keep_side(
                slope,
                way.up,
                line,
                within(around.south),
                within(around.north),
                slab,
            )
        }
    }
}

// Whether `slope` t - `by` h + `line` has one sign, and is not zero, for all t from `low` to `high` and all offsets h of the slab.
fn keep_side(slope: i64, by: i64, line: i64, low: i64, high: i64, slab: &Slab) -> bool
    requires slope { unsigned_abs slope < 2 ^ 37 }
    requires by { unsigned_abs by < 2 ^ 24 }
    requires line { unsigned_abs line < 2 ^ 61 }
    requires low { unsigned_abs low ≤ 2 ^ 23 }
    requires high { unsigned_abs high ≤ 2 ^ 23 }
    ensures side { IsTrue result → KeepSide slope by line low high slab.now.least slab.now.greatest }
{
    let (least, most) = multiples(slope, low, high);
    let (right, left) = multiples(by, slab.least, slab.greatest);
    0 < least - left + line || most - right + line < 0
}

// The nearest number to one that is as great as a coordinate can be.
fn within(z: i32) -> i64
    requires { unsigned_abs z < 2 ^ 31 }
    ensures fits { unsigned_abs result ≤ 2 ^ 23 }
    ensures above { (x : ℤ) → IsInLimit x → z ≤ℤ x → result ≤ℤ x }
    ensures below { (x : ℤ) → IsInLimit x → x ≤ℤ z → x ≤ℤ result }
{
    (z as i64).clamp(-FARTHEST, FARTHEST)
}

// The least and the greatest multiple of a number by the whole numbers from one to another.
fn multiples(by: i64, low: i64, high: i64) -> (i64, i64)
    requires first { unsigned_abs (by *ℤ low) < 2 ^ 62 }
    requires second { unsigned_abs (by *ℤ high) < 2 ^ 62 }
    ensures least { (z : ℤ) → low ≤ℤ z → z ≤ℤ high → result.0 ≤ℤ (by *ℤ z) }
    ensures greatest { (z : ℤ) → low ≤ℤ z → z ≤ℤ high → (by *ℤ z) ≤ℤ result.1 }
    ensures least_is { result.0 ≡ int_min (by *ℤ low) (by *ℤ high) }
    ensures greatest_is { result.1 ≡ int_max (by *ℤ low) (by *ℤ high) }
{
    let (a, b) = (by * low, by * high);
    (a.min(b), a.max(b))
}
