// Slabs round edges, which show that another edge is apart from them.
ghost use Rattle.std.specs.Prelude.{◌≡◌, ◌<◌, ◌≤◌, ◌^◌, ◌<ℤ◌, IsTrue, pos, unsigned_abs};
ghost use Rattle.plane.specs.Point.{Point};
ghost use Rattle.edge_index.specs.Probes.{at, offset};
ghost use Rattle.edge_index.specs.Slabs.{AreBeyond, IsInSlab};

use crate::place::{Place, Probe, Stretch};
use crate::slab::Slab;

// Beyond all offsets of points.
const BEYOND: i64 = 1 << 37;

// A way is kept as whole numbers below this.
const FINE: i64 = 1 << 12;

impl Slab {
    // No point, and no way.
    pub fn none() -> Slab {
        Slab {
            across: 0,
            up: 0,
            weight: 0,
            least: BEYOND,
            greatest: -BEYOND,
        }
    }

    // No point, along an edge that goes so far.
    pub fn along(edge: &Stretch) -> Slab {
        let weight = edge.length();
        let scale = weight / FINE + 1;
        Slab {
            across: scaled(edge.across, scale),
            up: scaled(edge.up, scale),
            weight,
            least: BEYOND,
            greatest: -BEYOND,
        }
    }

    // That of the two with the greater weight.
    pub fn heavier(&self, other: &Slab) -> Slab {
        if self.weight < other.weight {
            *other
        } else {
            *self
        }
    }

    // The points of this way between two offsets.
    fn between(&self, least: i64, greatest: i64) -> Slab
        requires least { unsigned_abs least ≤ 2 ^ 37 }
        requires greatest { unsigned_abs greatest ≤ 2 ^ 37 }
        ensures across { result.across ≡ self.now.across }
        ensures up { result.up ≡ self.now.up }
        ensures least { result.least ≡ least }
        ensures greatest { result.greatest ≡ greatest }
    {
        Slab {
            across: self.across,
            up: self.up,
            weight: self.weight,
            least,
            greatest,
        }
    }

    // The slab round its points and one more.
    pub fn with(&self, p: &Place) -> Slab
        ensures new { IsInSlab result (at p.now) }
        ensures old { (v : Point) → IsInSlab self.now v → IsInSlab result v }
    {
        let offset = self.offset(p);
        self.between(self.least.min(offset), self.greatest.max(offset))
    }

    // Whether it goes just the way of another.
    pub fn goes_with(&self, other: &Slab) -> bool
        ensures across { IsTrue result → self.now.across ≡ other.now.across }
        ensures up { IsTrue result → self.now.up ≡ other.now.up }
    {
        self.across == other.across && self.up == other.up
    }

    // The slab round this one and another that goes the same way.
    pub fn joined(&self, other: &Slab) -> Slab
        requires across { self.now.across ≡ other.now.across }
        requires up { self.now.up ≡ other.now.up }
        ensures first { (v : Point) → IsInSlab self.now v → IsInSlab result v }
        ensures second { (v : Point) → IsInSlab other.now v → IsInSlab result v }
    {
        self.between(
            self.least.min(other.least),
            self.greatest.max(other.greatest),
        )
    }

    // Whether both ends of an edge are beyond one of its lines.
    pub fn misses(&self, edge: &Probe) -> bool
        ensures { IsTrue result → AreBeyond self.now (at edge.now.from) (at edge.now.to) }
    {
        let (first, second) = (self.offset(&edge.from), self.offset(&edge.to));
        if first < self.least {
            return second < self.least;
        }
        self.greatest < first && self.greatest < second
    }

    // How far right of its way a place is.
    fn offset(&self, p: &Place) -> i64
        ensures value { result ≡ offset self.now.across self.now.up p.now.x p.now.y }
        ensures fits { unsigned_abs result ≤ 2 ^ 37 }
    {
        self.up * p.x - self.across * p.y
    }
}

// A number of a way, so much less that it is kept.
fn scaled(z: i64, scale: i64) -> i64
    requires z { unsigned_abs z < 2 ^ 24 }
    requires scale { pos 0 <ℤ scale }
    ensures { unsigned_abs result < 2 ^ 12 }
{
    (z / scale).clamp(1 - FINE, FINE - 1)
}
