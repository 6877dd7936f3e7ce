// Boxes round points.
ghost use Rattle.std.specs.Prelude.{◌≡◌, ◌+◌, ◌*◌, ◌<◌, ◌^◌, ◌≤ℤ◌, ◌↔◌, ℕ, IsTrue, length, slice_index_or, unsigned_abs};
ghost use Rattle.plane.specs.Point.{IsInBounds, Point};
ghost use Rattle.exact_plane.specs.Boxes.{Encloses, Overlap, RangesOverlap};

use crate::bounding_box::BoundingBox;
use crate::pt::Pt;
use crate::steps::Steps;
use std::sync::ledger::Ledger;

impl BoundingBox {
    /// A box that has these points. It tells of their coordinates, so it takes 64 steps a point, as `Pt::parts` does.
    pub fn of<L: Ledger>(points: &[Pt], steps: &mut Steps<L>) -> BoundingBox
        ensures within { (k : ℕ) → k < length points.now → (other : Point) → Encloses result (slice_index_or points.now k other) }

        // What holds of every point.
        ensures limits { (k : ℕ) → k < length points.now → (other : Point) → IsInBounds (slice_index_or points.now k other) }
        ensures steps { steps.new ≡ steps.old + 64 * length points.now }
    {
        let mut around = BoundingBox::empty();
        for k in 0..points.len() {
            steps.add(64);
            around = around.with(&points[k]);
        }
        around
    }

    /// The box that has no point.
    pub fn empty() -> BoundingBox {
        BoundingBox {
            west: i32::MAX,
            east: -i32::MAX,
            south: i32::MAX,
            north: -i32::MAX,
        }
    }

    // The box round this one and a point.
    fn with(&self, p: &Pt) -> BoundingBox
        ensures limits { IsInBounds p.now }
        ensures new { Encloses result p.now }
        ensures old { (q : Point) → Encloses self.now q → Encloses result q }
    {
        p.coordinate_bounds();
        let (x, y) = p.short_coordinates();
        self.joined(&BoundingBox {
            west: x,
            east: x,
            south: y,
            north: y,
        })
    }

    /// The box round this one and another.
    pub fn joined(&self, other: &BoundingBox) -> BoundingBox
        ensures first { (q : Point) → Encloses self.now q → Encloses result q }
        ensures second { (q : Point) → Encloses other.now q → Encloses result q }
    {
        BoundingBox {
            west: lesser(self.west, other.west),
            east: greater(self.east, other.east),
            south: lesser(self.south, other.south),
            north: greater(self.north, other.north),
        }
    }

    /// Whether it shares a point with another box.
    pub fn overlaps(&self, other: &BoundingBox) -> bool
        ensures { IsTrue result ↔ Overlap self.now other.now }
    {
        ranges_overlap(self.west, self.east, other.west, other.east)
            && ranges_overlap(self.south, self.north, other.south, other.north)
    }
}

// Whether the numbers from `a` to `b` share one with those from `c` to `d`.
fn ranges_overlap(a: i32, b: i32, c: i32, d: i32) -> bool
    ensures { IsTrue result ↔ RangesOverlap a b c d }
{
    a <= d && c <= b
}

// The lesser of two numbers.
#[tactic(auto, using(crate::proofs::Intervals::lesser_small))]
fn lesser(a: i32, b: i32) -> i32
    requires a_fits { unsigned_abs a < 2 ^ 31 }
    requires b_fits { unsigned_abs b < 2 ^ 31 }
    ensures fits { unsigned_abs result < 2 ^ 31 }
    ensures first { result ≤ℤ a }
    ensures second { result ≤ℤ b }
{
    a.min(b)
}

// The greater of two numbers.
#[tactic(auto, using(crate::proofs::Intervals::greater_small))]
fn greater(a: i32, b: i32) -> i32
    requires a_fits { unsigned_abs a < 2 ^ 31 }
    requires b_fits { unsigned_abs b < 2 ^ 31 }
    ensures fits { unsigned_abs result < 2 ^ 31 }
    ensures first { a ≤ℤ result }
    ensures second { b ≤ℤ result }
{
    a.max(b)
}
