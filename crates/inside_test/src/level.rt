// A rational number among the whole numbers, and a rational point among the vertices.
ghost use Rattle.std.specs.Int.{int_div_euclid};
ghost use Rattle.std.specs.Prelude.{◌≡◌, ◌↔◌, ◌+◌, ◌<◌, ◌≤◌, ◌^◌, ◌<ℤ◌, ◌≤ℤ◌, ◌*ℤ◌, ℤ, IsTrue, pos, unsigned_abs};
ghost use Rattle.plane.specs.Point.{IsInLimit, IsPoint, IsSame, Triple, whole};
ghost use Rattle.inside_test.specs.Block.{IsBoxMissed, IsBoxRight};
ghost use Rattle.inside_test.specs.Level.{AreLevels, IsLevel};

use exact_plane::{BoundingBox, Hom, Pt, Steps};
use std::sync::ledger::Ledger;

// The greatest whole number that is not above part / weight, and the least that is not below it; where they would be
// farther from 0 than all coordinates, two numbers that are so too.
#[derive(Clone, Copy)]
pub(crate) struct Level {
    pub floor: i64,
    pub ceiling: i64,
}

impl Level {
    // The level of part / weight.
    fn of(part: i128, weight: i128) -> Level
        requires part { unsigned_abs part < 2 ^ 75 }
        requires weight { unsigned_abs weight < 2 ^ 50 }
        requires positive { pos 0 <ℤ weight }
        ensures { IsLevel result part weight }
    {
        Level {
            floor: floor(part, weight),
            ceiling: -floor(-part, weight),
        }
    }

    // Whether it is below a coordinate.
    fn is_below(&self, z: i64) -> bool
        requires { IsInLimit z }
        ensures { (part weight : ℤ) → IsLevel self.now part weight → IsTrue result ↔ (part <ℤ (z *ℤ weight)) }
    {
        self.floor < z
    }

    // Whether it is above one.
    fn is_above(&self, z: i64) -> bool
        requires { IsInLimit z }
        ensures { (part weight : ℤ) → IsLevel self.now part weight → IsTrue result ↔ ((z *ℤ weight) <ℤ part) }
    {
        z < self.ceiling
    }

    // Whether it is below all coordinates from this number on.
    fn is_below_from(&self, z: i32) -> bool
        ensures { IsTrue result → (part weight y : ℤ) → IsLevel self.now part weight → IsInLimit y → z ≤ℤ y → part <ℤ (y *ℤ weight) }
    {
        self.floor < z as i64
    }

    // Whether it is above all coordinates up to this number.
    fn is_above_to(&self, z: i32) -> bool
        ensures { IsTrue result → (part weight y : ℤ) → IsLevel self.now part weight → IsInLimit y → y ≤ℤ z → (y *ℤ weight) <ℤ part }
    {
        (z as i64) < self.ceiling
    }
}

// The greatest whole number that is not above part / weight, but no farther from 0 than a limit beyond all coordinates.
fn floor(part: i128, weight: i128) -> i64
    requires part { unsigned_abs part < 2 ^ 75 }
    requires weight { unsigned_abs weight < 2 ^ 50 }
    requires positive { pos 0 <ℤ weight }
    ensures below { (z : ℤ) → IsInLimit z → (result <ℤ z) ↔ (part <ℤ (z *ℤ weight)) }
    ensures limit { unsigned_abs result ≤ 2 ^ 32 }
{
    const LIMIT: i128 = 1 << 32;
    quotient(part, weight).clamp(-LIMIT, LIMIT) as i64
}

// The greatest whole number that is not above part / weight. Short numbers are divided faster.
fn quotient(part: i128, weight: i128) -> i128
    requires part { unsigned_abs part < 2 ^ 75 }
    requires weight { unsigned_abs weight < 2 ^ 50 }
    requires positive { pos 0 <ℤ weight }
    ensures { result ≡ int_div_euclid part weight }
{
    const SHORT: i128 = 1 << 62;
    if -SHORT < part && part < SHORT {
        (part as i64).div_euclid(weight as i64) as i128
    } else {
        part.div_euclid(weight)
    }
}

// The levels of a rational point: of x, and of its height.
#[derive(Clone, Copy)]
pub(crate) struct Levels {
    pub across: Level,
    pub height: Level,
}

impl Levels {
    // The levels of this point.
    #[tactic(auto, using(crate::proofs::CrossedEdges::registers))]
    pub(crate) fn of<L: Ledger>(p: &Hom, steps: &mut Steps<L>) -> Levels
        ensures levels { AreLevels result p.now }
        ensures rational { IsPoint p.now }
        ensures steps { steps.new ≡ steps.old + 64 }
    {
        let (x, y, w) = p.parts(steps);
        Levels {
            across: Level::of(x, w),
            height: Level::of(y, w),
        }
    }

    // Whether the point is below a vertex. It takes 64 steps, as all of these four.
    pub(crate) fn is_below<L: Ledger>(&self, v: &Pt, steps: &mut Steps<L>) -> bool
        ensures below { (p : Triple) → AreLevels self.now p → IsTrue result ↔ (p.Y <ℤ (v.now.y *ℤ p.W)) }
        ensures steps { steps.new ≡ steps.old + 64 }
    {
        self.height.is_below(v.parts(steps).1)
    }

    // Whether it is above one.
    pub(crate) fn is_above<L: Ledger>(&self, v: &Pt, steps: &mut Steps<L>) -> bool
        ensures above { (p : Triple) → AreLevels self.now p → IsTrue result ↔ ((v.now.y *ℤ p.W) <ℤ p.Y) }
        ensures steps { steps.new ≡ steps.old + 64 }
    {
        self.height.is_above(v.parts(steps).1)
    }

    // Whether it is left of one.
    pub(crate) fn is_left_of<L: Ledger>(&self, v: &Pt, steps: &mut Steps<L>) -> bool
        ensures left { (p : Triple) → AreLevels self.now p → IsTrue result ↔ (p.X <ℤ (v.now.x *ℤ p.W)) }
        ensures steps { steps.new ≡ steps.old + 64 }
    {
        self.across.is_below(v.parts(steps).0)
    }

    // Whether it is right of one.
    pub(crate) fn is_right_of<L: Ledger>(&self, v: &Pt, steps: &mut Steps<L>) -> bool
        ensures right { (p : Triple) → AreLevels self.now p → IsTrue result ↔ ((v.now.x *ℤ p.W) <ℤ p.X) }
        ensures steps { steps.new ≡ steps.old + 64 }
    {
        self.across.is_above(v.parts(steps).0)
    }

    // Whether all that is in this box is above the point, below it or left of it: a ray to the right misses it.
    pub(crate) fn misses(&self, around: &BoundingBox) -> bool
        ensures { IsTrue result → (p : Triple) → AreLevels self.now p → IsBoxMissed around.now p }
    {
        self.height.is_below_from(around.south)
            || self.height.is_above_to(around.north)
            || self.across.is_above_to(around.east)
    }

    // Whether all of the box is right of the point.
    pub(crate) fn is_left_of_all(&self, around: &BoundingBox) -> bool
        ensures { IsTrue result → (p : Triple) → AreLevels self.now p → IsBoxRight around.now p }
    {
        self.across.is_below_from(around.west)
    }

    // Whether it is at the height of one.
    pub(crate) fn is_level<L: Ledger>(&self, v: &Pt, steps: &mut Steps<L>) -> bool
        ensures level { (p : Triple) → AreLevels self.now p → IsTrue result ↔ (v.now.y *ℤ p.W ≡ p.Y) }
        ensures steps { steps.new ≤ steps.old + 128 }
    {
        !self.is_below(v, steps) && !self.is_above(v, steps)
    }

    // Whether it is straight above or below one, or the vertex itself.
    fn is_plumb<L: Ledger>(&self, v: &Pt, steps: &mut Steps<L>) -> bool
        ensures plumb { (p : Triple) → AreLevels self.now p → IsTrue result ↔ (v.now.x *ℤ p.W ≡ p.X) }
        ensures steps { steps.new ≤ steps.old + 128 }
    {
        !self.is_left_of(v, steps) && !self.is_right_of(v, steps)
    }

    // Whether it is the vertex.
    pub(crate) fn is_at<L: Ledger>(&self, v: &Pt, steps: &mut Steps<L>) -> bool
        ensures at { (p : Triple) → AreLevels self.now p → IsTrue result ↔ IsSame (whole v.now) p }
        ensures steps { steps.new ≤ steps.old + 256 }
    {
        self.is_level(v, steps) && self.is_plumb(v, steps)
    }

    // Whether it is left of two vertices.
    pub(crate) fn is_left_of_both<L: Ledger>(&self, a: &Pt, b: &Pt, steps: &mut Steps<L>) -> bool
        ensures left { (p : Triple) → AreLevels self.now p → IsTrue result ↔ ((p.X <ℤ (a.now.x *ℤ p.W)) × (p.X <ℤ (b.now.x *ℤ p.W))) }
        ensures steps { steps.new ≤ steps.old + 128 }
    {
        self.is_left_of(a, steps) && self.is_left_of(b, steps)
    }

    // Whether it is right of two.
    pub(crate) fn is_right_of_both<L: Ledger>(&self, a: &Pt, b: &Pt, steps: &mut Steps<L>) -> bool
        ensures right { (p : Triple) → AreLevels self.now p → IsTrue result ↔ (((a.now.x *ℤ p.W) <ℤ p.X) × ((b.now.x *ℤ p.W) <ℤ p.X)) }
        ensures steps { steps.new ≤ steps.old + 128 }
    {
        self.is_right_of(a, steps) && self.is_right_of(b, steps)
    }
}
