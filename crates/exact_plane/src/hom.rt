ghost use Rattle.std.specs.Prelude.{◌≡◌, ◌+◌, ◌<ℤ◌, ◌<◌, ◌^◌, ◌↔◌, IsNone, IsSome, IfSome, pos, unsigned_abs};
ghost use Rattle.plane.specs.Line.{along, cross_product, mediant};
ghost use Rattle.plane.specs.Order.{Precedes};
ghost use Rattle.plane.specs.Point.{IsInLimit, IsPoint, IsSame, whole};
ghost use Rattle.plane.specs.Segment.{On};
ghost use Rattle.plane.specs.Turn.{IsStraight};
ghost use Rattle.exact_plane.specs.Direction.{turn_of};
ghost use Rattle.exact_plane.specs.Size.{IsNarrow, IsSized};

use crate::direction::Direction;
use crate::pt::Pt;
use crate::steps::Steps;
use crate::wide::{compare, cross_offsets, offset, weighted_sum};
use std::cmp::Ordering;
use std::marker::Model;
use std::sync::ledger::Ledger;

/// A rational point (X / W, Y / W) by three whole numbers, where W is positive and below 2^50, and X and Y are below
/// 2^75 in size. It is narrow where W is below 2^49, and X and Y below 2^74 in size. Predicates on it take
/// steps, and so does reading its parts.
#[derive(Clone, Copy)]
pub struct Hom {
    x: i128,
    y: i128,
    w: i128,
}

impl Model for Hom {
    ghost use Rattle.plane.specs.Point.{Triple};
    ghost use Rattle.exact_plane.specs.Size.{IsSized};

    ghost Value = { Triple };

    ghost view = { λ p. record { X = p.x; Y = p.y; W = p.w } };

    ghost invariant = { λ p. IsSized (record { X = p.x; Y = p.y; W = p.w }) };

    ghost inverse = { λ p. record { x = p.X; y = p.Y; w = p.W } };
}

impl Hom {
    /// The same point. It takes one step.
    pub fn of_pt<L: Ledger>(p: &Pt, steps: &mut Steps<L>) -> Hom
        ensures point { result ≡ whole p.now }
        ensures narrow { IsNarrow result }
        ensures steps { steps.new ≡ steps.old + 1 }
    {
        steps.tick();
        let (x, y) = p.coordinates();
        Hom { x, y, w: 1 }
    }

    /// The point with these coordinates, or `None` where one passes the limit of a `Pt`. It takes no step, since the caller
    /// names the coordinates.
    pub fn of_whole(x: i64, y: i64) -> Option<Hom>
        ensures bounds { IsSome result ↔ (IsInLimit x × IsInLimit y) }
        ensures point { IfSome result (λ p. p ≡ whole (record { x = x; y = y })) }
        ensures narrow { IfSome result IsNarrow }
    {
        let (x, y) = Pt::of(x, y)?.coordinates();
        Some(Hom { x, y, w: 1 })
    }

    /// The point with these parts, or `None` where W isn't positive or one of them is too large for a `Hom`. It takes no step,
    /// since the caller names the parts.
    pub fn of_parts(x: i128, y: i128, w: i128) -> Option<Hom>
        ensures bounds { IsSome result ↔ IsSized (record { X = x; Y = y; W = w }) }
        ensures point { IfSome result (λ p. p ≡ record { X = x; Y = y; W = w }) }
    {
        if x.unsigned_abs() < 1 << 75 && y.unsigned_abs() < 1 << 75 && 0 < w && w < 1 << 50 {
            Some(Hom { x, y, w })
        } else {
            None
        }
    }

    /// The same, but `None` also where the point is not narrow.
    pub fn of_narrow_parts(x: i128, y: i128, w: i128) -> Option<Hom>
        ensures bounds { IsSome result ↔ (IsPoint (record { X = x; Y = y; W = w }) × IsNarrow (record { X = x; Y = y; W = w })) }
        ensures point { IfSome result (λ p. p ≡ record { X = x; Y = y; W = w }) }
        ensures narrow { IfSome result IsNarrow }
    {
        if x.unsigned_abs() < 1 << 74 && y.unsigned_abs() < 1 << 74 && 0 < w && w < 1 << 49 {
            Some(Hom { x, y, w })
        } else {
            None
        }
    }

    /// The point that is on the line through `a` and `b` and on the line through `c` and `d`; `None` where the cross
    /// product of the ways from `a` to `b` and from `c` to `d` is 0. It takes one step.
    pub fn meet<L: Ledger>(a: &Pt, b: &Pt, c: &Pt, d: &Pt, steps: &mut Steps<L>) -> Option<Hom>
        ensures none { IsNone result ↔ (cross_product a.now b.now c.now d.now ≡ pos 0) }
        ensures on_first { IfSome result (λ point. IsStraight (whole a.now) (whole b.now) point) }
        ensures on_second { IfSome result (λ point. IsStraight (whole c.now) (whole d.now) point) }
        ensures rational { IfSome result IsPoint }
        ensures narrow { IfSome result IsNarrow }
        ensures steps { steps.new ≡ steps.old + 1 }
    {
        steps.tick();
        match cross_product(a, b, c, d).cmp(&0) {
            Ordering::Greater => Some(Hom::meeting(a, b, c, d)),
            Ordering::Equal => None,
            Ordering::Less => Some(Hom::meeting(a, b, d, c)),
        }
    }

    /// The mediant of two narrow points: where they differ, a point on the segment between them that is neither of them.
    /// It takes one step.
    #[tactic(auto, using(crate::proofs::Mediants::mediants))]
    pub fn between<L: Ledger>(p: &Hom, q: &Hom, steps: &mut Steps<L>) -> Hom
        requires first { IsNarrow p.now }
        requires second { IsNarrow q.now }
        ensures mediant { result ≡ mediant p.now q.now }

        // So it is strictly between them where they differ.
        ensures on { On result p.now q.now }
        ensures not_first { ¬ (IsSame p.now q.now) → ¬ (IsSame result p.now) }
        ensures not_second { ¬ (IsSame p.now q.now) → ¬ (IsSame result q.now) }
        ensures steps { steps.new ≡ steps.old + 1 }
    {
        steps.tick();
        p.mediant(q)
    }

    /// X, Y and W. To hand them out is dear: it takes 64 steps.
    pub fn parts<L: Ledger>(&self, steps: &mut Steps<L>) -> (i128, i128, i128)
        ensures x { result.0 ≡ self.now.X }
        ensures y { result.1 ≡ self.now.Y }
        ensures w { result.2 ≡ self.now.W }
        ensures sizes { IsSized self.now }
        ensures steps { steps.new ≡ steps.old + 64 }
    {
        steps.add(64);
        (self.x, self.y, self.w)
    }
}

/// The turn on the way from `a` over `b` to `p`. It takes one step.
#[tactic(auto, using(crate::proofs::WideProducts::offsets_are_determinant))]
pub fn turn_hom<L: Ledger>(a: &Pt, b: &Pt, p: &Hom, steps: &mut Steps<L>) -> Direction
    ensures turn { result ≡ turn_of (whole a.now) (whole b.now) p.now }
    ensures steps { steps.new ≡ steps.old + 1 }
{
    steps.tick();
    let (x, y) = a.coordinates();
    let (x, y) = (offset(p.x, x, p.w), offset(p.y, y, p.w));
    Direction::of_sign(cross_offsets(a.to(b), x, y))
}

/// Compares X / W, then Y / W. It takes one step.
pub fn order_hom<L: Ledger>(p: &Hom, q: &Hom, steps: &mut Steps<L>) -> Ordering
    ensures less { (result ≡ Ordering.Less) ↔ Precedes p.now q.now }
    ensures equal { (result ≡ Ordering.Equal) ↔ IsSame p.now q.now }
    ensures greater { (result ≡ Ordering.Greater) ↔ Precedes q.now p.now }
    ensures steps { steps.new ≡ steps.old + 1 }
{
    steps.tick();
    compare(p.x, p.w, q.x, q.w).then(compare(p.y, p.w, q.y, q.w))
}

impl Hom {
    // The mediant of two narrow points.
    fn mediant(&self, other: &Hom) -> Hom
        requires first { IsNarrow self.now }
        requires second { IsNarrow other.now }
        ensures mediant { result ≡ mediant self.now other.now }
        ensures on { On result self.now other.now }
    {
        Hom {
            x: self.x + other.x,
            y: self.y + other.y,
            w: self.w + other.w,
        }
    }

    // The meeting of the lines through `a` and `b` and through `c` and `d`, where the second is to the left.
    #[tactic(auto, using(plane::proofs::Meetings::along_is_straight))]
    fn meeting(a: &Pt, b: &Pt, c: &Pt, d: &Pt) -> Hom
        requires { pos 0 <ℤ cross_product a.now b.now c.now d.now }
        ensures on_first { IsStraight (whole a.now) (whole b.now) result }
        ensures on_second { IsStraight (whole c.now) (whole d.now) result }
        ensures rational { IsPoint result }
        ensures narrow { IsNarrow result }
    {
        Hom::along(a, b, cross_product(a, c, c, d), cross_product(a, b, c, d))
    }

    // The point that is `share` / `weight` of the way from `a` to `b`.
    fn along(a: &Pt, b: &Pt, share: i64, weight: i64) -> Hom
        requires positive { pos 0 <ℤ weight }
        requires weight { unsigned_abs weight < 2 ^ 49 }
        requires share { unsigned_abs share < 2 ^ 49 }
        ensures point { result ≡ along a.now b.now share weight }
        ensures narrow { IsNarrow result }
    {
        let ((x, y), way) = (a.coordinates(), a.to(b));
        let (share, weight) = (share as i128, weight as i128);
        Hom {
            x: weighted_sum(x, weight, way.x as i128, share),
            y: weighted_sum(y, weight, way.y as i128, share),
            w: weight,
        }
    }
}

// The cross product of the ways from `a` to `b` and from `c` to `d`.
fn cross_product(a: &Pt, b: &Pt, c: &Pt, d: &Pt) -> i64
    ensures value { result ≡ cross_product a.now b.now c.now d.now }
    ensures small { unsigned_abs result < 2 ^ 49 }
{
    a.to(b).cross(c.to(d))
}
