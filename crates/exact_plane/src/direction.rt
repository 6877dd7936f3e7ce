ghost use Rattle.std.specs.Prelude.{◌≡◌, ◌+◌, ◌↔◌, IsTrue};
ghost use Rattle.plane.specs.Point.{whole};
ghost use Rattle.exact_plane.specs.Direction.{direction_of, opposite, turn_of};

use crate::pt::Pt;
use crate::steps::Steps;
use std::cmp::Ordering;
use std::sync::ledger::Ledger;

/// Which way three points turn: counterclockwise, on along one line or back on it, or clockwise. Points that coincide
/// are on one line.
#[derive(Clone, Copy, Debug, PartialEq, Eq)]
pub enum Direction {
    Left,
    Straight,
    Right,
}

impl Direction {
    // The way in which a cross product of this sign turns.
    pub(crate) fn of_sign(cross_product: i128) -> Direction
        ensures { result ≡ direction_of cross_product }
    {
        match cross_product.cmp(&0) {
            Ordering::Greater => Direction::Left,
            Ordering::Equal => Direction::Straight,
            Ordering::Less => Direction::Right,
        }
    }

    /// The way that turns against this one.
    pub fn opposite(self) -> Direction
        ensures { result ≡ opposite self }
    {
        match self {
            Direction::Left => Direction::Right,
            Direction::Straight => Direction::Straight,
            Direction::Right => Direction::Left,
        }
    }
}

/// The turn on the way from `a` over `b` to `c`. It takes one step.
#[tactic(auto, using(crate::proofs::CrossProduct::cross_is_determinant))]
pub fn turn<L: Ledger>(a: &Pt, b: &Pt, c: &Pt, steps: &mut Steps<L>) -> Direction
    ensures turn { result ≡ turn_of (whole a.now) (whole b.now) (whole c.now) }
    ensures steps { steps.new ≡ steps.old + 1 }
{
    steps.tick();
    Direction::of_sign(a.to(b).cross(a.to(c)) as i128)
}

/// Returns whether the turn on the way from `a` over `b` to `c` is this one. It takes one step.
pub fn turns<L: Ledger>(way: Direction, a: &Pt, b: &Pt, c: &Pt, steps: &mut Steps<L>) -> bool
    ensures turns { IsTrue result ↔ (turn_of (whole a.now) (whole b.now) (whole c.now) ≡ way) }
    ensures steps { steps.new ≡ steps.old + 1 }
{
    turn(a, b, c, steps) == way
}
