ghost use Rattle.std.specs.Prelude.{◌≡◌, ◌+◌};
ghost use Rattle.plane.specs.Line.{cross_product};
ghost use Rattle.exact_plane.specs.Direction.{direction_of};

use crate::direction::Direction;
use crate::pt::Pt;
use crate::steps::Steps;
use std::sync::ledger::Ledger;

/// The turn from the way from `a` to `b` to the way from `c` to `d`, as if both began at one point. It takes one step.
#[tactic(auto, using(crate::proofs::CrossProduct::cross_is_determinant))]
pub fn turn_of_ways<L: Ledger>(a: &Pt, b: &Pt, c: &Pt, d: &Pt, steps: &mut Steps<L>) -> Direction
    ensures turn { result ≡ direction_of (cross_product a.now b.now c.now d.now) }
    ensures steps { steps.new ≡ steps.old + 1 }
{
    steps.tick();
    Direction::of_sign(a.to(b).cross(c.to(d)) as i128)
}
