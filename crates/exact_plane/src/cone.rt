ghost use Rattle.std.specs.Prelude.{◌+◌, ◌≤◌, ◌↔◌, IsTrue};
ghost use Rattle.plane.specs.Cone.{IsInCone};
ghost use Rattle.plane.specs.Point.{whole};
ghost use Rattle.plane.specs.Turn.{IsStraight};

use crate::direction::{turn, turns};
use crate::pt::Pt;
use crate::steps::Steps;
use std::sync::ledger::Ledger;

/// Whether `u` is in the closed cone at `v` between the rays to `a` and to `c` that is smaller than a half turn. It takes
/// 1 to 3 steps.
pub fn in_cone<L: Ledger>(v: &Pt, a: &Pt, c: &Pt, u: &Pt, steps: &mut Steps<L>) -> bool
    requires turns { ¬ IsStraight (whole a.now) (whole v.now) (whole c.now) }
    ensures cone { IsTrue result ↔ IsInCone (whole v.now) (whole a.now) (whole c.now) (whole u.now) }
    ensures steps_least { steps.old + 1 ≤ steps.new }
    ensures steps_most { steps.new ≤ steps.old + 3 }
{
    let against = turn(v, a, c, steps).opposite();
    !turns(against, v, a, u, steps) && !turns(against, v, u, c, steps)
}
