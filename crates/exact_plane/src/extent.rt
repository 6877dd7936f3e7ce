// The upright box whose sides go through four points.
ghost use Rattle.std.specs.Ordering.{int_cmp};
ghost use Rattle.std.specs.Prelude.{◌≡◌, ◌+◌, ◌↔◌, IsTrue};
ghost use Rattle.exact_plane.specs.Extent.{IsWithin};

use crate::pt::Pt;
use crate::steps::Steps;
use std::cmp::Ordering;
use std::sync::ledger::Ledger;

/// Returns whether `p` lies in the closed box whose sides go through these points: neither left of `west` nor right of `east`,
/// neither below `south` nor above `north`. It takes one step.
pub fn is_within<L: Ledger>(
    p: &Pt,
    west: &Pt,
    east: &Pt,
    south: &Pt,
    north: &Pt,
    steps: &mut Steps<L>,
) -> bool
    ensures within { IsTrue result ↔ IsWithin west.now east.now south.now north.now p.now }
    ensures steps { steps.new ≡ steps.old + 1 }
{
    steps.tick();
    p.is_between_sides(west, east) && p.is_between_levels(south, north)
}

/// Compares y. It takes one step.
pub fn order_upward<L: Ledger>(a: &Pt, b: &Pt, steps: &mut Steps<L>) -> Ordering
    ensures order { result ≡ int_cmp a.now.y b.now.y }
    ensures steps { steps.new ≡ steps.old + 1 }
{
    steps.tick();
    a.compare_levels(b)
}
