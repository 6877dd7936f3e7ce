// The corner from which a region's corners are read.
ghost use Rattle.std.specs.Prelude.{◌≡◌, ◌+◌, ◌<◌, ◌≤◌, ◌↔◌, IsTrue, length};
ghost use Rattle.plane.specs.Convex.{AreConvex, corner};
ghost use Rattle.plane.specs.Order.{Precedes};
ghost use Rattle.half_cut.specs.Outline.{IsLeast};

use exact_plane::{Hom, Steps, order_hom};
use std::cmp::Ordering;
use std::collections::VecDeque;
use std::sync::ledger::Ledger;

// The place of the lexicographically least corner, by a look at each of them.
pub(crate) fn least_of_all<L: Ledger>(corners: &VecDeque<Hom>, steps: &mut Steps<L>) -> usize
    requires some { 0 < length corners.now.items }
    requires convex { AreConvex corners.now.items }
    ensures within { result < length corners.now.items }
    ensures least { IsLeast corners.now.items result }
    ensures steps { steps.new + 1 ≤ steps.old + length corners.now.items }
{
    let mut best = 0;
    for i in 1..corners.len() {
        if precedes(corners, i, best, steps) {
            best = i;
        }
    }
    best
}

// Whether corner `i` comes before corner `j`, by x and then by y.
fn precedes<L: Ledger>(corners: &VecDeque<Hom>, i: usize, j: usize, steps: &mut Steps<L>) -> bool
    requires first { i < length corners.now.items }
    requires second { j < length corners.now.items }
    ensures before { IsTrue result ↔ Precedes (corner corners.now.items i) (corner corners.now.items j) }
    ensures steps { steps.new ≡ steps.old + 1 }
{
    order_hom(&corners[i], &corners[j], steps) == Ordering::Less
}
