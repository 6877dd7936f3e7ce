// The vertices of a set that lie farthest in four directions.
ghost use Rattle.std.specs.Prelude.{◌≡◌, ◌+◌, ◌≤◌, IsTrue, length};
ghost use Rattle.triangle_boxes.specs.Hierarchy.{AreExtremesBelow};

use exact_plane::{Pt, Steps, is_within, order, order_upward};
use std::cmp::Ordering;
use std::sync::ledger::Ledger;

/// The vertices that lie farthest west, east, south and north among some, by their indices: a bounding box without a coordinate.
#[derive(Clone, Copy)]
pub(crate) struct Extremes {
    west: u32,
    east: u32,
    south: u32,
    north: u32,
}

impl Extremes {
    // Returns those of one vertex.
    pub(crate) fn of(v: u32) -> Extremes {
        Extremes {
            west: v,
            east: v,
            south: v,
            north: v,
        }
    }

    // Returns those of both sets. It takes at most 4 steps.
    pub(crate) fn joined<L: Ledger>(
        &self,
        other: &Extremes,
        corners: &[Pt],
        steps: &mut Steps<L>,
    ) -> Extremes
        ensures { steps.new ≤ steps.old + 4 }
    {
        Extremes {
            west: along(corners, self.west, other.west, Ordering::Less, steps),
            east: along(corners, self.east, other.east, Ordering::Greater, steps),
            south: upward(corners, self.south, other.south, Ordering::Less, steps),
            north: upward(corners, self.north, other.north, Ordering::Greater, steps),
        }
    }

    // Returns whether they are among the first `n` vertices.
    pub(crate) fn are_below(&self, n: usize) -> bool
        ensures { IsTrue result → AreExtremesBelow n self.now }
    {
        let (west, east) = (self.west as usize, self.east as usize);
        let (south, north) = (self.south as usize, self.north as usize);
        west < n && east < n && south < n && north < n
    }

    // Returns whether a point lies in their bounding box. It takes one step.
    pub(crate) fn hold<L: Ledger>(&self, corners: &[Pt], p: &Pt, steps: &mut Steps<L>) -> bool
        requires { AreExtremesBelow (length corners.now) self.now }
        ensures { steps.new ≡ steps.old + 1 }
    {
        let west = &corners[self.west as usize];
        let east = &corners[self.east as usize];
        let south = &corners[self.south as usize];
        let north = &corners[self.north as usize];
        is_within(p, west, east, south, north, steps)
    }
}

// Returns vertex `w` if it is less or greater than `v` in lexicographic order, as is wanted, and else `v`. It takes at most one step.
fn along<L: Ledger>(corners: &[Pt], v: u32, w: u32, wanted: Ordering, steps: &mut Steps<L>) -> u32
    ensures { steps.new ≤ steps.old + 1 }
{
    match (corners.get(v as usize), corners.get(w as usize)) {
        (Some(p), Some(q)) if order(q, p, steps) == wanted => w,
        _ => v,
    }
}

// Returns vertex `w` if it is lower or higher than `v`, as is wanted, and else `v`. It takes at most one step.
fn upward<L: Ledger>(corners: &[Pt], v: u32, w: u32, wanted: Ordering, steps: &mut Steps<L>) -> u32
    ensures { steps.new ≤ steps.old + 1 }
{
    match (corners.get(v as usize), corners.get(w as usize)) {
        (Some(p), Some(q)) if order_upward(q, p, steps) == wanted => w,
        _ => v,
    }
}
