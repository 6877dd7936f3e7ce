// The vertices of combs, and the ends of the path that is asked for.
use crate::reading::{point_of, points_of, row_of};
use exact_plane::{Pt, Steps};
use geo_gen::{MAX_TEETH, comb, comb_goal, comb_start};
use std::alloc::Global;
use std::sync::ledger::Ledger;

// The vertices, two for each tooth and two more, and the goal of the path.
pub(crate) const COMBS: &str = "\
one tooth | 0,0 4,6 4,8 0,2 | 4,7
two teeth | 0,0 4,6 8,0 8,2 4,8 0,2 | 8,1
three teeth | 0,0 4,6 8,0 12,6 12,8 8,2 4,8 0,2 | 12,7";

pub(crate) fn is_comb<L: Ledger>(alloc: Global, row: &str, steps: &mut Steps<L>) -> bool {
    if let Some((_, vertices, goal)) = row_of(row)
        && let Some(want) = points_of(alloc, vertices)
        && let Some(goal) = point_of(goal)
        && let Ok(half) = u32::try_from(want.len() / 2)
        && 2 <= half
        && half <= MAX_TEETH
        && let Ok(points) = comb(alloc, half - 1)
    {
        are_same(&points, &want, steps) && comb_goal(half - 1).parts(steps) == goal.parts(steps)
    } else {
        false
    }
}

fn are_same<L: Ledger>(points: &[Pt], want: &[Pt], steps: &mut Steps<L>) -> bool {
    if points.len() != want.len() {
        return false;
    }
    for i in 0..points.len() {
        if points[i].parts(steps) != want[i].parts(steps) {
            return false;
        }
    }
    true
}

// The path begins at 0,1. The comb with the most teeth has 4,096 vertices, and the greatest coordinate is 8,188.
pub(crate) fn is_greatest<L: Ledger>(alloc: Global, steps: &mut Steps<L>) -> bool {
    match comb(alloc, MAX_TEETH) {
        Ok(points) => {
            comb_start().parts(steps) == (0, 1)
                && points.len() == 4_096
                && points[2_047].parts(steps) == (8_188, 6)
                && points[2_048].parts(steps) == (8_188, 8)
                && comb_goal(MAX_TEETH).parts(steps) == (8_188, 7)
        }
        Err(_) => false,
    }
}
