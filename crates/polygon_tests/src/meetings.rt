// Where lines meet.
use crate::reading::{is_same, points_of, row_of};
use exact_plane::{Direction, Hom, Pt, Steps, turn_hom};
use std::alloc::Global;
use std::sync::ledger::Ledger;

// Two lines, by two points each, and the point where they meet, by its parts X, Y and W.
pub(crate) const MEETINGS: &str = "\
the longest diagonals | -8388607,-8388607 8388607,8388607 -8388607,8388607 8388607,-8388607 | 0,0,1
the narrowest angle | -8388607,-8388607 8388607,8388607 -8388607,-8388606 8388607,8388607 | 8388607,8388607,1
a long fraction in lowest terms | -8388607,-8388607 8388607,8388606 -8388607,8388607 8388606,-8388607 | -8388607,-281474901213189,562949785649165
parallel | -8388607,-8388607 8388607,8388607 -8388607,-8388606 8388606,8388607 | none
the longest diagonals within the lower limit | -1000000,-1000000 1000000,1000000 -1000000,1000000 1000000,-1000000 | 0,0,1
the narrowest angle within it | -1000000,-1000000 1000000,1000000 -1000000,-999999 1000000,1000000 | 1000000,1000000,1
parallel within it | -1000000,-1000000 1000000,1000000 -1000000,-999999 999999,1000000 | none
one line | 0,0 1,2 2,4 3,6 | none
one point for a line | 0,0 0,0 1,0 2,5 | none
beyond both ways | 0,0 1,0 0,3 1,2 | 3,0,1
between whole points | 0,0 3,0 0,1 7,-2 | 7,0,3";

pub(crate) fn is_met<L: Ledger>(alloc: Global, row: &str, steps: &mut Steps<L>) -> bool {
    if let Some((_, list, want)) = row_of(row)
        && let Some(points) = points_of(alloc, list)
        && let [a, b, c, d] = points.as_slice()
    {
        meet_at(a, b, c, d, want, steps)
    } else {
        false
    }
}

fn meet_at<L: Ledger>(a: &Pt, b: &Pt, c: &Pt, d: &Pt, want: &str, steps: &mut Steps<L>) -> bool {
    match Hom::meet(a, b, c, d, steps) {
        Some(point) => {
            turn_hom(a, b, &point, steps) == Direction::Straight
                && turn_hom(c, d, &point, steps) == Direction::Straight
                && is_same(&point, want, steps)
        }
        None => want == "none",
    }
}
