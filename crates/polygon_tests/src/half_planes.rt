// Regions that are cut along the edges of a list of points, one after another: what is left of the square of the limit.
use crate::reading::{is_same, points_of, row_of};
use exact_plane::{Pt, Steps, order};
use half_cut::Region;
use std::alloc::Global;
use std::cmp::Ordering;
use std::sync::ledger::Ledger;

// The points, and the corners that are left: X, Y and W of each, or multiples of them.
pub(crate) const CUTS: &str = "\
no edge |  | -8388607,-8388607,1 8388607,-8388607,1 8388607,8388607,1 -8388607,8388607,1
a triangle | 0,0 4,0 0,4 | 0,0,1 4,0,1 0,4,1
the same clockwise | 0,0 0,4 4,0 | 
a segment with a meeting at its end | 0,0 1,0 1,1 2,0 1,3 1,2 | 1,1,1 1,2,1
a segment that is cut between its ends | 1,1 0,0 1,0 2,2 3,3 1,2 0,3 | 1,1,1 3,3,2
corners on the line stay | 1,2 0,0 1,0 1,1 2,0 | 2,4,3 1,1,1 1,2,1
the last corner that stays is on the line | 1,1 0,0 1,0 | 0,0,1 1,0,1 1,1,1
the meeting before the first corner | 0,0 1,0 2,1 | 0,0,1 1,0,1 2,1,1
the least corner comes first again | 1,0 0,1 0,0 | 0,0,1 1,0,1 0,1,1
along one line there and back | 0,0 2,0 1,0 | -8388607,0,1 8388607,0,1
along two lines there and back | 0,0 1,0 0,0 0,1 | 0,0,1
through two corners, to one of them | 2,0 2,2 0,2 0,0 2,2 | 2,2,1
an L | 0,0 4,0 4,2 2,2 2,4 0,4 | 0,0,1 2,0,1 2,2,1 0,2,1
a U | 0,0 6,0 6,4 4,4 4,2 2,2 2,4 0,4 | 
a star | 0,0 3,1 6,0 5,3 6,6 3,5 0,6 1,3 | 1,3,1 3,3,2 3,1,1 9,3,2 5,3,1 9,9,2 3,5,1 3,9,2
the diagonal of the limit | -8388607,-8388607 8388607,8388607 -8388607,8388607 | -8388607,-8388607,1 8388607,8388607,1 -8388607,8388607,1
a dart at the limit | -8388607,-8388607 8388607,-8388607 0,-1 -8388607,8388607 | -8388607,-8388607,1 70368719011842,-70368735789056,8388608 0,-1,1 -8388607,8388605,1
along the longest lines | -8388607,8388607 8388607,-8388607 8388607,8388607 -8388606,-8388607 8388607,-8388606 | 8388607,-8388607,33554427 140737438023685,-140737438023685,16777214 8388607,-8388606,1 281474901213189,8388607,562949785649165";

pub(crate) fn is_left<L: Ledger>(alloc: Global, row: &str, steps: &mut Steps<L>) -> bool {
    if let Some((_, list, want)) = row_of(row)
        && let Some(points) = points_of(alloc, list)
        && let Some(left) = cut_along(alloc, &points, steps)
    {
        has_corners(&left, want, steps)
    } else {
        false
    }
}

// What is left of the square.
fn cut_along<L: Ledger>(alloc: Global, points: &[Pt], steps: &mut Steps<L>) -> Option<Region> {
    let mut region = Region::all(alloc).ok()?;
    for i in 0..points.len() {
        region = cut(
            alloc,
            region,
            &points[i],
            &points[(i + 1) % points.len()],
            steps,
        )?;
    }
    Some(region)
}

fn cut<L: Ledger>(
    alloc: Global,
    region: Region,
    a: &Pt,
    b: &Pt,
    steps: &mut Steps<L>,
) -> Option<Region> {
    if order(a, b, steps) != Ordering::Equal && region.count() < 1 << 31 {
        region.cut(alloc, a, b, steps).ok()
    } else {
        None
    }
}

fn has_corners<L: Ledger>(region: &Region, want: &str, steps: &mut Steps<L>) -> bool {
    let mut count = 0;
    for numbers in want.split_whitespace() {
        if count >= region.count() || !is_same(&region.corner(count), numbers, steps) {
            return false;
        }
        count += 1;
    }
    count == region.count()
}
