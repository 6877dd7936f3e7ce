// The kernels of polygons.
use crate::reading::{is_same, ring_of, row_of};
use exact_plane::{Hom, Steps};
use star_kernel::kernel;
use std::alloc::Global;
use std::sync::ledger::Ledger;

// A polygon, and the corners of its kernel: X, Y and W of each, or multiples of them.
pub(crate) const KERNELS: &str = "\
an L | 0,0 4,0 4,2 2,2 2,4 0,4 | 0,0,1 2,0,1 2,2,1 0,2,1
a U | 0,0 6,0 6,4 4,4 4,2 2,2 2,4 0,4 | 
a Z, a segment | 0,0 2,0 2,1 4,1 4,2 1,2 1,1 0,1 | 1,1,1 2,1,1
a segment at the end of another | 0,0 1,0 1,1 2,0 1,3 1,2 | 1,1,1 1,2,1
a segment that is cut at an end | 1,1 0,0 1,0 2,2 3,3 1,2 0,3 | 1,1,1 3,3,2
three blades, a point | 1,0 3,0 -1,1 -3,3 -1,-1 -3,-3 | 0,0,1
a dart | 0,0 6,0 3,1 0,5 | 0,0,1 15,0,4 3,1,1 0,2,1
a dart that is given clockwise | 0,5 3,1 6,0 0,0 | 0,0,1 15,0,4 3,1,1 0,2,1
corners on a later line | 1,2 0,0 1,0 1,1 2,0 | 2,4,3 1,1,1 1,2,1
a triangle from its last corner | 1,1 0,0 1,0 | 0,0,1 1,0,1 1,1,1
a triangle from its least corner | 0,0 1,0 2,1 | 0,0,1 1,0,1 2,1,1
a triangle from another corner | 1,0 0,1 0,0 | 0,0,1 1,0,1 0,1,1
the square of the limit | -8388607,-8388607 8388607,-8388607 8388607,8388607 -8388607,8388607 | -8388607,-8388607,1 8388607,-8388607,1 8388607,8388607,1 -8388607,8388607,1
half of it, clockwise | -8388607,-8388607 -8388607,8388607 8388607,8388607 | -8388607,-8388607,1 8388607,8388607,1 -8388607,8388607,1
a dart in it | -8388607,-8388607 8388607,-8388607 0,-1 -8388607,8388607 | -8388607,-8388607,1 70368719011842,-70368735789056,8388608 0,-1,1 -8388607,8388605,1
a square with flat vertices | 0,0 1,0 2,0 2,2 1,2 0,2 | 0,0,1 2,0,1 2,2,1 0,2,1";

pub(crate) fn is_kernel<L: Ledger>(alloc: Global, row: &str, steps: &mut Steps<L>) -> bool {
    if let Some((_, list, want)) = row_of(row)
        && let Some(ring) = ring_of(alloc, list, steps)
        && let Ok(corners) = kernel(alloc, &ring, steps)
    {
        are_same(corners.as_slice(), want, steps)
    } else {
        false
    }
}

fn are_same<L: Ledger>(corners: &[Hom], want: &str, steps: &mut Steps<L>) -> bool {
    let mut count = 0;
    for numbers in want.split_whitespace() {
        if count >= corners.len() || !is_same(&corners[count], numbers, steps) {
            return false;
        }
        count += 1;
    }
    count == corners.len()
}
