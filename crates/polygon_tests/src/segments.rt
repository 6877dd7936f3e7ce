// Whether a ring holds a segment.
use crate::reading::{point_of, ring_of, row_of, yes_or_no};
use exact_plane::Steps;
use inside_test::holds_segment;
use std::alloc::Global;
use std::sync::ledger::Ledger;

// A U, and segments of which it holds some.
pub(crate) const U_SHAPE: &str = "0,0 6,0 6,4 4,4 4,2 2,2 2,4 0,4";

pub(crate) const IN_U: &str = "\
across the notch | 0,3 6,3 | no
along the bottom of the notch | 0,2 6,2 | yes
along two tops, and out between | 0,4 6,4 | no
from vertex to vertex over the notch | 2,4 4,4 | no
along an edge | 4,4 4,2 | yes
along an edge, and on inside | 2,4 2,0 | yes
along an edge, and on outside | 2,0 2,5 | no
along an edge, backward | 6,0 0,0 | yes
inside | 1,1 5,1 | yes
inside, from leg to leg | 1,3 5,0 | no
from leg to leg, by a corner of the notch | 1,3 4,0 | yes
from leg to leg, through the notch | 1,4 5,1 | no
one point inside | 1,1 1,1 | yes
one point on an edge | 6,3 6,3 | yes
one point at a vertex | 4,2 4,2 | yes
one point in the notch | 3,3 3,3 | no
outside | 7,0 7,4 | no
outside, touching a vertex | 5,5 7,3 | no
outside, ending on the boundary | 8,2 6,2 | no
from inside to the boundary | 1,1 6,1 | yes
from inside to the boundary, and beyond | 1,1 7,1 | no";

// Three teeth over a base with a flat vertex.
pub(crate) const TEETH: &str = "0,0 4,0 8,0 8,4 6,2 4,4 2,2 0,4";

pub(crate) const IN_TEETH: &str = "\
touching two vertices from inside | 0,2 8,2 | yes
touching a vertex from inside, and out | 0,2 9,2 | no
touching a top from outside | 0,4 8,4 | no
between the teeth | 1,3 7,3 | no
over a reflex vertex | 4,4 8,0 | yes
along two edges on one line | 0,0 8,0 | yes
along a flat edge, between its ends | 1,0 7,0 | yes
over a flat vertex, and out | 4,-1 4,4 | no
to a flat vertex | 4,4 4,0 | yes
from top to top | 4,4 8,4 | no";

// A notch from above that comes within 1 of the base, in the square of the limit.
pub(crate) const WIDE: &str =
    "-8388607,-8388607 8388607,-8388607 8388607,8388607 0,-8388606 -8388607,8388607";

pub(crate) const IN_WIDE: &str = "\
under a narrow gap | -8388607,-8388607 8388607,-8388607 | yes
through a narrow gap | -8388607,-8388606 8388607,-8388606 | yes
over a narrow gap | -8388607,-8388605 8388607,-8388605 | no
aslant through a narrow gap | -8388607,-8388605 8388607,-8388607 | yes
aslant over a narrow gap | -8388607,-8388604 8388607,-8388607 | no
beside the notch | -8388607,8388607 0,-8388607 | yes
through the notch beside its edge | -8388607,8388607 1,-8388607 | no";

// Whether the ring of a list holds the segment of a row or not, as the row says.
pub(crate) fn is_held<L: Ledger>(
    alloc: Global,
    list: &str,
    row: &str,
    steps: &mut Steps<L>,
) -> bool {
    if let Some((_, ends, want)) = row_of(row)
        && let Some((a, b)) = ends.split_once(' ')
        && let Some(a) = point_of(a)
        && let Some(b) = point_of(b)
        && let Some(ring) = ring_of(alloc, list, steps)
        && let Ok(is_held) = holds_segment(alloc, &ring, &a, &b, steps)
    {
        want == yes_or_no(is_held)
    } else {
        false
    }
}
