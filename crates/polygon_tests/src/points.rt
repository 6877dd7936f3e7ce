// Questions about points, with answers that were worked out by hand or with exact fractions.
use crate::reading::{direction, ordering, points_of, row_of, yes_or_no};
use exact_plane::{
    Direction, Hom, Pt, Steps, in_cone, in_triangle, meet_only_at, on_segment, order,
    segments_meet, turn,
};
use std::alloc::Global;
use std::sync::ledger::Ledger;

// A question, its name, the points that it is asked of, and the answer. The limit of coordinates is 8,388,607; a lower
// limit, that of version 1 of the script, is 1,000,000.
pub(crate) const QUESTIONS: &str = "\
turn | upward | 0,0 2,0 2,1 | left
turn | downward | 0,0 2,0 2,-1 | right
turn | back | 0,0 2,2 1,1 | straight
turn | from one point | 3,4 3,4 5,9 | straight
turn | on, where rounding bends | 0,0 10000,21082 30000,63246 | straight
turn | the widest left | -8388607,-8388607 8388607,-8388607 -8388607,8388607 | left
turn | the narrowest right | -8388607,-8388607 8388607,8388607 8388607,8388606 | right
turn | the longest line | -8388607,-8388607 0,0 8388607,8388607 | straight
turn | the widest left within the lower limit | -1000000,-1000000 1000000,-1000000 -1000000,1000000 | left
turn | the narrowest right within it | -1000000,-1000000 1000000,1000000 1000000,999999 | right
turn | the longest line within it | -1000000,-1000000 0,0 1000000,1000000 | straight
order | farther left, and higher | -8388607,8388607 8388607,-8388607 | less
order | farther right, and lower | 1,-9 -1,9 | greater
order | below | 2,-1 2,3 | less
order | above | 5,6 5,-6 | greater
order | the same | 7,7 7,7 | equal
on segment | the first end | 0,0 0,0 4,2 | yes
on segment | the last end | 4,2 0,0 4,2 | yes
on segment | inside | 2,1 0,0 4,2 | yes
on segment | inside, read backward | 2,1 4,2 0,0 | yes
on segment | inside, upright | 3,0 3,-5 3,5 | yes
on segment | beyond the last end | 6,3 0,0 4,2 | no
on segment | before the first end | -2,-1 0,0 4,2 | no
on segment | above, upright | 3,6 3,-5 3,5 | no
on segment | beside | 2,2 0,0 4,2 | no
on segment | beside the longest | 0,1 -8388607,-8388607 8388607,8388607 | no
on segment | inside the longest | 0,0 -8388607,-8388607 8388607,8388607 | yes
on segment | a segment of one point | 5,7 5,7 5,7 | yes
on segment | above a segment of one point | 5,8 5,7 5,7 | no
meet only at | turning | 0,0 4,0 4,3 | yes
meet only at | turning back beside the way | -8388607,-8388607 8388607,8388607 -8388607,-8388606 | yes
meet only at | going on | 0,0 2,1 4,2 | yes
meet only at | folding back, and shorter | 0,0 4,2 2,1 | no
meet only at | folding back, and longer | 2,1 4,2 0,0 | no
meet only at | folding back to the start | 0,0 4,2 0,0 | no
meet only at | folding back by one step | -8388607,-8388607 8388607,8388607 8388606,8388606 | no
meet only at | no first way | 4,2 4,2 0,0 | yes
meet only at | no second way | 0,0 4,2 4,2 | yes
meet only at | no way at all | 4,2 4,2 4,2 | yes
segments meet | the longest diagonals | -8388607,-8388607 8388607,8388607 -8388607,8388607 8388607,-8388607 | yes
segments meet | the longest within the lower limit | -1000000,-1000000 1000000,1000000 -1000000,1000000 1000000,-1000000 | yes
segments meet | crossing between whole points | 0,0 1,1 0,1 1,0 | yes
segments meet | an end on the middle | 0,0 4,0 2,0 2,3 | yes
segments meet | the middle on an end | 2,0 2,3 0,0 4,0 | yes
segments meet | end to end, with a turn | 0,0 2,1 2,1 5,0 | yes
segments meet | end to end, on one line | 0,0 2,1 2,1 4,2 | yes
segments meet | overlapping on one line | 0,0 4,2 2,1 6,3 | yes
segments meet | one within the other | 2,1 4,2 0,0 6,3 | yes
segments meet | apart on one line | 0,0 2,1 4,2 6,3 | no
segments meet | parallel | 0,0 4,2 0,1 4,3 | no
segments meet | the second beside the first | 0,0 4,4 3,1 4,0 | no
segments meet | the first beside the second | 0,0 1,1 0,3 3,0 | no
segments meet | far apart | 0,0 1,1 5,5 6,7 | no
segments meet | one point on a segment | 2,1 2,1 0,0 4,2 | yes
segments meet | one point beside a segment | 2,2 2,2 0,0 4,2 | no
segments meet | one point beyond a segment | 0,0 4,2 6,3 6,3 | no
segments meet | one point twice | 3,3 3,3 3,3 3,3 | yes
segments meet | two points | 3,3 3,3 3,4 3,4 | no
in cone | between the rays | 0,0 4,0 0,4 1,1 | yes
in cone | on the first ray | 0,0 4,0 0,4 9,0 | yes
in cone | on the last ray | 0,0 4,0 0,4 0,1 | yes
in cone | at the apex | 0,0 4,0 0,4 0,0 | yes
in cone | before the first ray | 0,0 4,0 0,4 4,-1 | no
in cone | beyond the last ray | 0,0 4,0 0,4 -1,4 | no
in cone | opposite | 0,0 4,0 0,4 -1,-1 | no
in cone | opposite the first ray | 0,0 4,0 0,4 -4,0 | no
in cone | between the rays, in the other order | 0,0 0,4 4,0 1,1 | yes
in cone | outside, in the other order | 0,0 0,4 4,0 -1,1 | no
in cone | in the narrowest | -8388607,-8388607 8388607,8388607 8388607,8388606 8388607,8388607 | yes
in triangle | inside | 0,0 4,0 0,4 1,1 | yes
in triangle | on the first side | 0,0 4,0 0,4 1,0 | yes
in triangle | on the second side | 0,0 4,0 0,4 2,2 | yes
in triangle | on the third side | 0,0 4,0 0,4 0,3 | yes
in triangle | a corner | 0,0 4,0 0,4 4,0 | yes
in triangle | in the box, beyond the second side | 0,0 4,0 0,4 3,3 | no
in triangle | left of the box | 0,0 4,0 0,4 -1,1 | no
in triangle | under the box | 0,0 4,0 0,4 1,-1 | no
in triangle | right of the box | 0,0 4,0 0,4 5,0 | no
in triangle | over the box | 0,0 4,0 0,4 0,5 | no
in triangle | in the narrowest | -8388607,-8388607 8388607,8388606 8388607,8388607 0,0 | yes";

// Two coordinates, and whether they are within the limit, 8,388,607.
pub(crate) const LIMITS: &str = "\
the origin | 0,0 | yes
a corner at the limit | 8388607,8388607 | yes
the opposite corner | -8388607,-8388607 | yes
a corner beside it | 8388607,-8388607 | yes
the corner opposite to that | -8388607,8388607 | yes
within the limit | 3,-4 | yes
x one past the limit | 8388608,0 | no
x one before the limit | -8388608,0 | no
y one past the limit | 0,8388608 | no
y one before the limit | 0,-8388608 | no
the greatest numbers | 9223372036854775807,9223372036854775807 | no
the least x | -9223372036854775808,0 | no
the least y | 0,-9223372036854775808 | no";

// Coordinates within the limit come out of a point as they went in.
pub(crate) fn is_limit<L: Ledger>(row: &str, steps: &mut Steps<L>) -> bool {
    if let Some((_, numbers, want)) = row_of(row)
        && let Some((x, y)) = numbers.split_once(',')
        && let Ok(x) = x.parse()
        && let Ok(y) = y.parse()
    {
        let is_point = is_kept(x, y, steps);
        Hom::of_whole(x, y).is_some() == is_point && want == yes_or_no(is_point)
    } else {
        false
    }
}

fn is_kept<L: Ledger>(x: i64, y: i64, steps: &mut Steps<L>) -> bool {
    match Pt::of(x, y) {
        Some(point) => point.parts(steps) == (x, y),
        None => false,
    }
}

pub(crate) fn is_answered<L: Ledger>(alloc: Global, row: &str, steps: &mut Steps<L>) -> bool {
    if let Some((question, rest)) = row.split_once(" | ")
        && let Some((_, list, want)) = row_of(rest)
        && let Some(points) = points_of(alloc, list)
    {
        answer(question, &points, steps) == Some(want)
    } else {
        false
    }
}

fn answer<L: Ledger>(question: &str, points: &[Pt], steps: &mut Steps<L>) -> Option<&'static str> {
    match points {
        [a, b] if question == "order" => Some(ordering(order(a, b, steps))),
        [a, b, c] => of_three(question, a, b, c, steps),
        [a, b, c, d] => of_four(question, a, b, c, d, steps),
        _ => None,
    }
}

fn of_three<L: Ledger>(
    question: &str,
    a: &Pt,
    b: &Pt,
    c: &Pt,
    steps: &mut Steps<L>,
) -> Option<&'static str> {
    match question {
        "turn" => Some(direction(turn(a, b, c, steps))),
        "on segment" => Some(yes_or_no(on_segment(a, b, c, steps))),
        "meet only at" => Some(yes_or_no(meet_only_at(a, b, c, steps))),
        _ => None,
    }
}

// A cone has to turn, and a triangle has to run counterclockwise.
fn of_four<L: Ledger>(
    question: &str,
    a: &Pt,
    b: &Pt,
    c: &Pt,
    d: &Pt,
    steps: &mut Steps<L>,
) -> Option<&'static str> {
    match question {
        "segments meet" => Some(yes_or_no(segments_meet(a, b, c, d, steps))),
        "in cone" if turn(b, a, c, steps) != Direction::Straight => {
            Some(yes_or_no(in_cone(a, b, c, d, steps)))
        }
        "in triangle" if turn(a, b, c, steps) == Direction::Left => {
            Some(yes_or_no(in_triangle(a, b, c, d, steps)))
        }
        _ => None,
    }
}
