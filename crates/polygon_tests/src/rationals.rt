// Rational points that are given by their parts, with answers that were worked out by hand or with exact fractions.
use crate::reading::{Parts, direction, ordering, parts_of, point_of, row_of};
use exact_plane::{Hom, Steps, order_hom, turn_hom};
use std::sync::ledger::Ledger;

// Two rational points, by X, Y and W. The parts are those of the meetings of some lines, or as large as they may be:
// 2^75 - 1 and 2^50 - 1.
pub(crate) const ORDERS: &str = "\
the longest diagonals meet at the origin | 0,0,562949819203592 0,0,1 | equal
the narrowest angle is at its corner | 140737454800898,140737454800898,16777214 8388607,8388607,1 | equal
one less across | 140737454800897,140737454800898,16777214 8388607,8388607,1 | less
one more upward | 140737454800898,140737454800899,16777214 8388607,8388607,1 | greater
the greatest parts | 37778931862957161709567,-37778931862957161709567,1125899906842623 37778931862957161709567,-37778931862957161709567,1125899906842623 | equal
the greatest parts, by one in the weight | 37778931862957161709567,0,1125899906842623 37778931862957161709567,0,1125899906842622 | less
the smallest parts, by one in the weight | -37778931862957161709567,0,1125899906842623 -37778931862957161709567,0,1125899906842622 | greater
a long fraction and its lowest terms | -8388607,-281474901213189,562949785649165 -8388607,-281474901213189,562949785649165 | equal
the longest diagonals within the lower limit | 0,0,8000000000000 0,0,1 | equal
the narrowest angle within it | 2000000000000,2000000000000,2000000 1000000,1000000,1 | equal
a whole point beyond both ways | 3,0,1 3,0,1 | equal
between whole points | 21,0,9 7,0,3 | equal";

// Two whole points and a rational point.
pub(crate) const TURNS: &str = "\
on the longest line | -8388607,-8388607 8388607,8388607 140737454800898,140737454800898,16777214 | straight
beside it by the least | -8388607,-8388607 8388607,8388607 37778931862957161709566,37778931862957161709567,1125899906842623 | left
beside it, on the other side | -8388607,-8388607 8388607,8388607 37778931862957161709567,37778931862957161709566,1125899906842623 | right
far off to the left | 8388607,-8388607 8388607,8388607 -37778931862957161709567,37778931862957161709567,1 | left
no way | 3,4 3,4 37778931862957161709567,-37778931862957161709567,1125899906842623 | straight";

// Two rational points, and their mediant, by its parts.
pub(crate) const MEDIANTS: &str = "\
of whole points | 0,0,1 3,5,1 | 3,5,2
of the meetings of the widest lines | 0,0,562949819203592 140737454800898,140737454800898,16777214 | 140737454800898,140737454800898,562949835980806
of a point with itself | 7,8,3 7,8,3 | 14,16,6";

fn rational_of(numbers: &str) -> Option<Hom> {
    match parts_of(numbers) {
        Some((x, y, w)) => Hom::of_parts(x, y, w),
        None => None,
    }
}

pub(crate) fn is_ordered<L: Ledger>(row: &str, steps: &mut Steps<L>) -> bool {
    if let Some((_, list, want)) = row_of(row)
        && let Some((p, q)) = list.split_once(' ')
        && let Some(p) = rational_of(p)
        && let Some(q) = rational_of(q)
    {
        ordering(order_hom(&p, &q, steps)) == want
    } else {
        false
    }
}

pub(crate) fn is_turned<L: Ledger>(row: &str, steps: &mut Steps<L>) -> bool {
    if let Some((_, list, want)) = row_of(row)
        && let Some((a, rest)) = list.split_once(' ')
        && let Some((b, p)) = rest.split_once(' ')
        && let Some(a) = point_of(a)
        && let Some(b) = point_of(b)
        && let Some(p) = rational_of(p)
    {
        direction(turn_hom(&a, &b, &p, steps)) == want
    } else {
        false
    }
}

pub(crate) fn has_mediant<L: Ledger>(row: &str, steps: &mut Steps<L>) -> bool {
    if let Some((_, list, want)) = row_of(row)
        && let Some((p, q)) = list.split_once(' ')
        && let Some(p) = parts_of(p)
        && let Some(q) = parts_of(q)
        && let Some(want) = parts_of(want)
    {
        mediant(p, q, steps) == Some(want)
    } else {
        false
    }
}

fn mediant<L: Ledger>(p: Parts, q: Parts, steps: &mut Steps<L>) -> Option<Parts> {
    if let Some(p) = Hom::of_narrow_parts(p.0, p.1, p.2)
        && let Some(q) = Hom::of_narrow_parts(q.0, q.1, q.2)
    {
        Some(Hom::between(&p, &q, steps).parts(steps))
    } else {
        None
    }
}
