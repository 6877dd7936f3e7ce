// How two lists of points turn against each other.
use crate::reading::{direction, points_of, row_of};
use exact_plane::{Pt, Steps, order};
use rel_hull::path_turn;
use std::alloc::Global;
use std::cmp::Ordering;
use std::sync::ledger::Ledger;

// Two lists, and how the second turns against the first, and the first against the second.
pub(crate) const TURNS: &str = "\
one is a point | 0,0 / 0,0 4,4 | straight straight
one ends where they part | 0,0 4,0 / 0,0 4,0 4,4 | straight straight
they part at once | 0,0 4,0 / 0,0 0,4 | left right
they part later | 0,0 2,0 4,2 / 0,0 2,0 2,4 | left right
in opposite ways | 0,0 4,0 4,4 / 0,0 -4,0 | straight straight
left at the nearer point | 0,0 4,0 / 0,0 2,0 2,2 | left right
right at the nearer point | 0,0 4,0 / 0,0 2,0 2,-2 | right left
to the nearer point | 0,0 4,0 4,4 / 0,0 2,0 | straight straight
on over the nearer point | 0,0 4,0 / 0,0 2,0 3,0 3,3 | straight straight";

pub(crate) fn is_turned<L: Ledger>(alloc: Global, row: &str, steps: &mut Steps<L>) -> bool {
    if let Some((_, lists, want)) = row_of(row)
        && let Some((first, second)) = lists.split_once(" / ")
        && let Some((there, back)) = want.split_once(' ')
        && let Some(ab) = points_of(alloc, first)
        && let Some(ac) = points_of(alloc, second)
    {
        turned(&ab, &ac, steps) == Some(there) && turned(&ac, &ab, steps) == Some(back)
    } else {
        false
    }
}

fn turned<L: Ledger>(ab: &[Pt], ac: &[Pt], steps: &mut Steps<L>) -> Option<&'static str> {
    if ab.is_empty() || ac.is_empty() || order(&ab[0], &ac[0], steps) != Ordering::Equal {
        return None;
    }
    Some(direction(path_turn(ab, ac, steps)))
}
