// Lists of points, accepted as a ring or refused.
use crate::reading::{point_of, points_of, ring_of, row_of};
use exact_plane::{Pt, Steps};
use plane::MAX_CORNERS;
use ring_check::{Ring, RingFault, sweep_finds_none};
use std::alloc::Global;
use std::sync::ledger::Ledger;

// A list, and what becomes of it: a ring as it is given, or backward, since it ran clockwise, or a refusal. In place of a list
// stands `comb` with its number of points.
pub(crate) const LISTS: &str = "\
an L | 0,0 4,0 4,2 2,2 2,4 0,4 | as given
an L, backward | 0,4 2,4 2,2 4,2 4,0 0,0 | backward
a flat vertex | 0,0 2,0 4,0 0,4 | as given
a flat vertex on a vertical side | 0,0 1,0 0,2 0,1 | as given
a triangle with a vertical side | 0,0 0,1 1,0 | backward
teeth | 0,0 1,2 2,0 3,2 4,0 4,3 3,5 2,3 1,5 0,3 | as given
a bow tie | 0,0 4,4 4,0 0,4 | clash 0,2
a vertex on an edge | 0,0 4,0 4,4 2,0 | clash 0,2
a vertex on a vertical edge | 0,0 1,0 0,1 0,2 | clash 1,3
the last edge back along the first | 0,0 1,0 0,1 2,0 | clash 0,3
an edge across one below it | 0,0 2,0 0,1 1,1 | clash 1,3
a crossing behind a vertex | 0,0 1,2 0,3 3,1 1,1 2,3 | clash 2,4
equal ends | 0,0 0,0 4,0 0,4 | clash 0,1
equal ends of another edge | 0,0 0,1 0,1 1,0 | clash 0,1
the first point again at the end | 0,0 4,0 0,4 0,0 | clash 0,2
three times one point | 1,1 1,1 1,1 | clash 0,1
three points on a line | 0,0 2,0 4,0 | clash 0,2
three points on a vertical line | 0,0 0,1 0,2 | clash 0,2
two points | 0,0 4,0 | few
the square of the limit | -8388607,-8388607 8388607,-8388607 8388607,8388607 -8388607,8388607 | as given
the longest sliver | -8388607,-8388607 8388607,8388607 8388607,8388606 | backward
a vertex beside the longest edge | -8388607,-8388607 8388607,8388606 -8388606,-8388606 -8388607,8388607 | as given
a vertex on the longest edge | -8388607,-8388607 8388607,8388607 -8388607,8388607 0,0 | clash 0,2
a vertex beyond the longest edge | -8388607,-8388607 8388607,8388606 -8388607,8388607 8388606,8388605 | clash 0,2
the longest diagonals | -8388607,-8388607 8388607,8388607 8388607,-8388607 -8388607,8388607 | clash 0,2
the most points | comb 16384 | as given
one point more | comb 16385 | many";

// The number of the reflex vertex of an L, its list, and the vertices as they are kept, each with the numbers of the vertex and of
// the edge in the list.
pub(crate) const KEPT: &str = "\
3 | 0,0 4,0 4,2 2,2 2,4 0,4 | 0,0/0/0 4,0/1/1 4,2/2/2 2,2/3/3 2,4/4/4 0,4/5/5
4 | 0,4 2,4 2,2 4,2 4,0 0,0 | 0,4/0/5 0,0/5/4 4,0/4/3 4,2/3/2 2,2/2/1 2,4/1/0";

pub(crate) fn is_judged<L: Ledger>(alloc: Global, row: &str, steps: &mut Steps<L>) -> bool {
    if let Some((_, list, want)) = row_of(row)
        && let Some(points) = listed(alloc, list)
    {
        is_known(alloc, &points, want, steps) && is_wanted(points, want, steps)
    } else {
        false
    }
}

fn listed(alloc: Global, list: &str) -> Option<Vec<Pt>> {
    if let Some(count) = list.strip_prefix("comb ")
        && let Ok(count) = count.parse()
    {
        comb(alloc, count)
    } else {
        points_of(alloc, list)
    }
}

// Whether the sweep accepts the list exactly if it is a ring, which no contract says.
fn is_known<L: Ledger>(alloc: Global, points: &[Pt], want: &str, steps: &mut Steps<L>) -> bool {
    let is_ring = want == "as given" || want == "backward";
    points.len() < 3
        || points.len() > MAX_CORNERS
        || sweep_finds_none(alloc, points, steps) == is_ring
}

fn is_wanted<L: Ledger>(points: Vec<Pt>, want: &str, steps: &mut Steps<L>) -> bool {
    match Ring::of(points, steps) {
        Ok(ring) => want
            == if ring.is_turned() {
                "backward"
            } else {
                "as given"
            },
        Err(RingFault::Few) => want == "few",
        Err(RingFault::Many) => want == "many",
        Err(RingFault::Clash(i, j)) => clash_of(want) == Some((i, j)),
    }
}

fn clash_of(want: &str) -> Option<(u32, u32)> {
    if let Some(places) = want.strip_prefix("clash ")
        && let Some((first, second)) = places.split_once(',')
        && let Ok(first) = first.parse()
        && let Ok(second) = second.parse()
    {
        Some((first, second))
    } else {
        None
    }
}

// The list of `count` points that goes along the upper side of the square of the limit and back by teeth, from its lower
// side to its middle. With the most vertices it is a ring, and a longer one has too many.
fn comb(alloc: Global, count: u32) -> Option<Vec<Pt>> {
    let mut points = points_of(alloc, "8388607,8388607 -8388607,8388607")?;
    for i in 2..count {
        let x = (i as i64).wrapping_mul(1_023).wrapping_sub(8_388_607);
        let y = if i % 2 == 0 { -8_388_607 } else { 0 };
        points.push(Pt::of(x, y)?).ok()?;
    }
    Some(points)
}

pub(crate) fn is_kept<L: Ledger>(alloc: Global, row: &str, steps: &mut Steps<L>) -> bool {
    if let Some((reflex, list, want)) = row_of(row)
        && let Ok(reflex) = reflex.parse()
        && let Some(ring) = ring_of(alloc, list, steps)
    {
        has_vertices(&ring, want, steps) && has_reflex(&ring, reflex, steps)
    } else {
        false
    }
}

fn has_vertices<L: Ledger>(ring: &Ring, want: &str, steps: &mut Steps<L>) -> bool {
    let mut i = 0;
    for word in want.split(' ') {
        if i >= ring.len() || !is_vertex(ring, i, word, steps) {
            return false;
        }
        i += 1;
    }
    i == 6 && ring.len() == 6
}

// Whether this vertex is reflex, and no other.
fn has_reflex<L: Ledger>(ring: &Ring, reflex: u32, steps: &mut Steps<L>) -> bool {
    for i in 0..ring.len() {
        if ring.is_reflex(i, steps) != (i == reflex) {
            return false;
        }
    }
    true
}

fn is_vertex<L: Ledger>(ring: &Ring, i: u32, want: &str, steps: &mut Steps<L>) -> bool {
    if let Some((point, numbers)) = want.split_once('/')
        && let Some((vertex, edge)) = numbers.split_once('/')
        && let Some(point) = point_of(point)
        && i < ring.len()
    {
        ring.corner(i).parts(steps) == point.parts(steps)
            && vertex.parse() == Ok(ring.given_index(i))
            && edge.parse() == Ok(ring.given_edge(i))
    } else {
        false
    }
}
