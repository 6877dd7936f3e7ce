// Lists of points in an L, and whether they are taut.
use crate::reading::{points_of, ring_of, row_of};
use exact_plane::{Pt, Steps};
use geo_gen::{comb, comb_goal, comb_start};
use plane::MAX_CHAIN;
use ring_check::Ring;
use std::alloc::Global;
use std::sync::ledger::Ledger;
use taut_check::{Verdict, check};

pub(crate) const L_SHAPE: &str = "0,0 4,0 4,2 2,2 2,4 0,4";

pub(crate) const L_BACKWARD: &str = "0,4 2,4 2,2 4,2 4,0 0,0";

// The teeth of a comb in which a check of its path leaves out runs of edges.
const TEETH: u32 = 600;

// A list, and what it is in the L: taut, or the first rule that it breaks, with a place in the list.
pub(crate) const CHAINS: &str = "\
round the corner | 4,1 2,2 1,4 | taut
along the walls of the corner | 4,2 2,2 2,4 | taut
one point | 1,1 | taut
to the corner | 4,1 2,2 | taut
no point |  | empty
the same point again | 4,1 4,1 | repeat 0
the same point again, later | 1,1 4,1 4,1 | repeat 1
twice one point outside | 3,3 3,3 | repeat 0
a point outside | 3,3 | leaves 0
through the outside | 4,1 1,4 | leaves 0
over no vertex | 0,0 1,1 2,2 | not_reflex 1
over a vertex that is not reflex | 0,0 4,0 4,2 | not_reflex 1
straight on over the corner | 4,0 2,2 0,4 | straight 1
to the corner and back | 1,1 2,2 1,1 | straight 1
a turn away from the corner | 4,2 2,2 0,0 | wrong_side 1
a turn away from both walls | 1,0 2,2 0,1 | wrong_side 1";

// Whether the list of a row is in the ring of another what the row says.
pub(crate) fn is_judged<L: Ledger>(
    alloc: Global,
    ring: &str,
    row: &str,
    steps: &mut Steps<L>,
) -> bool {
    if let Some((_, list, want)) = row_of(row)
        && let Some(want) = verdict_of(want)
        && let Some(ring) = ring_of(alloc, ring, steps)
        && let Some(points) = points_of(alloc, list)
    {
        judged(alloc, &ring, &points, steps) == Some(want)
    } else {
        false
    }
}

// To the corner and back, as often as a list may have it.
pub(crate) fn is_longest_judged<L: Ledger>(
    alloc: Global,
    ring: &str,
    steps: &mut Steps<L>,
) -> bool {
    if let Some(ring) = ring_of(alloc, ring, steps)
        && let Some(points) = there_and_back(alloc)
    {
        points.len() == MAX_CHAIN
            && judged(alloc, &ring, &points, steps) == Some(Verdict::Straight(1))
    } else {
        false
    }
}

fn there_and_back(alloc: Global) -> Option<Vec<Pt>> {
    let there_and_back = points_of(alloc, "4,1 2,2")?;
    let mut points = Vec::new(alloc);
    for _ in 0..8_192 {
        points.extend_from_slice(&there_and_back).ok()?;
    }
    Some(points)
}

// The path through a comb, and the same without one of its points.
pub(crate) fn is_way_of_comb_judged<L: Ledger>(
    alloc: Global,
    steps: &mut Steps<L>,
) -> Option<bool> {
    let vertices = comb(alloc, TEETH).ok()?;
    let mut path = Vec::new(alloc);
    path.push(comb_start()).ok()?;
    for tooth in 1..TEETH {
        let number = if tooth % 2 == 1 {
            tooth
        } else {
            2 * TEETH + 1 - tooth
        };
        path.push(*vertices.get(number as usize)?).ok()?;
    }
    path.push(comb_goal(TEETH)).ok()?;
    let ring = Ring::of(vertices, steps).ok()?;
    let is_taut = judged(alloc, &ring, &path, steps)? == Verdict::Taut;
    if path.len() < 400 {
        return None;
    }
    path.remove(300);
    Some(is_taut && judged(alloc, &ring, &path, steps)? == Verdict::Leaves(299))
}

fn judged<L: Ledger>(
    alloc: Global,
    ring: &Ring,
    points: &[Pt],
    steps: &mut Steps<L>,
) -> Option<Verdict> {
    if points.len() <= MAX_CHAIN {
        check(alloc, ring, points, steps).ok()
    } else {
        None
    }
}

fn verdict_of(want: &str) -> Option<Verdict> {
    match want {
        "taut" => Some(Verdict::Taut),
        "empty" => Some(Verdict::Empty),
        _ => fault_of(want),
    }
}

fn fault_of(want: &str) -> Option<Verdict> {
    if let Some((word, place)) = want.split_once(' ')
        && let Ok(place) = place.parse()
    {
        match word {
            "repeat" => Some(Verdict::Repeat(place)),
            "leaves" => Some(Verdict::Leaves(place)),
            "not_reflex" => Some(Verdict::NotReflex(place)),
            "straight" => Some(Verdict::Straight(place)),
            "wrong_side" => Some(Verdict::WrongSide(place)),
            _ => None,
        }
    } else {
        None
    }
}
