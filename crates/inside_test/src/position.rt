ghost use Rattle.std.specs.Prelude.{◌≡◌, ◌↔◌, ◌+◌, ◌*◌, ◌-◌, ◌<◌, ◌≤◌, IfNone, IfSome, length};
ghost use Rattle.plane.specs.Point.{IsPoint, whole};
ghost use Rattle.rings.specs.Edge.{IsOnSome, edges_of};
ghost use Rattle.rings.specs.Inside.{IsIn};
ghost use Rattle.inside_test.specs.Level.{AreLevels};
ghost use Rattle.inside_test.specs.Odd.{IsOddOver, IsOddTo};

use crate::crossing::{Meeting, Vertex, meeting_of};
use crate::level::Levels;
use exact_plane::{BoundingBox, Hom, Pt, Steps};
use ring_check::Ring;
use std::sync::ledger::Ledger;

// How many edges are looked at together: their ends are sixteen vertices.
pub(crate) const BLOCK: u32 = 15;

/// Where a point lies.
#[derive(Clone, Copy, Debug, PartialEq, Eq)]
pub enum Position {
    /// In the polygon and on no edge.
    Inside,
    /// On an edge.
    Edge,
    /// Not in the polygon.
    Outside,
}

/// The position of `p`, by the edges that the ray from it to the right crosses. It takes at most 1280 n + 65 steps, n the number
/// of vertices.
pub fn place<L: Ledger>(ring: &Ring, p: &Pt, steps: &mut Steps<L>) -> Position
    ensures edge { (result ≡ Position.Edge) ↔ IsOnSome (edges_of ring.now.corners) (whole p.now) }
    ensures inside { (result ≡ Position.Inside) ↔ (IsIn ring.now.corners (whole p.now) × ¬ (IsOnSome (edges_of ring.now.corners) (whole p.now))) }
    ensures outside { (result ≡ Position.Outside) ↔ ¬ (IsIn ring.now.corners (whole p.now)) }
    ensures steps { steps.new ≤ steps.old + 1280 * length ring.now.corners + 65 }
{
    place_hom(ring, &Hom::of_pt(p, steps), steps)
}

/// The position of a rational point. It takes at most 1280 n + 64 steps, n the number of vertices.
pub fn place_hom<L: Ledger>(ring: &Ring, p: &Hom, steps: &mut Steps<L>) -> Position
    ensures edge { (result ≡ Position.Edge) ↔ IsOnSome (edges_of ring.now.corners) p.now }
    ensures inside { (result ≡ Position.Inside) ↔ (IsIn ring.now.corners p.now × ¬ (IsOnSome (edges_of ring.now.corners) p.now)) }
    ensures outside { (result ≡ Position.Outside) ↔ ¬ (IsIn ring.now.corners p.now) }
    ensures steps { steps.new ≤ steps.old + 1280 * length ring.now.corners + 64 }
{
    let (n, levels) = (ring.len(), Levels::of(p, steps));
    let mut is_odd = false;
    let mut first = 0;
    while first < n {
        let end = n.min(first + BLOCK);
        let odd = match odd_by_box(ring, first, end, &levels, steps) {
            Some(odd) => odd,
            None => match odd_by_edges(ring, first, end, p, &levels, steps) {
                Some(odd) => odd,
                None => return Position::Edge,
            },
        };
        is_odd = is_odd != odd;
        first = end;
    }
    if is_odd {
        Position::Inside
    } else {
        Position::Outside
    }
}

// Whether an odd number of the edges from edge `first` to before edge `end` is crossed, where all of them lie to one side of the
// point with these levels. It takes 64 steps a vertex for the box, and 128 for two of them; the last edges have no box, since they
// end at the first vertex.
fn odd_by_box<L: Ledger>(
    ring: &Ring,
    first: u32,
    end: u32,
    levels: &Levels,
    steps: &mut Steps<L>,
) -> Option<bool>
    requires some { first < end }
    requires within { end ≤ length ring.now.corners }
    ensures odd { IfSome result (IsOddTo ring.now.corners levels.now first end) }
    ensures steps { steps.new ≤ steps.old + 64 * (end - first) + 192 }
    ensures steps_of_last { end ≡ length ring.now.corners → steps.new ≡ steps.old }
{
    if end == ring.len() {
        return None;
    }
    let vertices = &ring.corners()[first as usize..end as usize + 1];
    let around = BoundingBox::of(vertices, steps);
    if levels.misses(&around) {
        return Some(false);
    }
    if levels.is_left_of_all(&around) {
        let begins_above = levels.is_below(&ring.corner(first), steps);
        let ends_above = levels.is_below(&ring.corner(end), steps);
        return Some(begins_above != ends_above);
    }
    None
}

// The same by one edge after the other, or `None` where the point is on one of them. It takes at most 1088 steps an edge, and 64
// for the first vertex.
fn odd_by_edges<L: Ledger>(
    ring: &Ring,
    first: u32,
    end: u32,
    p: &Hom,
    levels: &Levels,
    steps: &mut Steps<L>,
) -> Option<bool>
    requires some { first < end }
    requires within { end ≤ length ring.now.corners }
    requires levels { AreLevels levels.now p.now }
    requires rational { IsPoint p.now }
    ensures on { IfNone result (IsOnSome (edges_of ring.now.corners) p.now) }
    ensures odd { IfSome result (IsOddOver ring.now.corners first end p.now) }
    ensures steps { steps.new ≤ steps.old + 1088 * (end - first) + 64 }
{
    let mut is_odd = false;
    let mut a = Vertex::of(ring.corner(first), levels, steps);
    for i in first..end {
        let b = Vertex::of(ring.next(i), levels, steps);
        match meeting_of(&a, &b, p, levels, steps) {
            Meeting::On => return None,
            Meeting::Crossed => is_odd = !is_odd,
            Meeting::Missed => {}
        }
        a = b;
    }
    Some(is_odd)
}
