// Where a segment meets the edges of a ring.
ghost use Rattle.std.specs.List.{Contains};
ghost use Rattle.std.specs.Prelude.{◌≡◌, ◌↔◌, ◌++◌, ◌∷◌, [], ◌+◌, ◌*◌, ◌-◌, ◌<◌, ◌≤◌, List};
ghost use Rattle.std.specs.Prelude.{IfNone, IfOk, IfSome, IsTrue, OnOk, OnErr, false, length};
ghost use Rattle.plane.specs.Point.{IsPoint, Point, Triple, whole};
ghost use Rattle.plane.specs.Segment.{On};
ghost use Rattle.exact_plane.specs.Boxes.{Encloses};
ghost use Rattle.exact_plane.specs.Size.{IsNarrow};
ghost use Rattle.inside_test.specs.Apart.{MissesEdges};
ghost use Rattle.inside_test.specs.Breakpoints.{EnclosesAll, ExtendsOnSegment, IsListed, Lists, ListsMeetings, breakpoint_points};

use crate::breakpoint::Breakpoint;
use crate::position::BLOCK;
use exact_plane::{
    BoundingBox, Direction, Hom, Memory, Pt, Steps, on_segment, segments_meet, turns_to,
};
use ring_check::Ring;
use std::alloc::Global;
use std::cmp::Ordering;
use std::ops::Range;
use std::sync::ledger::Ledger;

// A segment seldom has more breakpoints than these.
const FEW: usize = 8;

// The ends of the segment, and where it meets the edges, in no order, unless these are more than `most`.
pub(crate) fn breakpoints<L: Ledger>(
    alloc: Global,
    ring: &Ring,
    a: &Pt,
    b: &Pt,
    most: usize,
    steps: &mut Steps<L>,
) -> Result<Option<Vec<Breakpoint>>, Memory>
    ensures points { IfOk result (λ found. IfSome found (λ points.
        ListsMeetings ring.now.corners (length ring.now.corners) (whole a.now) (whole b.now) (breakpoint_points points.items))) }
    ensures within { IfOk result (λ found. IfSome found (λ points. length points.items ≤ most)) }
    ensures few { IfOk result (λ found. IfSome found (λ points. length points.items ≤ 2 * length ring.now.corners + 2)) }
    ensures more { IfOk result (λ found. IfNone found (most < 2 * length ring.now.corners + 2)) }
    ensures steps { steps.new ≤ steps.old + (1179 * length ring.now.corners + 386) }
{
    let mut points = Vec::with_capacity(alloc, FEW)?;
    push(&mut points, Hom::of_pt(a, steps), steps)?;
    push(&mut points, Hom::of_pt(b, steps), steps)?;
    if push_edges(&mut points, ring, a, b, most, steps)? {
        Ok(Some(points))
    } else {
        Ok(None)
    }
}

// Appends what the segment has in common with all edges, and tells whether all are in a list of no more than `most`.
fn push_edges<L: Ledger>(
    points: &mut Vec<Breakpoint>,
    ring: &Ring,
    a: &Pt,
    b: &Pt,
    most: usize,
    steps: &mut Steps<L>,
) -> Result<bool, Memory>
    requires { ListsMeetings ring.now.corners 0 (whole a.now) (whole b.now) (breakpoint_points points.old.items) }
    ensures points { IfOk result (λ all. IsTrue all
        → ListsMeetings ring.now.corners (length ring.now.corners) (whole a.now) (whole b.now) (breakpoint_points points.new.items)) }
    ensures within { IfOk result (λ all. IsTrue all → length points.new.items ≤ most) }
    ensures more { IfOk result (λ all. all ≡ false → most < length points.new.items) }
    ensures few { OnOk result (length points.new.items ≤ length points.old.items + 2 * length ring.now.corners) }
    ensures steps { steps.new ≤ steps.old + (1179 * length ring.now.corners + 256) }
{
    let (n, around) = (ring.len(), BoundingBox::of(&[*a, *b], steps));
    let mut first = 0;
    while first < n && points.len() <= most {
        let end = n.min(first + BLOCK);
        if !are_apart(ring, first, end, &around, steps) {
            push_block(points, ring, first..end, a, b, steps)?;
        }
        first = end;
    }
    Ok(points.len() <= most)
}

// Whether a box round the edges from number `first` to before `end` shows that no segment in another box meets any of them. The
// last edges have no box, since they end at the first vertex.
fn are_apart<L: Ledger>(
    ring: &Ring,
    first: u32,
    end: u32,
    around: &BoundingBox,
    steps: &mut Steps<L>,
) -> bool
    requires some { first < end }
    requires within { end ≤ length ring.now.corners }
    ensures apart { IsTrue result → (a b : Point) → Encloses around.now a → Encloses around.now b → MissesEdges ring.now.corners first end a b }
    ensures steps { steps.new ≤ steps.old + 64 * (end - first + 1) }
{
    if end == ring.len() {
        return false;
    }
    let vertices = &ring.corners()[first as usize..end as usize + 1];
    !around.overlaps(&BoundingBox::of(vertices, steps))
}

// Appends what the segment has in common with these edges.
fn push_block<L: Ledger>(
    points: &mut Vec<Breakpoint>,
    ring: &Ring,
    edges: Range<u32>,
    a: &Pt,
    b: &Pt,
    steps: &mut Steps<L>,
) -> Result<(), Memory>
    requires some { edges.start < edges.end }
    requires within { edges.end ≤ length ring.now.corners }
    requires before { ListsMeetings ring.now.corners edges.start (whole a.now) (whole b.now) (breakpoint_points points.old.items) }
    ensures points { OnOk result (ListsMeetings ring.now.corners edges.end (whole a.now) (whole b.now) (breakpoint_points points.new.items)) }
    ensures few { OnOk result (length points.new.items ≤ length points.old.items + 2 * (edges.end - edges.start)) }
    ensures steps { steps.new ≤ steps.old + 155 * (edges.end - edges.start) }
{
    let mut c = ring.corner(edges.start);
    for i in edges.start..edges.end {
        let d = ring.next(i);
        push_meetings(points, a, b, &c, &d, steps)?;
        c = d;
    }
    Ok(())
}

// Appends what the segment from `a` to `b` has in common with the one from `c` to `d`: one point, or the ends of the
// second that are on the first. Its own ends are listed.
fn push_meetings<L: Ledger>(
    points: &mut Vec<Breakpoint>,
    a: &Pt,
    b: &Pt,
    c: &Pt,
    d: &Pt,
    steps: &mut Steps<L>,
) -> Result<(), Memory>
    requires has_first { Contains (breakpoint_points points.old.items) (whole a.now) }
    requires has_last { Contains (breakpoint_points points.old.items) (whole b.now) }
    ensures extends { ExtendsOnSegment (whole a.now) (whole b.now) (breakpoint_points points.old.items) (breakpoint_points points.new.items) }
    ensures enclosed { OnOk result (EnclosesAll (breakpoint_points points.new.items) (whole a.now) (whole b.now) (whole c.now) (whole d.now)) }
    ensures few { length points.new.items ≤ length points.old.items + 2 }
    ensures steps { steps.new ≤ steps.old + 155 }
{
    if !segments_meet(a, b, c, d, steps) {
        return Ok(());
    }
    if meets_one_end(a, b, c, d, steps) {
        return Ok(());
    }
    match Hom::meet(a, b, c, d, steps) {
        Some(m) => push_unlisted(points, m, steps),
        None => {
            push_if_on(points, c, a, b, steps)?;
            push_if_on(points, d, a, b, steps)
        }
    }
}

// Whether the line through `c` and `d` passes one of `a` and `b` and not the other, so that it meets the segment between
// them at that end alone.
fn meets_one_end<L: Ledger>(a: &Pt, b: &Pt, c: &Pt, d: &Pt, steps: &mut Steps<L>) -> bool
    ensures encloses { IsTrue result → (points : List Triple) → Contains points (whole a.now) → Contains points (whole b.now)
        → EnclosesAll points (whole a.now) (whole b.now) (whole c.now) (whole d.now) }
    ensures steps { steps.new ≡ steps.old + 2 }
{
    let straight = Direction::Straight;
    turns_to(straight, c, d, a, steps) != turns_to(straight, c, d, b, steps)
}

// Appends `p`, if it is on the segment from `a` to `b`.
fn push_if_on<L: Ledger>(
    points: &mut Vec<Breakpoint>,
    p: &Pt,
    a: &Pt,
    b: &Pt,
    steps: &mut Steps<L>,
) -> Result<(), Memory>
    ensures extends { ExtendsOnSegment (whole a.now) (whole b.now) (breakpoint_points points.old.items) (breakpoint_points points.new.items) }
    ensures listed { OnOk result (On (whole p.now) (whole a.now) (whole b.now) → Contains (breakpoint_points points.new.items) (whole p.now)) }
    ensures few { length points.new.items ≤ length points.old.items + 1 }
    ensures steps { steps.new ≤ steps.old + 68 }
{
    if !on_segment(p, a, b, steps) {
        return Ok(());
    }
    push(points, Hom::of_pt(p, steps), steps)
}

// Appends a point, unless the first point of the list, the second or the last is the same.
fn push_unlisted<L: Ledger>(
    points: &mut Vec<Breakpoint>,
    p: Hom,
    steps: &mut Steps<L>,
) -> Result<(), Memory>
    requires { IsNarrow p }
    ensures ok { OnOk result (Lists p (breakpoint_points points.old.items) (breakpoint_points points.new.items)) }
    ensures err { OnErr result (breakpoint_points points.new.items ≡ breakpoint_points points.old.items) }
    ensures rational { IsPoint p }
    ensures few { length points.new.items ≤ length points.old.items + 1 }
    ensures steps { steps.new ≡ steps.old + 64 }
{
    let point = Breakpoint::of(p, steps);
    if is_listed(points, &point) {
        return Ok(());
    }
    points.push(point)?;
    Ok(())
}

// Whether the first point of a list, the second or the last is the same as this one.
fn is_listed(points: &[Breakpoint], p: &Breakpoint) -> bool
    ensures { IsTrue result → IsListed (breakpoint_points points.now) p.now.point }
{
    let last = points.len().saturating_sub(1);
    is_listed_at(points, last, p) || is_listed_at(points, 0, p) || is_listed_at(points, 1, p)
}

// Whether the point at this place is the same as this one.
fn is_listed_at(points: &[Breakpoint], i: usize, p: &Breakpoint) -> bool
    ensures { IsTrue result → IsListed (breakpoint_points points.now) p.now.point }
{
    i < points.len() && points[i].order(p) == Ordering::Equal
}

// Appends a point.
fn push<L: Ledger>(points: &mut Vec<Breakpoint>, p: Hom, steps: &mut Steps<L>) -> Result<(), Memory>
    requires { IsNarrow p }
    ensures ok { OnOk result (breakpoint_points points.new.items ≡ breakpoint_points points.old.items ++ p ∷ []) }
    ensures err { OnErr result (breakpoint_points points.new.items ≡ breakpoint_points points.old.items) }
    ensures rational { IsPoint p }
    ensures few { length points.new.items ≤ length points.old.items + 1 }
    ensures steps { steps.new ≡ steps.old + 64 }
{
    points.push(Breakpoint::of(p, steps))?;
    Ok(())
}
