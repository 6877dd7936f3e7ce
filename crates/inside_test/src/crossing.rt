// The ray from a rational point to the right, at one edge.
ghost use Rattle.std.specs.Prelude.{◌≡◌, ◌↔◌, ◌+◌, ◌≤◌, IsTrue};
ghost use Rattle.plane.specs.Point.{IsPoint, Triple, whole};
ghost use Rattle.rings.specs.Edge.{edge};
ghost use Rattle.exact_plane.specs.Direction.{turn_of};
ghost use Rattle.inside_test.specs.Level.{AreLevels};
ghost use Rattle.inside_test.specs.Meeting.{AreAround, IsVertexBeside, IsMeeting, IsTouched, rises};

use crate::level::Levels;
use exact_plane::{Direction, Hom, Pt, Steps, turn_hom};
use std::sync::ledger::Ledger;

// How an edge lies to a point.
#[derive(Clone, Copy)]
pub(crate) enum Meeting {
    // The point is on it.
    On,
    // The ray crosses it.
    Crossed,
    // Neither.
    Missed,
}

// A vertex, and whether it is above a point.
#[derive(Clone, Copy)]
pub(crate) struct Vertex {
    pub at: Pt,
    pub is_above: bool,
}

impl Vertex {
    // The vertex at `at`, beside the point with these levels.
    pub(crate) fn of<L: Ledger>(at: Pt, levels: &Levels, steps: &mut Steps<L>) -> Vertex
        ensures at { result.at ≡ at }
        ensures beside { (p : Triple) → AreLevels levels.now p → IsVertexBeside result p }
        ensures steps { steps.new ≡ steps.old + 64 }
    {
        let is_above = levels.is_below(&at, steps);
        Vertex { at, is_above }
    }
}

// How the edge from `a` to `b` lies to `p`, which has these levels. The ray crosses no edge that does not pass its height. It
// takes at most 1024 steps: so many where both ends are at the height of the point.
pub(crate) fn meeting_of<L: Ledger>(
    a: &Vertex,
    b: &Vertex,
    p: &Hom,
    levels: &Levels,
    steps: &mut Steps<L>,
) -> Meeting
    requires levels { AreLevels levels.now p.now }
    requires first { IsVertexBeside a.now p.now }
    requires last { IsVertexBeside b.now p.now }
    requires rational { IsPoint p.now }
    ensures meeting { IsMeeting result (edge a.now.at b.now.at) p.now }
    ensures steps { steps.new ≤ steps.old + 1024 }
{
    match (a.is_above, b.is_above) {
        (true, true) => Meeting::Missed,
        (false, true) => meeting_of_rise(turn_of_rise(&a.at, &b.at, p, levels, steps)),
        (true, false) => meeting_of_rise(turn_of_rise(&b.at, &a.at, p, levels, steps)),
        (false, false) => meeting_below(is_touched(&a.at, &b.at, levels, steps)),
    }
}

// How an edge that rises past the height of a point lies to it, by the turn over its ends to the point.
fn meeting_of_rise(turn: Direction) -> Meeting
    ensures on { (result ≡ Meeting.On) ↔ (turn ≡ Direction.Straight) }
    ensures crossed { result ≡ Meeting.Crossed → turn ≡ Direction.Left }
    ensures missed { result ≡ Meeting.Missed → turn ≡ Direction.Right }
{
    match turn {
        Direction::Left => Meeting::Crossed,
        Direction::Straight => Meeting::On,
        Direction::Right => Meeting::Missed,
    }
}

// The turn from `low` over `high` to `p`, where an edge between them rises past the height of `p`. Comparisons tell it
// where both are to one side of `p`.
fn turn_of_rise<L: Ledger>(
    low: &Pt,
    high: &Pt,
    p: &Hom,
    levels: &Levels,
    steps: &mut Steps<L>,
) -> Direction
    requires levels { AreLevels levels.now p.now }
    requires rises { IsTrue (rises low.now high.now p.now) }
    requires rational { IsPoint p.now }
    ensures turn { result ≡ turn_of (whole low.now) (whole high.now) p.now }
    ensures steps { steps.new ≤ steps.old + 257 }
{
    if levels.is_left_of_both(low, high, steps) {
        return Direction::Left;
    }
    if levels.is_right_of_both(low, high, steps) {
        return Direction::Right;
    }
    // By copies, so that vertices need not lie in memory where no turn is asked.
    let (low, high) = (*low, *high);
    turn_hom(&low, &high, p, steps)
}

// How an edge with no end above a point lies to it.
fn meeting_below(is_touched: bool) -> Meeting
    ensures on { (result ≡ Meeting.On) ↔ IsTrue is_touched }
    ensures not_crossed { result ≡ Meeting.Crossed → ⊥ }
{
    if is_touched {
        Meeting::On
    } else {
        Meeting::Missed
    }
}

// Whether an edge with no end above a point has the point on it.
fn is_touched<L: Ledger>(a: &Pt, b: &Pt, levels: &Levels, steps: &mut Steps<L>) -> bool
    ensures touched { (p : Triple) → AreLevels levels.now p → IsTrue result ↔ IsTouched a.now b.now p }
    ensures steps { steps.new ≤ steps.old + 1024 }
{
    levels.is_at(a, steps) || levels.is_at(b, steps) || are_around(a, b, levels, steps)
}

// Whether two vertices are at the height of a point, and neither both left of it nor both right.
fn are_around<L: Ledger>(a: &Pt, b: &Pt, levels: &Levels, steps: &mut Steps<L>) -> bool
    ensures around { (p : Triple) → AreLevels levels.now p → IsTrue result ↔ AreAround a.now b.now p }
    ensures steps { steps.new ≤ steps.old + 512 }
{
    levels.is_level(a, steps)
        && levels.is_level(b, steps)
        && !levels.is_left_of_both(a, b, steps)
        && !levels.is_right_of_both(a, b, steps)
}
