// Which of two edges of a sweep is below the other, as turns of their ends show.
ghost use Rattle.std.specs.Prelude.{◌≡◌, ◌+◌, ◌<◌, ◌≤◌, IsTrue, length};
ghost use Rattle.plane.specs.Point.{whole};
ghost use Rattle.rings.specs.Below.{EndsBelow, StartsBelow};
ghost use Rattle.rings.specs.Events.{first_end, last_end};
ghost use Rattle.rings.specs.Ring.{vertex};
ghost use Rattle.rings.specs.Status.{IsEdgeBelow};
ghost use Rattle.exact_plane.specs.Direction.{turn_of};
ghost use Rattle.ring_check.specs.Ends.{AreVertices, edge_between};

use crate::events::{Events, next};
use edge_index::corner;
use exact_plane::{Direction, Steps, turn};
use std::sync::ledger::Ledger;

// Whether edge `e` is below edge `f`. It takes at most 2 steps.
pub(crate) fn is_below<L: Ledger>(events: &Events, e: u32, f: u32, steps: &mut Steps<L>) -> bool
    requires e { e < length events.now.points.now }
    requires f { f < length events.now.points.now }
    ensures below { IsTrue result → IsEdgeBelow events.now.points.now events.now.ranks.now e f }
    ensures steps { steps.new ≤ steps.old + 2 }
{
    let lower = ends_of(events, e);
    let upper = ends_of(events, f);
    match (lower.first == upper.first, lower.last == upper.last) {
        (true, true) => false,
        (true, false) => ends_below(events, lower, upper, steps),
        (false, true) => starts_below(events, lower, upper, steps),
        (false, false) => starts_below(events, lower, upper, steps)
            && ends_below(events, lower, upper, steps),
    }
}

// Whether edge `e` is below edge `f` where the later of them begins. It takes one step.
fn starts_below<L: Ledger>(events: &Events, e: Ends, f: Ends, steps: &mut Steps<L>) -> bool
    requires e { AreVertices events.now.points.now e }
    requires f { AreVertices events.now.points.now f }
    ensures below { IsTrue result → StartsBelow (edge_between events.now.points.now e) (edge_between events.now.points.now f) }
    ensures steps { steps.new ≡ steps.old + 1 }
{
    if events.ranks[e.first as usize] < events.ranks[f.first as usize] {
        turns(events, Direction::Left, e.first, e.last, f.first, steps)
    } else {
        turns(events, Direction::Right, f.first, f.last, e.first, steps)
    }
}

// Whether it is below where the first of them ends. It takes one step.
fn ends_below<L: Ledger>(events: &Events, e: Ends, f: Ends, steps: &mut Steps<L>) -> bool
    requires e { AreVertices events.now.points.now e }
    requires f { AreVertices events.now.points.now f }
    ensures below { IsTrue result → EndsBelow (edge_between events.now.points.now e) (edge_between events.now.points.now f) }
    ensures steps { steps.new ≡ steps.old + 1 }
{
    if events.ranks[e.last as usize] < events.ranks[f.last as usize] {
        turns(events, Direction::Right, f.first, f.last, e.last, steps)
    } else {
        turns(events, Direction::Left, e.first, e.last, f.last, steps)
    }
}

// The ends of an edge, that of lower rank first.
#[derive(Clone, Copy)]
pub(crate) struct Ends {
    pub first: u32,
    pub last: u32,
}

// The ends of edge `e`.
pub(crate) fn ends_of(events: &Events, e: u32) -> Ends
    requires { e < length events.now.points.now }
    ensures first { result.first ≡ first_end events.now.ranks.now e }
    ensures last { result.last ≡ last_end events.now.ranks.now e }
    ensures vertices { AreVertices events.now.points.now result }
{
    let after = next(events, e);
    if events.ranks[e as usize] < events.ranks[after as usize] {
        Ends {
            first: e,
            last: after,
        }
    } else {
        Ends {
            first: after,
            last: e,
        }
    }
}

// Whether edge `e` goes below vertex `v`, or through it and below `w`. It takes at most 2 steps.
pub(crate) fn goes_below<L: Ledger>(
    events: &Events,
    e: u32,
    v: u32,
    w: u32,
    steps: &mut Steps<L>,
) -> bool
    requires edge { e < length events.now.points.now }
    requires v { v < length events.now.points.now }
    requires w { w < length events.now.points.now }
    ensures { steps.new ≤ steps.old + 2 }
{
    let Ends { first, last } = ends_of(events, e);
    match turn_at(events, first, last, v, steps) {
        Direction::Left => true,
        Direction::Right => false,
        Direction::Straight => turns(events, Direction::Left, first, last, w, steps),
    }
}

// Whether the turn from vertex `a` over `b` to `c` goes this way. It takes one step.
fn turns<L: Ledger>(
    events: &Events,
    way: Direction,
    a: u32,
    b: u32,
    c: u32,
    steps: &mut Steps<L>,
) -> bool
    requires a { a < length events.now.points.now }
    requires b { b < length events.now.points.now }
    requires c { c < length events.now.points.now }
    ensures way { IsTrue result → turn_of (whole (vertex events.now.points.now a)) (whole (vertex events.now.points.now b)) (whole (vertex events.now.points.now c)) ≡ way }
    ensures steps { steps.new ≡ steps.old + 1 }
{
    turn_at(events, a, b, c, steps) == way
}

// The turn from vertex `a` over `b` to `c`. It takes one step.
fn turn_at<L: Ledger>(events: &Events, a: u32, b: u32, c: u32, steps: &mut Steps<L>) -> Direction
    requires a { a < length events.now.points.now }
    requires b { b < length events.now.points.now }
    requires c { c < length events.now.points.now }
    ensures turn { result ≡ turn_of (whole (vertex events.now.points.now a)) (whole (vertex events.now.points.now b)) (whole (vertex events.now.points.now c)) }
    ensures steps { steps.new ≡ steps.old + 1 }
{
    let a = corner(events.points, a as usize);
    let b = corner(events.points, b as usize);
    turn(&a, &b, &corner(events.points, c as usize), steps)
}
