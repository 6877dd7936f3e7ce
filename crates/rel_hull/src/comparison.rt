ghost use Rattle.std.specs.Prelude.{◌≡◌, ◌≢◌, ◌+◌, ◌^◌, ◌<◌, ◌≤◌, ℕ, drop, length, take};
ghost use Rattle.plane.specs.Point.{whole};
ghost use Rattle.rings.specs.Chain.{point_at};
ghost use Rattle.exact_plane.specs.Direction.{turn_of};
ghost use Rattle.rel_hull.specs.PathTurn.{IsPathTurn, IsTurnApart, IsTurnAt, turn_on};
ghost use Rattle.rel_hull.specs.Told.{HaveFronts};

use exact_plane::{Direction, Pt, Steps, on_segment, order, turn};
use std::cmp::Ordering;
use std::sync::ledger::Ledger;

/// The turn from the path `ab` to the path `ac`, which begin at the same point: that of the two ways on from where they part. It takes
/// at most a step for each point of either path, and 8 more. No command calls it: the command `hull` compares paths of a `ChainTable`, and
/// finds their common prefix by binary search.
pub fn path_turn<L: Ledger>(ab: &[Pt], ac: &[Pt], steps: &mut Steps<L>) -> Direction
    requires some { 0 < length ab.now }
    requires others { 0 < length ac.now }
    requires same { point_at ab.now 0 ≡ point_at ac.now 0 }
    ensures turn { IsPathTurn ab.now ac.now result }
    ensures steps { steps.new ≤ steps.old + length ab.now + 8 }
    ensures steps_other { steps.new ≤ steps.old + length ac.now + 8 }
{
    let k = common_front(ab, ac, steps);
    turn_at(&ab[k - 1], &ab[k..], &ac[k..], steps)
}

// How many points the longest common front of two lists has. It takes at most a step for each of them.
fn common_front<L: Ledger>(ab: &[Pt], ac: &[Pt], steps: &mut Steps<L>) -> usize
    requires some { 0 < length ab.now }
    requires others { 0 < length ac.now }
    requires same { point_at ab.now 0 ≡ point_at ac.now 0 }
    ensures some { 0 < result }
    ensures within { result ≤ length ab.now }
    ensures within_other { result ≤ length ac.now }
    ensures same { take result ab.now ≡ take result ac.now }
    ensures apart { result < length ab.now → result < length ac.now → point_at ab.now result ≢ point_at ac.now result }
    ensures steps { steps.new ≤ steps.old + result }
{
    let mut k = 1;
    while k < ab.len() && k < ac.len() && order(&ab[k], &ac[k], steps) == Ordering::Equal {
        k += 1;
    }
    k
}

// The same of two lists that are one up to each place where they have the same point, by halving: a step for each half.
pub(crate) fn halved_front<L: Ledger>(ab: &[Pt], ac: &[Pt], steps: &mut Steps<L>) -> usize
    requires some { 0 < length ab.now }
    requires others { 0 < length ac.now }
    requires same { point_at ab.now 0 ≡ point_at ac.now 0 }
    requires fronts { HaveFronts ab.now ac.now }
    ensures some { 0 < result }
    ensures within { result ≤ length ab.now }
    ensures within_other { result ≤ length ac.now }
    ensures same { take result ab.now ≡ take result ac.now }
    ensures apart { result < length ab.now → result < length ac.now → point_at ab.now result ≢ point_at ac.now result }
    ensures steps { (d : ℕ) → length ab.now < 2 ^ d → steps.new ≤ steps.old + d }
{
    let mut k = 1;
    let mut end = ab.len().min(ac.len());
    while k < end {
        let middle = k + (end - k) / 2;
        if order(&ab[middle], &ac[middle], steps) == Ordering::Equal {
            k = middle + 1;
        } else {
            end = middle;
        }
    }
    k
}

// The turn of two ways on from `v` that have no next point in common. It takes at most 8 steps.
pub(crate) fn turn_at<L: Ledger>(
    v: &Pt,
    first: &[Pt],
    second: &[Pt],
    steps: &mut Steps<L>,
) -> Direction
    requires { 0 < length first.now → 0 < length second.now → point_at first.now 0 ≢ point_at second.now 0 }
    ensures turn { IsTurnAt v.now first.now second.now result }
    ensures steps { steps.new ≤ steps.old + 8 }
{
    let (Some(p), Some(q)) = (first.first(), second.first()) else {
        return Direction::Straight;
    };
    match turn(v, p, q, steps) {
        Direction::Straight => turn_on_line(v, first, second, steps),
        side => side,
    }
}

// The same where the next points are on one line with `v`. It takes at most 7 steps.
fn turn_on_line<L: Ledger>(v: &Pt, first: &[Pt], second: &[Pt], steps: &mut Steps<L>) -> Direction
    requires some { 0 < length first.now }
    requires others { 0 < length second.now }
    requires straight { turn_of (whole v.now) (whole (point_at first.now 0)) (whole (point_at second.now 0)) ≡ Direction.Straight }
    ensures turn { IsTurnApart v.now (point_at first.now 0) (drop 1 first.now) (point_at second.now 0) (drop 1 second.now) result }
    ensures steps { steps.new ≤ steps.old + 7 }
{
    let (p, q) = (&first[0], &second[0]);
    if on_segment(v, p, q, steps) {
        Direction::Straight
    } else if on_segment(p, v, q, steps) {
        turn_on(v, first, steps).opposite()
    } else {
        turn_on(v, second, steps)
    }
}

// The turn from `v` over the first point of a way to the next one, if there is one. It takes at most a step.
fn turn_on<L: Ledger>(v: &Pt, way: &[Pt], steps: &mut Steps<L>) -> Direction
    requires { 0 < length way.now }
    ensures turn { result ≡ turn_on v.now (point_at way.now 0) (drop 1 way.now) }
    ensures steps { steps.new ≤ steps.old + 1 }
{
    match way.get(1) {
        Some(r) => turn(v, &way[0], r, steps),
        None => Direction::Straight,
    }
}
