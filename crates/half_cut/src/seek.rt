// A corner that a cut takes away, if there is one.
ghost use Rattle.std.specs.Prelude.{◌≡◌, ◌≢◌, ◌+◌, ◌*◌, ◌^◌, ◌<◌, ◌≤◌, ◌↔◌, ℕ, IfNone, IfSome, IsTrue, length};
ghost use Rattle.plane.specs.Convex.{corner};
ghost use Rattle.half_cut.specs.Outline.{IsRegionKept, IsRightOf};
ghost use Rattle.half_cut.specs.Seek.{AreEarlierSides, ComesBefore, IsFacing, IsUpward, TurnsLeftTo};

use crate::block::is_right_at;
use crate::region::{Line, round, side};
use exact_plane::{Direction, Hom, Steps, order, turn_of_ways};
use std::cmp::Ordering;
use std::collections::VecDeque;
use std::sync::ledger::Ledger;

// The place of a corner that is right of the line. Of three or more it looks at the one that is farthest to the right, and `near`
// becomes its place.
pub(crate) fn seek<L: Ledger>(
    corners: &VecDeque<Hom>,
    lines: &VecDeque<Line>,
    least: usize,
    near: &mut usize,
    line: &Line,
    steps: &mut Steps<L>,
) -> Option<usize>
    requires differ { line.now.0 ≢ line.now.1 }
    requires kept { IsRegionKept corners.now.items lines.now.items least }
    ensures within { IfSome result (λ k. k < length corners.now.items) }
    ensures here { IfSome result (λ k. IsRightOf line.now (corner corners.now.items k)) }
    ensures none { IfNone result ((i : ℕ) → i < length corners.now.items → ¬ IsRightOf line.now (corner corners.now.items i)) }
    ensures steps { (d : ℕ) → length corners.now.items < 2 ^ d → steps.new ≤ steps.old + 2 * d + 4 }
{
    let n = corners.len();
    if n < 3 {
        return first_right(corners, line, steps);
    }
    if n <= *near || !is_facing(lines, *near, line, steps) {
        // from the least corner on, the ways of the sides go round counterclockwise from straight down
        *near = round(lines, least + sides_before(lines, least, line, steps));
    }
    if is_right_at(corners, *near, line, steps) {
        Some(*near)
    } else {
        None
    }
}

// The place of the first corner that is right of the line.
fn first_right<L: Ledger>(
    corners: &VecDeque<Hom>,
    line: &Line,
    steps: &mut Steps<L>,
) -> Option<usize>
    ensures within { IfSome result (λ k. k < length corners.now.items) }
    ensures here { IfSome result (λ k. IsRightOf line.now (corner corners.now.items k)) }
    ensures none { IfNone result ((i : ℕ) → i < length corners.now.items → ¬ IsRightOf line.now (corner corners.now.items i)) }
    ensures steps { steps.new ≤ steps.old + length corners.now.items }
{
    for i in 0..corners.len() {
        if is_right_at(corners, i, line, steps) {
            return Some(i);
        }
    }
    None
}

// Whether the line's way is between those of the two sides at a corner.
fn is_facing<L: Ledger>(
    lines: &VecDeque<Line>,
    at: usize,
    line: &Line,
    steps: &mut Steps<L>,
) -> bool
    requires { at < length lines.now.items }
    ensures facing { IsTrue result → IsFacing line.now lines.now.items at }
    ensures steps { steps.new ≤ steps.old + 2 }
{
    !turns_left(side(lines, at), line, steps)
        && !turns_left(
            line,
            side(lines, round(lines, at + (lines.len() - 1))),
            steps,
        )
}

// How many sides, from this one on, come before the line's way: where that stands among them, by halves.
fn sides_before<L: Ledger>(
    lines: &VecDeque<Line>,
    from: usize,
    line: &Line,
    steps: &mut Steps<L>,
) -> usize
    requires { from < length lines.now.items }
    ensures before { AreEarlierSides line.now lines.now.items from result }
    ensures steps { (d : ℕ) → length lines.now.items < 2 ^ d → steps.new ≤ steps.old + 2 * d + 1 }
{
    let up = rises(line, steps);
    let (mut low, mut high) = (0, lines.len());
    while low < high {
        let middle = low + (high - low) / 2;
        if comes_before(side(lines, round(lines, from + middle)), line, up, steps) {
            low = middle + 1;
        } else {
            high = middle;
        }
    }
    low
}

// Whether a side's way comes before that of the line, of which it is told whether that goes up.
fn comes_before<L: Ledger>(side: &Line, line: &Line, up: bool, steps: &mut Steps<L>) -> bool
    requires { IsTrue up ↔ IsUpward line.now }
    ensures before { IsTrue result ↔ ComesBefore side.now line.now }
    ensures steps { steps.new ≤ steps.old + 2 }
{
    let side_up = rises(side, steps);
    if up {
        side_up && turns_left(side, line, steps)
    } else {
        side_up || turns_left(side, line, steps)
    }
}

// Whether the line's way goes up: to the right, or straight upward.
pub(crate) fn rises<L: Ledger>(line: &Line, steps: &mut Steps<L>) -> bool
    ensures up { IsTrue result ↔ IsUpward line.now }
    ensures steps { steps.new ≡ steps.old + 1 }
{
    order(&line.0, &line.1, steps) == Ordering::Less
}

// Whether the line's way turns left to that of the other.
#[tactic(auto, using(crate::proofs::Seeking::left_turns))]
fn turns_left<L: Ledger>(line: &Line, other: &Line, steps: &mut Steps<L>) -> bool
    ensures left { IsTrue result ↔ TurnsLeftTo line.now other.now }
    ensures steps { steps.new ≡ steps.old + 1 }
{
    turn_of_ways(&line.0, &line.1, &other.0, &other.1, steps) == Direction::Left
}
