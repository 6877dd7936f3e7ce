// The edges of a list by the ways that they go, in the order of the list for each.
ghost use Rattle.std.specs.Prelude.{◌≡◌, ◌+◌, ◌*◌, ◌<◌, ◌≤◌, ◌^◌, ℕ, IfOk, length, slice_index, unsigned_abs};
ghost use Rattle.std.specs.List.{All, Contains};

use crate::frame::Frame;
use crate::place::Stretch;
use crate::runs::RUN;
use exact_plane::{BoundingBox, Memory, Pt, Steps};
use std::alloc::Global;
use std::sync::ledger::Ledger;

// Short edges are of the first kind; the others are of one kind for each sixteenth of a turn.
pub(crate) const KINDS: usize = 17;

// An edge is short where all of the list goes more than so many times as far.
const SHORT: i64 = 64;

// The kind of each edge. It takes 448 steps an edge.
pub(crate) fn kinds_of<L: Ledger>(
    alloc: Global,
    points: &[Pt],
    steps: &mut Steps<L>,
) -> Result<Vec<usize>, Memory>
    ensures all { IfOk result (λ kinds. length kinds.items ≡ length points.now) }
    ensures kinds { IfOk result (λ kinds. All (λ kind. kind < 17) kinds.items) }
    ensures steps { steps.new ≤ steps.old + 448 * length points.now }
{
    let long = length_of(&BoundingBox::of(points, steps)) / SHORT;
    let frame = Frame::of(points, steps);
    let mut kinds = Vec::with_capacity(alloc, points.len())?;
    for e in 0..points.len() {
        kinds.push_reserved(kind_of(points, e, long, &frame, steps));
    }
    Ok(kinds)
}

// How far a box goes across and upward together.
fn length_of(around: &BoundingBox) -> i64
    ensures { unsigned_abs result < 2 ^ 34 }
{
    let (across, up) = (
        around.east as i64 - around.west as i64,
        around.north as i64 - around.south as i64,
    );
    across + up
}

// The kind of edge `e`, where those are short that are less than so long. It takes 128 steps.
fn kind_of<L: Ledger>(
    points: &[Pt],
    e: usize,
    long: i64,
    frame: &Frame,
    steps: &mut Steps<L>,
) -> usize
    requires { e < length points.now }
    ensures kind { result < 17 }
    ensures steps { steps.new ≡ steps.old + 128 }
{
    let edge = Stretch::of(points, e, steps);
    if edge.length() < long {
        0
    } else {
        1 + sixteenth_of(frame.seen(&edge))
    }
}

// In which sixteenth of a turn something goes that goes so far across and upward, from the way east on, to the left.
fn sixteenth_of(to: (i64, i64)) -> usize
    requires across { unsigned_abs to.0 < 2 ^ 40 }
    requires up { unsigned_abs to.1 < 2 ^ 40 }
    ensures { result < 16 }
{
    let (a, b) = to;
    if 0 < a && 0 <= b {
        sixteenth_from(a, b)
    } else if 0 < b {
        4 + sixteenth_from(b, -a)
    } else if a < 0 {
        8 + sixteenth_from(-a, -b)
    } else {
        12 + sixteenth_from(-b, a)
    }
}

// In which sixteenth of a turn, of the four from a way on, something goes that goes so far that way and so far to its left.
fn sixteenth_from(on: i64, left: i64) -> usize
    requires on { unsigned_abs on < 2 ^ 40 }
    requires left { unsigned_abs left < 2 ^ 40 }
    ensures { result < 4 }
{
    if 5 * left < 2 * on {
        0
    } else if left < on {
        1
    } else if 2 * left < 5 * on {
        2
    } else {
        3
    }
}

// All edges, those of each kind together; the last of a kind stands there again, up to a multiple of `RUN`.
pub(crate) fn edges_by_kind(alloc: Global, kinds: &[usize]) -> Result<Vec<u32>, Memory>
    requires kinds { All (λ kind. kind < 17) kinds.now }
    requires small { length kinds.now < 2 ^ 32 }
    ensures each { IfOk result (λ edges. (e : ℕ) → e < length kinds.now → Contains edges.items e) }
    ensures range { IfOk result (λ edges. All (λ e. e < length kinds.now) edges.items) }
{
    let mut edges = Vec::with_capacity(alloc, kinds.len() + KINDS * RUN)?;
    for kind in 0..KINDS {
        push_kind(kinds, kind, &mut edges)?;
        pad(&mut edges)?;
    }
    Ok(edges)
}

// Adds the edges of a kind.
fn push_kind(kinds: &[usize], kind: usize, edges: &mut Vec<u32>) -> Result<(), Memory>
    requires small { length kinds.now < 2 ^ 32 }
    requires range { All (λ e. e < length kinds.now) edges.old.items }
    ensures range { IfOk result (λ done. All (λ e. e < length kinds.now) edges.new.items) }
    ensures old { IfOk result (λ done. (e : ℕ) → Contains edges.old.items e → Contains edges.new.items e) }
    ensures each { IfOk result (λ done. (e : ℕ) → e < length kinds.now → slice_index kinds.now e ≡ kind → Contains edges.new.items e) }
{
    for e in 0..kinds.len() {
        if kinds[e] == kind {
            edges.push(e as u32)?;
        }
    }
    Ok(())
}

// Adds the last edge up to a multiple of `RUN`.
fn pad(edges: &mut Vec<u32>) -> Result<(), Memory>
    ensures range { IfOk result (λ done. (n : ℕ) → All (λ e. e < n) edges.old.items → All (λ e. e < n) edges.new.items) }
    ensures old { IfOk result (λ done. (e : ℕ) → Contains edges.old.items e → Contains edges.new.items e) }
{
    let count = edges.len();
    if count == 0 {
        return Ok(());
    }
    let last = edges[count - 1];
    for _ in 0..(RUN - count % RUN) % RUN {
        edges.push(last)?;
    }
    Ok(())
}
