// The funnel, and how its names are taken away on the right and on the left.
ghost use Rattle.std.specs.Prelude.{◌≡◌, ◌≢◌, ◌+◌, ◌-◌, ◌<◌, ◌≤◌, ◌++◌, ◌↔◌, ◌^◌, IfOk, IsTrue, drop, length, min, take, vec_capacity};
ghost use Rattle.plane.specs.Point.{whole};
ghost use Rattle.funnels.specs.Funnel.{IsPassed, IsReachedFrom};
ghost use Rattle.exact_plane.specs.Names.{AreNamed, name_at, named_points};
ghost use Rattle.exact_plane.specs.Spot.{IsNamed, point_named};
ghost use Rattle.funnel_walk.specs.Names.{left_names, right_names};

use circular_buffer::HeapCircularBuffer;
use exact_plane::{Direction, Memory, Spot, Steps, Turns};
use std::alloc::Global;
use std::sync::ledger::Ledger;

/// The funnel at a diagonal of a sleeve: the names of two convex chains from an apex to the ends of the diagonal, from the left end to the
/// right one; the place of the apex among them; the number of the diagonal; and how many names the output had when the walk began.
#[derive(Drop)]
pub struct Funnel {
    pub names: HeapCircularBuffer<Spot>,
    pub apex: usize,
    pub at: usize,
    pub given: usize,
}

impl Funnel {
    /// Returns an empty funnel with room for `n` names, or `Memory`.
    pub fn with_room(alloc: Global, n: usize) -> Result<Funnel, Memory>
        requires { n < 2 ^ 32 }
        ensures { IfOk result (λ funnel. funnel.names.capacity ≡ n) }
    {
        Ok(Funnel {
            names: HeapCircularBuffer::with_capacity(alloc, n)?,
            apex: 0,
            at: 0,
            given: 0,
        })
    }

    /// Returns a copy with room for `n` names, or `Memory`. O(n) time.
    pub fn copied(&self, alloc: Global, n: usize) -> Result<Funnel, Memory>
        requires few { length self.now.names.items ≤ n }
        requires fits { n < 2 ^ 31 }
        ensures items { IfOk result (λ copy. copy.names.items ≡ self.now.names.items) }
        ensures apex { IfOk result (λ copy. copy.apex ≡ self.now.apex) }
        ensures at { IfOk result (λ copy. copy.at ≡ self.now.at) }
        ensures given { IfOk result (λ copy. copy.given ≡ self.now.given) }
        ensures room { IfOk result (λ copy. copy.names.capacity ≡ n) }
    {
        let mut names = HeapCircularBuffer::with_capacity(alloc, n)?;
        for i in 0..self.names.len() {
            names.push_back(name_at(&self.names, i));
        }
        Ok(Funnel {
            names,
            apex: self.apex,
            at: self.at,
            given: self.given,
        })
    }
}

// The name at a place.
pub(crate) fn name_at(names: &HeapCircularBuffer<Spot>, i: usize) -> Spot
    requires { i < length names.now.items }
    ensures { result ≡ name_at names.now.items i }
{
    *names.get(i).unwrap()
}

// Whether the way to `y` passes the edge between places `j - 1` and `j`, and so comes from place `j` or a later one.
fn is_passed<T: Turns, L: Ledger>(
    board: &T,
    names: &HeapCircularBuffer<Spot>,
    apex: usize,
    j: usize,
    y: Spot,
    steps: &mut Steps<L>,
) -> bool
    requires inner { 0 < j }
    requires within { j < length names.now.items }
    requires named { AreNamed (T.corners board.now) names.now.items }
    requires y_named { IsNamed (T.corners board.now) y }
    ensures passed { let at = point_named (T.corners board.now) (T.start board.now) (T.goal board.now) in
        IsTrue result ↔ IsPassed (named_points at names.now.items) apex j (whole (at y)) }
    ensures steps { steps.new ≡ steps.old + 1 }
{
    let (left, right) = (name_at(names, j - 1), name_at(names, j));
    if j <= apex {
        is_not_left(board.turn(right, left, y, steps))
    } else {
        board.turn(left, right, y, steps) == Direction::Right
    }
}

// Whether a turn goes straight on or to the right.
fn is_not_left(turn: Direction) -> bool
    ensures { IsTrue result ↔ (turn ≢ Direction.Left) }
{
    turn != Direction::Left
}

// The place that the way to `y` comes from, looked for from the right end on. The names that the way leaves behind go to `out`.
pub(crate) fn place_from_right<T: Turns, L: Ledger>(
    board: &T,
    names: &HeapCircularBuffer<Spot>,
    apex: usize,
    y: Spot,
    out: &mut Vec<Spot>,
    steps: &mut Steps<L>,
) -> usize
    requires apex { apex < length names.now.items }
    requires named { AreNamed (T.corners board.now) names.now.items }
    requires y_named { IsNamed (T.corners board.now) y }
    requires room { length out.old.items + apex ≤ vec_capacity out.old }
    ensures within { result < length names.now.items }
    ensures reached { let at = point_named (T.corners board.now) (T.start board.now) (T.goal board.now) in
        IsReachedFrom (named_points at names.now.items) apex result (whole (at y)) }
    ensures behind { out.new.items ≡ out.old.items ++ left_names names.now.items apex (apex - result) }
    ensures same_out { vec_capacity out.new ≡ vec_capacity out.old }
    ensures steps { steps.new + result ≤ steps.old + length names.now.items }
{
    let mut last = names.len() - 1;
    while last > 0 && !is_passed(board, names, apex, last, y, steps) {
        if last <= apex {
            out.push_reserved(name_at(names, last));
        }
        last -= 1;
    }
    last
}

// Takes away names on the right, until the way to `y` comes from the last one. The names that the way leaves behind go to
// `out`. The answer is the place of the new apex.
pub(crate) fn narrow_right<T: Turns, L: Ledger>(
    board: &T,
    names: &mut HeapCircularBuffer<Spot>,
    apex: usize,
    y: Spot,
    out: &mut Vec<Spot>,
    steps: &mut Steps<L>,
) -> usize
    requires apex { apex < length names.old.items }
    requires named { AreNamed (T.corners board.now) names.old.items }
    requires y_named { IsNamed (T.corners board.now) y }
    requires room { length out.old.items + apex ≤ vec_capacity out.old }
    ensures some { 0 < length names.new.items }
    ensures fewer { length names.new.items ≤ length names.old.items }
    ensures kept { names.new.items ≡ take (length names.new.items) names.old.items }
    ensures same_room { names.new.capacity ≡ names.old.capacity }
    ensures reached { let at = point_named (T.corners board.now) (T.start board.now) (T.goal board.now) in
        IsReachedFrom (named_points at names.old.items) apex (length names.new.items - 1) (whole (at y)) }
    ensures apex { result ≡ min apex (length names.new.items - 1) }
    ensures behind { out.new.items ≡ out.old.items ++ left_names names.old.items apex (apex - (length names.new.items - 1)) }
    ensures same_out { vec_capacity out.new ≡ vec_capacity out.old }
    ensures steps { steps.new + length names.new.items ≤ steps.old + length names.old.items + 1 }
{
    // The prover learns from this call that the place after the last one is a number, too.
    let _count = names.len();
    let place = place_from_right(board, names, apex, y, out, steps);
    names.truncate_back(place + 1);
    apex.min(place)
}

// The same on the left, until it comes from the first one.
pub(crate) fn narrow_left<T: Turns, L: Ledger>(
    board: &T,
    names: &mut HeapCircularBuffer<Spot>,
    apex: usize,
    y: Spot,
    out: &mut Vec<Spot>,
    steps: &mut Steps<L>,
) -> usize
    requires apex { apex < length names.old.items }
    requires named { AreNamed (T.corners board.now) names.old.items }
    requires y_named { IsNamed (T.corners board.now) y }
    requires room { length out.old.items + length names.old.items ≤ vec_capacity out.old + apex + 1 }
    ensures some { 0 < length names.new.items }
    ensures fewer { length names.new.items ≤ length names.old.items }
    ensures kept { names.new.items ≡ drop (length names.old.items - length names.new.items) names.old.items }
    ensures same_room { names.new.capacity ≡ names.old.capacity }
    ensures reached { let at = point_named (T.corners board.now) (T.start board.now) (T.goal board.now) in
        IsReachedFrom (named_points at names.old.items) apex (length names.old.items - length names.new.items) (whole (at y)) }
    ensures apex { result ≡ apex - (length names.old.items - length names.new.items) }
    ensures behind { out.new.items ≡ out.old.items
        ++ right_names names.old.items apex ((length names.old.items - length names.new.items) - apex) }
    ensures same_out { vec_capacity out.new ≡ vec_capacity out.old }
    ensures steps { steps.new + length names.new.items ≤ steps.old + length names.old.items + 1 }
{
    let mut apex = apex;
    while names.len() > 1 && is_passed(board, names, apex, 1, y, steps) {
        if apex == 0 {
            out.push_reserved(name_at(names, 0));
        } else {
            apex -= 1;
        }
        names.pop_front();
    }
    apex
}
