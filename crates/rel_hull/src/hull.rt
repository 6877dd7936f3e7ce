ghost use Rattle.std.specs.List.{Contains};
ghost use Rattle.std.specs.Prelude.{◌≡◌, ◌≢◌, ◌+◌, ◌*◌, ◌<◌, ◌≤◌, ◌↔◌, IfOk, IsTrue, MatchOption, ℕ, length};
ghost use Rattle.rel_hull.specs.Table.{AreSides, HasChainsBelow, IsTableOf, table_points};
ghost use Rattle.rel_hull.specs.Told.{AreOuterBelow, AreSidesBefore, ComesFirst, IsLeftOf, IsOneEnd, IsOnSomeChain, IsPassedFrom, IsToldSide, StartsTold};

use crate::table::ChainTable;
use exact_plane::{Direction, Memory, Steps};
use ring_check::Ring;
use std::alloc::Global;
use std::sync::ledger::Ledger;

/// The sides of the relative hull of the table's points, by their numbers: exactly the pairs (s, t) such that a side goes from
/// point s to point t, sorted by s, then t. For m points with chains of fewer than 2^d points it takes at most
/// m m (3 m + 2 (d + 8)) steps.
pub fn sides<L: Ledger>(
    alloc: Global,
    ring: &Ring,
    chains: &ChainTable,
    steps: &mut Steps<L>,
) -> Result<Vec<(u32, u32)>, Memory>
    requires { IsTableOf ring.now.corners chains.now }
    ensures sides { IfOk result (λ pairs. AreSides ring.now.corners (table_points chains.now) pairs.items) }
    ensures few { IfOk result (λ pairs. length pairs.items ≤ chains.now.count) }
    ensures steps { (d : ℕ) → HasChainsBelow d chains.now
        → steps.new ≤ steps.old + chains.now.count * chains.now.count * (3 * chains.now.count + 2 * (d + 8)) }
{
    let outer = outer_points(alloc, chains, steps)?;
    sides_among(alloc, chains, &outer, steps)
}

// The numbers of the points that aren't inner. Of m points it takes at most 3 m m m steps.
pub(crate) fn outer_points<L: Ledger>(
    alloc: Global,
    chains: &ChainTable,
    steps: &mut Steps<L>,
) -> Result<Vec<u32>, Memory>
    ensures outer { IfOk result (λ outer. AreOuterBelow chains.now chains.now.count outer.items) }
    ensures few { IfOk result (λ outer. length outer.items ≤ chains.now.count) }
    ensures steps { steps.new ≤ steps.old + 3 * chains.now.count * chains.now.count * chains.now.count }
{
    let mut outer = Vec::new(alloc);
    for s in 0..chains.count() {
        if !is_inner(chains, s, steps) {
            outer.push(s)?;
        }
    }
    Ok(outer)
}

// Whether a point is on the path between two of the others.
fn is_inner<L: Ledger>(chains: &ChainTable, s: u32, steps: &mut Steps<L>) -> bool
    requires { s < chains.now.count }
    ensures inner { IsTrue result ↔ IsOnSomeChain chains.now s }
    ensures steps { steps.new ≤ steps.old + 3 * chains.now.count * chains.now.count }
{
    for a in 0..chains.count() {
        if a != s && is_on_path_from(chains, a, s, steps) {
            return true;
        }
    }
    false
}

// Whether it is on the path from point `a` to another.
fn is_on_path_from<L: Ledger>(chains: &ChainTable, a: u32, s: u32, steps: &mut Steps<L>) -> bool
    requires first { a < chains.now.count }
    requires second { s < chains.now.count }
    requires apart { a ≢ s }
    ensures passed { IsTrue result ↔ IsPassedFrom chains.now a s }
    ensures steps { steps.new ≤ steps.old + 3 * chains.now.count }
{
    for b in 0..chains.count() {
        if b != a && b != s && chains.passes(a, b, s, steps) {
            return true;
        }
    }
    false
}

// The sides between outer points. Of m of them it takes at most 2 m m (d + 8) steps, where chains have fewer than 2^d points.
fn sides_among<L: Ledger>(
    alloc: Global,
    chains: &ChainTable,
    outer: &[u32],
    steps: &mut Steps<L>,
) -> Result<Vec<(u32, u32)>, Memory>
    requires { AreOuterBelow chains.now chains.now.count outer.now }
    ensures sides { IfOk result (λ sides. AreSidesBefore chains.now outer.now (chains.now.count, 0) sides.items) }
    ensures few { IfOk result (λ sides. length sides.items ≤ length outer.now) }
    ensures steps { (d : ℕ) → HasChainsBelow d chains.now
        → steps.new ≤ steps.old + 2 * length outer.now * length outer.now * (d + 8) }
{
    let mut sides = Vec::new(alloc);
    for s in outer {
        if let Some(t) = side_from(chains, outer, *s, steps) {
            sides.push((*s, t))?;
        }
    }
    Ok(sides)
}

// The end of the side that starts at an outer point, if one does.
pub(crate) fn side_from<L: Ledger>(
    chains: &ChainTable,
    outer: &[u32],
    s: u32,
    steps: &mut Steps<L>,
) -> Option<u32>
    requires outer { AreOuterBelow chains.now chains.now.count outer.now }
    requires start { Contains outer.now s }
    ensures end { MatchOption result (¬ StartsTold chains.now outer.now s) (IsOneEnd chains.now outer.now s) }
    ensures steps { (d : ℕ) → HasChainsBelow d chains.now → steps.new ≤ steps.old + 2 * length outer.now * (d + 8) }
{
    let t = side_end(chains, outer, s, steps);
    if t != s && is_side(chains, outer, s, t, steps) {
        Some(t)
    } else {
        None
    }
}

// Where the side from `s` ends, if one starts there: at the outer point that has all others to its left.
pub(crate) fn side_end<L: Ledger>(
    chains: &ChainTable,
    outer: &[u32],
    s: u32,
    steps: &mut Steps<L>,
) -> u32
    requires outer { AreOuterBelow chains.now chains.now.count outer.now }
    requires start { s < chains.now.count }
    ensures other { result ≢ s → Contains outer.now result }
    ensures end { (t : ℕ) → IsToldSide chains.now outer.now (s, t) → result ≡ t }
    ensures steps { (d : ℕ) → HasChainsBelow d chains.now → steps.new ≤ steps.old + length outer.now * (d + 8) }
{
    let mut end = s;
    for t in outer {
        if comes_first(chains, s, end, *t, steps) {
            end = *t;
        }
    }
    end
}

// Whether, seen from `s`, point `t` is not to the left of `end`, which is `s` as long as there is no end.
fn comes_first<L: Ledger>(
    chains: &ChainTable,
    s: u32,
    end: u32,
    t: u32,
    steps: &mut Steps<L>,
) -> bool
    requires first { s < chains.now.count }
    requires second { end < chains.now.count }
    requires third { t < chains.now.count }
    ensures first { IsTrue result ↔ ComesFirst chains.now s end t }
    ensures steps { (d : ℕ) → HasChainsBelow d chains.now → steps.new ≤ steps.old + (d + 8) }
{
    t != s && (end == s || !is_left(chains, s, end, t, steps))
}

// Whether all other points are to the left of the path from one to another.
pub(crate) fn is_side<L: Ledger>(
    chains: &ChainTable,
    outer: &[u32],
    s: u32,
    t: u32,
    steps: &mut Steps<L>,
) -> bool
    requires outer { AreOuterBelow chains.now chains.now.count outer.now }
    requires first { s < chains.now.count }
    requires second { t < chains.now.count }
    ensures side { IsTrue result ↔ ((u : ℕ) → Contains outer.now u → IsLeftOf chains.now s t u) }
    ensures steps { (d : ℕ) → HasChainsBelow d chains.now → steps.new ≤ steps.old + length outer.now * (d + 8) }
{
    for u in outer {
        if !is_left(chains, s, t, *u, steps) {
            return false;
        }
    }
    true
}

// Whether a point is one of the two, or to the left of the path from one to the other.
pub(crate) fn is_left<L: Ledger>(
    chains: &ChainTable,
    s: u32,
    t: u32,
    u: u32,
    steps: &mut Steps<L>,
) -> bool
    requires first { s < chains.now.count }
    requires second { t < chains.now.count }
    requires third { u < chains.now.count }
    ensures left { IsTrue result ↔ IsLeftOf chains.now s t u }
    ensures steps { (d : ℕ) → HasChainsBelow d chains.now → steps.new ≤ steps.old + (d + 8) }
{
    if u == s || u == t {
        return true;
    }
    chains.turn(s, t, u, steps) == Direction::Left
}
