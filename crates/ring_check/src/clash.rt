// The search of the least clash: a scan of all pairs of edges, and the tests of one pair.
ghost use Rattle.std.specs.Prelude.{◌≡◌, ◌+◌, ◌*◌, ◌<◌, ◌≤◌, ◌^◌, ◌↔◌, ℕ, IsTrue, IfSome, IfNone, length};
ghost use Rattle.rings.specs.Ring.{vertex};
ghost use Rattle.rings.specs.Simple.{Clash, HasEqualEnds, IsLeastClash, IsSimple, SharesPoint};
ghost use Rattle.edge_index.specs.Candidates.{IsEdgeIndex};

use crate::candidates::is_clear;
use edge_index::{EdgeIndex, corner};
use exact_plane::{Pt, Steps, meet_only_at, order, segments_meet};
use std::alloc::Global;
use std::cmp::Ordering;
use std::sync::ledger::Ledger;

// The least pair of edges i < j that clash, in the order of i, then j. Where points are at random, the first edge clashes, and an index
// is of no use. It takes at most 214 n n + 1300 n (d + 4) steps for n points, n below 2 to the power d.
pub fn find_clash<L: Ledger>(
    alloc: Global,
    points: &[Pt],
    steps: &mut Steps<L>,
) -> Option<(usize, usize)>
    requires three { 3 ≤ length points.now }
    requires small { length points.now < 2 ^ 32 }
    ensures least { IfSome result (λ pair. IsLeastClash points.now pair.0 pair.1) }
    ensures simple { IfNone result (IsSimple points.now) }
    ensures steps { (d : ℕ) → let n = length points.now in n < 2 ^ d → steps.new ≤ steps.old + (214 * (n * n) + 1300 * (n * (d + 4))) }
{
    if let Some(j) = least_clash_with(points, 0, steps) {
        return Some((0, j));
    }
    match EdgeIndex::of(alloc, points, steps) {
        Ok(index) => least_clash(points, &index, steps),
        Err(_) => least_clash(points, &None, steps),
    }
}

// The same by a scan of all pairs, without the edges of which an index shows that they clash with none. It takes at most 52 n n + 300 n
// steps for n points.
fn least_clash<L: Ledger>(
    points: &[Pt],
    index: &Option<EdgeIndex>,
    steps: &mut Steps<L>,
) -> Option<(usize, usize)>
    requires three { 3 ≤ length points.now }
    requires index { IfSome index.now (λ index. IsEdgeIndex points.now index) }
    ensures least { IfSome result (λ pair. IsLeastClash points.now pair.0 pair.1) }
    ensures simple { IfNone result (IsSimple points.now) }
    ensures steps { let n = length points.now in steps.new ≤ steps.old + (52 * (n * n) + 300 * n) }
{
    for i in 0..points.len() {
        if !is_clear(points, index, i, steps) {
            if let Some(j) = least_clash_with(points, i, steps) {
                return Some((i, j));
            }
        }
    }
    None
}

// The least edge above i that clashes with edge i. It takes at most 18 steps for each edge above i.
fn least_clash_with<L: Ledger>(points: &[Pt], i: usize, steps: &mut Steps<L>) -> Option<usize>
    requires three { 3 ≤ length points.now }
    requires edge { i < length points.now }
    ensures range { IfSome result (λ j. (i < j) × (j < length points.now)) }
    ensures clash { IfSome result (λ j. Clash points.now i j) }
    ensures least { IfSome result (λ j. (l : ℕ) → i < l → l < j → Clash points.now i l → ⊥) }
    ensures none { IfNone result ((l : ℕ) → i < l → l < length points.now → Clash points.now i l → ⊥) }
    ensures steps { steps.new ≤ steps.old + 18 * length points.now }
{
    for j in i + 1..points.len() {
        if edges_clash(points, i, j, steps) {
            return Some(j);
        }
    }
    None
}

// Whether edges i < j clash. It takes at most 18 steps.
fn edges_clash<L: Ledger>(points: &[Pt], i: usize, j: usize, steps: &mut Steps<L>) -> bool
    requires three { 3 ≤ length points.now }
    requires order { i < j }
    requires edge { j < length points.now }
    ensures clash { IsTrue result ↔ Clash points.now i j }
    ensures steps { steps.new ≤ steps.old + 18 }
{
    if has_equal_ends(points, i, steps) || has_equal_ends(points, j, steps) {
        return true;
    }
    share_point(points, i, j, steps)
}

// Whether edges i < j share a point other than the vertex where they follow one another. It takes at most 16 steps.
pub(crate) fn share_point<L: Ledger>(
    points: &[Pt],
    i: usize,
    j: usize,
    steps: &mut Steps<L>,
) -> bool
    requires three { 3 ≤ length points.now }
    requires order { i < j }
    requires edge { j < length points.now }
    ensures shared { IsTrue result ↔ SharesPoint points.now i j }
    ensures steps { steps.new ≤ steps.old + 16 }
{
    let (a, b) = (corner(points, i), corner(points, i + 1));
    let (c, d) = (corner(points, j), corner(points, j + 1));
    if j == i + 1 {
        return !meet_only_at(&a, &b, &d, steps);
    }
    if i == 0 && j + 1 == points.len() {
        return !meet_only_at(&c, &a, &b, steps);
    }
    segments_meet(&a, &b, &c, &d, steps)
}

// Whether edge i has equal ends. It takes one step.
pub(crate) fn has_equal_ends<L: Ledger>(points: &[Pt], i: usize, steps: &mut Steps<L>) -> bool
    requires { i < length points.now }
    ensures equal { IsTrue result ↔ HasEqualEnds points.now i }
    ensures steps { steps.new ≡ steps.old + 1 }
{
    order(&corner(points, i), &corner(points, i + 1), steps) == Ordering::Equal
}
