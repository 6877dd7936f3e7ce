// Which edges of a list clash with none above them, as an index of the edges shows.
ghost use Rattle.std.specs.Prelude.{◌≡◌, ◌+◌, ◌*◌, ◌<◌, ◌≤◌, ℕ, IfSome, IsTrue, false, length};
ghost use Rattle.rings.specs.Simple.{Clash, HasEqualEnds};
ghost use Rattle.edge_index.specs.Candidates.{IsEdgeIndex};

use crate::clash::{has_equal_ends, share_point};
use edge_index::{EdgeIndex, Probe};
use exact_plane::{Pt, Steps};
use std::sync::ledger::Ledger;

// Whether an index shows that edge i clashes with no edge above it. It takes at most 257 steps, and 34 for each edge.
pub(crate) fn is_clear<L: Ledger>(
    points: &[Pt],
    index: &Option<EdgeIndex>,
    i: usize,
    steps: &mut Steps<L>,
) -> bool
    requires three { 3 ≤ length points.now }
    requires index { IfSome index.now (λ index. IsEdgeIndex points.now index) }
    requires edge { i < length points.now }
    ensures clear { IsTrue result → (l : ℕ) → i < l → l < length points.now → Clash points.now i l → ⊥ }
    ensures steps { steps.new ≤ steps.old + (257 + 34 * length points.now) }
{
    match index {
        Some(index) => clashes_with_none(points, index, i, steps),
        None => false,
    }
}

// Whether edge i has two ends and clashes with no candidate of the index.
fn clashes_with_none<L: Ledger>(
    points: &[Pt],
    index: &EdgeIndex,
    i: usize,
    steps: &mut Steps<L>,
) -> bool
    requires three { 3 ≤ length points.now }
    requires index { IsEdgeIndex points.now index.now }
    requires edge { i < length points.now }
    ensures clear { IsTrue result → (l : ℕ) → i < l → l < length points.now → Clash points.now i l → ⊥ }
    ensures steps { steps.new ≤ steps.old + (257 + 34 * length points.now) }
{
    if has_equal_ends(points, i, steps) {
        return false;
    }
    let edge = Probe::of(points, i, steps);
    let mut place = 0;
    while let Some((candidate, at)) = index.next(i, &edge, place) {
        if clash_above(points, i, candidate, steps) {
            return false;
        }
        place = at + 1;
    }
    true
}

// Whether edge e is above edge i, which has two ends, and clashes with it. It takes at most 17 steps.
fn clash_above<L: Ledger>(points: &[Pt], i: usize, e: usize, steps: &mut Steps<L>) -> bool
    requires three { 3 ≤ length points.now }
    requires edge { e < length points.now }
    ensures clear { result ≡ false → i < e → Clash points.now i e → HasEqualEnds points.now i }
    ensures steps { steps.new ≤ steps.old + 17 }
{
    i < e && (has_equal_ends(points, e, steps) || share_point(points, i, e, steps))
}
