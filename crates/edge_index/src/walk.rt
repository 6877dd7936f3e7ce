// Walks over the places of a list of edges, on which whole runs are left out.
ghost use Rattle.std.specs.List.{All};
ghost use Rattle.std.specs.Prelude.{◌+◌, ℕ, IsTrue, List};
ghost use Rattle.plane.specs.Point.{Point};
ghost use Rattle.rings.specs.Ring.{vertex};
ghost use Rattle.edge_index.specs.Candidates.{AreLeftOut};
ghost use Rattle.edge_index.specs.Probes.{IsProbe};
ghost use Rattle.edge_index.specs.Runs.{IsRun};

use crate::place::Probe;
use crate::runs::{RUN, Run};

// The place behind the greatest of these runs from place `first` on that is apart from an edge, or has none above edge `i`; or `first`.
// The runs are a heap, as in `EdgeIndex`. A run in which edge `i` would be is asked only where it joins no others: a greater one has its
// neighbours, where they go the same way.
pub(crate) fn apart_to(runs: &[Run], first: usize, i: usize, edge: &Probe) -> usize
    ensures { (ring : List Point) (edges : List ℕ) → All (IsRun ring edges) runs.now → IsProbe edge.now (vertex ring i) (vertex ring (i + 1))
        → AreLeftOut ring edges i first result }
{
    if first % RUN != 0 {
        return first;
    }
    let least = runs.len() / 2 + first / RUN;
    let mut k = least.wrapping_shr(least.trailing_zeros());
    while 0 < k && k < runs.len() {
        if runs[k].first == first && is_apart(&runs[k], i, edge) {
            return runs[k].end;
        }
        k *= 2;
    }
    first
}

// Whether a run is apart from an edge, or has none above edge `i`.
fn is_apart(run: &Run, i: usize, edge: &Probe) -> bool
    ensures { IsTrue result → (ring : List Point) (edges : List ℕ) → IsRun ring edges run.now → IsProbe edge.now (vertex ring i) (vertex ring (i + 1))
        → AreLeftOut ring edges i run.now.first run.now.end }
{
    if run.last <= i {
        return true;
    }
    (i < run.least || run.end <= run.first.saturating_add(RUN)) && run.cover.is_apart(edge)
}
