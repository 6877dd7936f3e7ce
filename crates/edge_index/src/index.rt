// An index of the edges of a list.
ghost use Rattle.std.specs.Prelude.{◌≡◌, ◌+◌, ◌*◌, ◌-◌, ◌<◌, ◌≤◌, ◌^◌, ℕ, IfNone, IfOk, IfSome, List, length, slice_index};
ghost use Rattle.std.specs.List.{All};
ghost use Rattle.plane.specs.Point.{Point};
ghost use Rattle.rings.specs.Ring.{vertex};
ghost use Rattle.edge_index.specs.Candidates.{AreLeftOut, IsEdgeIndex, ListsEdges, edges_of};
ghost use Rattle.edge_index.specs.Probes.{IsProbe};
ghost use Rattle.edge_index.specs.Runs.{IsRun};

use crate::kinds::{KINDS, edges_by_kind, kinds_of};
use crate::place::{Probe, Stretch};
use crate::runs::{RUN, Run};
use crate::slab::Slab;
use crate::walk::apart_to;
use exact_plane::{Memory, Pt, Steps};
use std::alloc::Global;
use std::sync::ledger::Ledger;

/// The edges of a list, each at a place or some, and runs of these places with a cover of each.
#[derive(Drop)]
pub struct EdgeIndex {
    edges: Vec<u32>,
    // A heap: run k joins runs 2 k and 2 k + 1, and of the last half one begins at each multiple of `RUN`.
    runs: Vec<Run>,
}

impl EdgeIndex {
    /// Returns the index of a list, or `None` for a list so short that there would be more than twice as many places as edges. It takes
    /// at most 1856 steps an edge, so O(n). Out of memory, the list is as before.
    pub fn of<L: Ledger>(
        alloc: Global,
        points: &[Pt],
        steps: &mut Steps<L>,
    ) -> Result<Option<EdgeIndex>, Memory>
        requires small { length points.now < 2 ^ 32 }
        ensures index { IfOk result (λ found. IfSome found (λ index. IsEdgeIndex points.now index)) }
        ensures steps { steps.new ≤ steps.old + 1856 * length points.now }
    {
        let kinds = kinds_of(alloc, points, steps)?;
        let edges = edges_by_kind(alloc, &kinds)?;
        if 2 * points.len() < edges.len() {
            return Ok(None);
        }
        let slabs = slabs_of(alloc, points, &kinds, steps)?;
        let mut runs = empty_runs(alloc, edges.len() / RUN, &slabs[0])?;
        fill(points, &edges, &kinds, &slabs, &mut runs, steps);
        join(&mut runs);
        refill(points, &edges, &mut runs, steps);
        Ok(Some(EdgeIndex { edges, runs }))
    }

    /// Returns the first candidate for edge `i` at a place from `place` on: the edge, and its place. Behind the last place there is none.
    /// Each edge that is passed over is not above edge `i`, or has two ends and shares no point with edge `i`. It takes no steps, and
    /// O(n) time.
    pub fn next(&self, i: usize, edge: &Probe, place: usize) -> Option<(usize, usize)>
        ensures inside { IfSome result (λ found. (place ≤ found.1) × (found.1 < length (edges_of self.now))) }
        ensures edge { IfSome result (λ found. slice_index (edges_of self.now) found.1 ≡ found.0) }
        ensures passed { IfSome result (λ found. (ring : List Point) → IsEdgeIndex ring self.now
            → IsProbe edge.now (vertex ring i) (vertex ring (i + 1)) → AreLeftOut ring (edges_of self.now) i place found.1) }
        ensures none { IfNone result ((ring : List Point) → IsEdgeIndex ring self.now
            → IsProbe edge.now (vertex ring i) (vertex ring (i + 1)) → AreLeftOut ring (edges_of self.now) i place (length (edges_of self.now))) }
    {
        let mut k = place;
        while k < self.edges.len() {
            let end = apart_to(&self.runs, k, i, edge);
            if end <= k {
                return Some((self.edges[k] as usize, k));
            }
            k = end;
        }
        None
    }
}

// For each kind the slab along its longest edge. It takes 128 steps an edge.
fn slabs_of<L: Ledger>(
    alloc: Global,
    points: &[Pt],
    kinds: &[usize],
    steps: &mut Steps<L>,
) -> Result<Vec<Slab>, Memory>
    requires all { length kinds.now ≡ length points.now }
    requires kinds { All (λ kind. kind < 17) kinds.now }
    ensures count { IfOk result (λ slabs. length slabs.items ≡ 17) }
    ensures steps { steps.new ≤ steps.old + 128 * length points.now }
{
    let mut slabs = Vec::from_elem(alloc, Slab::none(), KINDS)?;
    for e in 0..kinds.len() {
        slabs[kinds[e]] = slabs[kinds[e]].heavier(&Slab::along(&Stretch::of(points, e, steps)));
    }
    Ok(slabs)
}

// Runs of no edges, for a heap above so many that join none.
fn empty_runs(alloc: Global, count: usize, slab: &Slab) -> Result<Vec<Run>, Memory>
    requires { count < 2 ^ 32 }
    ensures { IfOk result (λ runs. (ring : List Point) (edges : List ℕ) → All (IsRun ring edges) runs.items) }
{
    let size = 2 * count.next_power_of_two();
    let mut runs = Vec::with_capacity(alloc, size)?;
    for made in 0..size {
        runs.push_reserved(Run::none(slab));
    }
    Ok(runs)
}

// Makes each run that joins none that of its edges, with a slab along the longest edge of the kind of the first. It takes at most 2048 steps a run.
fn fill<L: Ledger>(
    points: &[Pt],
    edges: &[u32],
    kinds: &[usize],
    slabs: &[Slab],
    runs: &mut Vec<Run>,
    steps: &mut Steps<L>,
)
    requires edges { ListsEdges points.now edges.now }
    requires all { length kinds.now ≡ length points.now }
    requires kinds { All (λ kind. kind < 17) kinds.now }
    requires slabs { length slabs.now ≡ 17 }
    requires runs { All (IsRun points.now edges.now) runs.old.items }
    ensures runs { All (IsRun points.now edges.now) runs.new.items }
    ensures steps { steps.new ≤ steps.old + 256 * length edges.now }
{
    let half = runs.len() / 2;
    for k in 0..half.min(edges.len() / RUN) {
        let first = k * RUN;
        let slab = &slabs[kinds[edges[first] as usize]];
        runs[half + k] = Run::over(points, edges, first, first + RUN, slab, steps);
    }
}

// Makes each other run that which joins two.
fn join(runs: &mut Vec<Run>)
    ensures { (ring : List Point) (edges : List ℕ) → All (IsRun ring edges) runs.old.items → All (IsRun ring edges) runs.new.items }
{
    let mut k = runs.len() / 2;
    while 1 < k {
        k -= 1;
        runs[k] = runs[2 * k].joined(&runs[2 * k + 1]);
    }
}

// Makes each run that joins none that of its edges again, with a slab along the longest of these. It takes at most 3072 steps a run.
fn refill<L: Ledger>(points: &[Pt], edges: &[u32], runs: &mut Vec<Run>, steps: &mut Steps<L>)
    requires edges { ListsEdges points.now edges.now }
    requires runs { All (IsRun points.now edges.now) runs.old.items }
    ensures runs { All (IsRun points.now edges.now) runs.new.items }
    ensures steps { steps.new ≤ steps.old + 384 * length edges.now }
{
    let half = runs.len() / 2;
    for k in 0..half.min(edges.len() / RUN) {
        let first = k * RUN;
        let slab = longest(points, edges, first, first + RUN, steps);
        runs[half + k] = Run::over(points, edges, first, first + RUN, &slab, steps);
    }
}

// The slab along the longest of the edges at the places from `first` to before `end`. It takes 128 steps an edge.
fn longest<L: Ledger>(
    points: &[Pt],
    edges: &[u32],
    first: usize,
    end: usize,
    steps: &mut Steps<L>,
) -> Slab
    requires end { end ≤ length edges.now }
    requires edges { All (λ e. e < length points.now) edges.now }
    ensures { steps.new ≤ steps.old + 128 * (end - first) }
{
    let mut slab = Slab::none();
    for k in first..end {
        slab = slab.heavier(&Slab::along(&Stretch::of(points, edges[k] as usize, steps)));
    }
    slab
}
