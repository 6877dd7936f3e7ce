// Runs of edges with covers of them, by which whole runs are left out.
ghost use Rattle.std.specs.Prelude.{◌+◌, ◌*◌, ◌-◌, ◌<◌, ◌≤◌, ℕ, List, length};
ghost use Rattle.std.specs.List.{All};
ghost use Rattle.plane.specs.Point.{Point};
ghost use Rattle.edge_index.specs.Runs.{IsRun};

use crate::cover::Cover;
use crate::place::Probe;
use crate::slab::Slab;
use exact_plane::{Pt, Steps};
use std::sync::ledger::Ledger;

// How many places a run has at most that joins no others.
pub(crate) const RUN: usize = 8;

// The edges at the places from `first` to before `end` of a list of edges, in one cover, and the least and the last of them.
#[derive(Clone, Copy)]
pub(crate) struct Run {
    pub first: usize,
    pub end: usize,
    pub least: usize,
    pub last: usize,
    pub cover: Cover,
}

impl Run {
    // No edge.
    pub fn none(slab: &Slab) -> Run
        ensures { (ring : List Point) (edges : List ℕ) → IsRun ring edges result }
    {
        Run {
            first: 0,
            end: 0,
            least: usize::MAX,
            last: 0,
            cover: Cover::along(slab),
        }
    }

    // Those from `first` to before `end` or an edge with equal ends, with a slab that goes this way. It takes at most 256 steps an edge.
    pub fn over<L: Ledger>(
        points: &[Pt],
        edges: &[u32],
        first: usize,
        end: usize,
        slab: &Slab,
        steps: &mut Steps<L>,
    ) -> Run
        requires end { end ≤ length edges.now }
        requires edges { All (λ e. e < length points.now) edges.now }
        ensures run { IsRun points.now edges.now result }
        ensures steps { steps.new ≤ steps.old + 256 * (end - first) }
    {
        let mut run = Run {
            first,
            end: first,
            ..Run::none(slab)
        };
        for k in first..end {
            let e = edges[k] as usize;
            let edge = Probe::of(points, e, steps);
            if edge.is_point() {
                return run;
            }
            run = Run {
                first,
                end: k + 1,
                least: run.least.min(e),
                last: run.last.max(e),
                cover: run.cover.with(&edge),
            };
        }
        run
    }

    // This run and the next, or this one alone where the other does not follow it, has none, or has a slab that goes another way.
    pub fn joined(&self, next: &Run) -> Run
        ensures { (ring : List Point) (edges : List ℕ) → IsRun ring edges self.now → IsRun ring edges next.now → IsRun ring edges result }
    {
        if next.first != self.end || next.end <= next.first {
            return *self;
        }
        if !self.cover.slab.goes_with(&next.cover.slab) {
            return *self;
        }
        Run {
            first: self.first,
            end: next.end,
            least: self.least.min(next.least),
            last: self.last.max(next.last),
            cover: self.cover.joined(&next.cover),
        }
    }
}
