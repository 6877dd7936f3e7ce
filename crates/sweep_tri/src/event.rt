// The events of the sweep: what the state becomes at each vertex, by its kind.
ghost use Rattle.std.specs.Prelude.{◌≡◌, ◌+◌, ◌*◌, ◌≤◌, ◌<◌, ◌↔◌, OnOk, IsTrue, [], length, slice_index};
ghost use Rattle.rings.specs.Events.{next, previous};
ghost use Rattle.shared_seq.specs.Digits.{binary_digits};
ghost use Rattle.sweep_tri.specs.Entries.{IsAccounted, event_work};
ghost use Rattle.sweep_tri.specs.Forks.{IsForkAt};
ghost use Rattle.sweep_tri.specs.Frontier.{IsGapPlace, IsUnder};
ghost use Rattle.sweep_tri.specs.Gaps.{gap_at, highest, up_front};
ghost use Rattle.sweep_tri.specs.Passing.{Begins, Finishes, IsNextEvent};
ghost use Rattle.sweep_tri.specs.Swept.{IsSwept};

mod end;
mod merge;
mod regular;
mod split;
mod start;

use crate::board::RankedBoard;
use crate::gap::Fork;
use crate::status::Status;
use exact_plane::{Direction, Memory, Spot, Steps, Turns};
use meshes::Tri;
use std::alloc::Global;
use std::sync::ledger::Ledger;

// The gaps between the edges that the sweep line meets, and the triangles of the regions that are closed.
#[derive(Drop)]
pub(crate) struct Sweep {
    pub(crate) status: Status,
    pub(crate) tris: Vec<Tri>,
}

impl Sweep {
    // Before the first event.
    pub(crate) fn new(alloc: Global) -> Sweep
        ensures gaps { result.status ≡ [] }
        ensures triangles { result.tris.items ≡ [] }
    {
        Sweep {
            status: Status::new(alloc),
            tris: Vec::new(alloc),
        }
    }

    // The event at vertex v, which is the next one.
    pub(crate) fn pass<T: Turns, L: Ledger>(
        &mut self,
        alloc: Global,
        board: &T,
        rank: &[u32],
        v: u32,
        steps: &mut Steps<L>,
    ) -> Result<(), Memory>
        requires next { IsNextEvent (T.corners board.now) rank.now self.old.status self.old.tris.items v }
        ensures swept { OnOk result (IsSwept (T.corners board.now) rank.now (slice_index rank.now v + 1) self.new.status self.new.tris.items) }
        ensures work { IsAccounted result self.old.status self.new.status (200 * binary_digits (length (T.corners board.now))) steps.old steps.new }
    {
        let ring = &RankedBoard { alloc, board, rank };
        let j = self.status.place(board, v, steps);
        let (a, b) = neighbours(rank.len() as u32, v);
        let (a_begins, b_begins) = (is_after(rank, a, v), is_after(rank, b, v));
        if a_begins && b_begins {
            let fork = fork_of(board, v, a, b, steps);
            self.begin(ring, j, fork, steps)
        } else if a_begins {
            self.go_on(ring, j, v, a, steps)
        } else if b_begins {
            self.go_on(ring, j, v, b, steps)
        } else {
            self.finish(ring, j, v, steps)
        }
    }

    // Two edges begin.
    fn begin<T: Turns, L: Ledger>(
        &mut self,
        ring: &RankedBoard<T>,
        j: usize,
        fork: Fork,
        steps: &mut Steps<L>,
    ) -> Result<(), Memory>
        requires next { IsNextEvent (T.corners ring.now.board.now) ring.now.rank.now self.old.status self.old.tris.items fork.vertex }
        requires place { IsGapPlace (T.corners ring.now.board.now) self.old.status fork.vertex j }
        requires begins { Begins (T.corners ring.now.board.now) ring.now.rank.now fork }
        ensures swept { OnOk result (IsSwept (T.corners ring.now.board.now) ring.now.rank.now (slice_index ring.now.rank.now fork.vertex + 1) self.new.status self.new.tris.items) }
        ensures work { IsAccounted result self.old.status self.new.status event_work steps.old steps.new }
    {
        if 0 < j && self.is_under(ring.board, j - 1, fork.vertex, steps) {
            self.split(ring.alloc, ring.rank, j - 1, fork)
        } else {
            self.start(ring.alloc, j, fork)
        }
    }

    // Two edges end.
    fn finish<T: Turns, L: Ledger>(
        &mut self,
        ring: &RankedBoard<T>,
        j: usize,
        v: u32,
        steps: &mut Steps<L>,
    ) -> Result<(), Memory>
        requires next { IsNextEvent (T.corners ring.now.board.now) ring.now.rank.now self.old.status self.old.tris.items v }
        requires place { IsGapPlace (T.corners ring.now.board.now) self.old.status v j }
        requires finishes { Finishes ring.now.rank.now v }
        ensures swept { OnOk result (IsSwept (T.corners ring.now.board.now) ring.now.rank.now (slice_index ring.now.rank.now v + 1) self.new.status self.new.tris.items) }
        ensures work { IsAccounted result self.old.status self.new.status event_work steps.old steps.new }
    {
        if self.status.get(j).up_front().1 == v {
            self.end(ring, j, v, steps)
        } else {
            self.merge(ring, j, v, steps)
        }
    }

    // Whether vertex v is under the upper edge of gap j.
    fn is_under<T: Turns, L: Ledger>(
        &self,
        board: &T,
        j: usize,
        v: u32,
        steps: &mut Steps<L>,
    ) -> bool
        requires place { j < length self.now.status }
        requires some { let g = gap_at self.now.status j in 2 ≤ length (highest g.low g.high).upper }
        requires v { v < length (T.corners board.now) }
        requires from { (up_front (gap_at self.now.status j)).from < length (T.corners board.now) }
        requires to { (up_front (gap_at self.now.status j)).to < length (T.corners board.now) }
        ensures under { IsTrue result ↔ IsUnder (T.corners board.now) (up_front (gap_at self.now.status j)) v }
        ensures steps { steps.new ≤ steps.old + 1 }
    {
        let (from, to) = self.status.get(j).up_front();
        let turn = board.turn(Spot::Corner(from), Spot::Corner(to), Spot::Corner(v), steps);
        turn == Direction::Right
    }
}

// The vertices before and after v, of n.
fn neighbours(n: u32, v: u32) -> (u32, u32)
    requires { v < n }
    ensures before { result.0 ≡ previous n v }
    ensures after { result.1 ≡ next n v }
{
    let before = if 0 < v { v - 1 } else { n - 1 };
    let after = if v + 1 < n { v + 1 } else { 0 };
    (before, after)
}

// Whether vertex w comes after vertex v.
fn is_after(rank: &[u32], w: u32, v: u32) -> bool
    requires w { w < length rank.now }
    requires v { v < length rank.now }
    ensures { IsTrue result ↔ (slice_index rank.now v < slice_index rank.now w) }
{
    rank[v as usize] < rank[w as usize]
}

// The fork at v, from where edges go to a and b. It takes one step.
fn fork_of<T: Turns, L: Ledger>(board: &T, v: u32, a: u32, b: u32, steps: &mut Steps<L>) -> Fork
    requires v { v < length (T.corners board.now) }
    requires a { a < length (T.corners board.now) }
    requires b { b < length (T.corners board.now) }
    ensures fork { IsForkAt (T.corners board.now) v a b result }
    ensures steps { steps.new ≡ steps.old + 1 }
{
    let turn = board.turn(Spot::Corner(v), Spot::Corner(a), Spot::Corner(b), steps);
    let (below, above) = if turn == Direction::Left {
        (a, b)
    } else {
        (b, a)
    };
    Fork {
        vertex: v,
        below,
        above,
    }
}
