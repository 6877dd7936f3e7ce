// How far a walk from the start has come.
ghost use Rattle.std.specs.List.{All};
ghost use Rattle.std.specs.Prelude.{◌≡◌, ◌+◌, ◌*◌, ◌<◌, ◌≤◌, ◌↔◌, ◌^◌, IfOk, List, IsTrue, length, slice_index_or};
ghost use Rattle.plane.specs.Point.{Point, whole};
ghost use Rattle.meshes.specs.Fits.{Fits, IsInTri};
ghost use Rattle.meshes.specs.Side.{tri_at};
ghost use Rattle.meshes.specs.Sleeve.{IsOneOf};
ghost use Rattle.shared_walks.specs.Fronts.{IsFront, GoesThrough};

use crate::paths::Stops;
use crate::serving::copied;
use dual_tree::Board;
use exact_plane::{Memory, Spot, Steps};
use funnel_walk::Funnel;
use std::alloc::Global;
use std::sync::ledger::Ledger;
use tri_mesh::Sleeve;

// The ends of the diagonal that a walk has come to, the funnel there, and the names before its apex.
#[derive(Drop)]
pub(crate) struct Front {
    pub left: u32,
    pub right: u32,
    pub funnel: Funnel,
    pub behind: Vec<Spot>,
}

impl Front {
    // The front at the first diagonal. It takes 2 steps.
    pub(crate) fn first<L: Ledger>(
        alloc: Global,
        stops: &Stops,
        sleeve: &Sleeve,
        steps: &mut Steps<L>,
    ) -> Result<Front, Memory>
        requires fits { Fits stops.now.ring.now.corners stops.now.mesh.now }
        requires of_mesh { IsOneOf stops.now.mesh.now sleeve.now }
        requires some { 0 < length sleeve.now.diagonals }
        requires start { IsInTri stops.now.ring.now.corners (tri_at stops.now.mesh.now (slice_index_or sleeve.now.walk 0 0)) (whole stops.now.start.now) }
        ensures front { IfOk result (IsFront stops.now.ring.now.corners stops.now.start.now) }
        ensures on { IfOk result (GoesThrough sleeve.now) }
        ensures steps { steps.new ≤ steps.old + 2 }
    {
        let n = stops.ring.len() as usize;
        let board = Board::new(stops.ring, *stops.start, *stops.start);
        let mut funnel = Funnel::with_room(alloc, n)?;
        let behind = Vec::with_capacity(alloc, n)?;
        funnel.open(&board, stops.mesh, sleeve, 0, steps);
        Ok(Front {
            left: sleeve.left(0),
            right: sleeve.right(0),
            funnel,
            behind,
        })
    }

    // Whether a sleeve goes through the diagonal there.
    pub(crate) fn is_on(&self, sleeve: &Sleeve) -> bool
        ensures { IsTrue result ↔ GoesThrough sleeve.now self.now }
    {
        self.funnel.at < sleeve.len()
            && self.left == sleeve.left(self.funnel.at)
            && self.right == sleeve.right(self.funnel.at)
    }

    // Goes on along a sleeve to diagonal `to`.
    pub(crate) fn advance<L: Ledger>(
        &mut self,
        stops: &Stops,
        sleeve: &Sleeve,
        to: usize,
        steps: &mut Steps<L>,
    )
        requires fits { Fits stops.now.ring.now.corners stops.now.mesh.now }
        requires of_mesh { IsOneOf stops.now.mesh.now sleeve.now }
        requires front { IsFront stops.now.ring.now.corners stops.now.start.now self.old }
        requires on { GoesThrough sleeve.now self.old }
        requires forward { self.old.funnel.at ≤ to }
        requires within { to < length sleeve.now.diagonals }
        ensures front { IsFront stops.now.ring.now.corners stops.now.start.now self.new }
        ensures on { GoesThrough sleeve.now self.new }
        ensures at { self.new.funnel.at ≡ to }
        ensures steps { steps.new + length self.new.funnel.names.items + 2 * self.old.funnel.at ≤ steps.old + length self.old.funnel.names.items + 2 * to }
    {
        let board = Board::new(stops.ring, *stops.start, *stops.start);
        self.funnel
            .go_on(&board, sleeve, to, &mut self.behind, steps);
        self.left = sleeve.left(to);
        self.right = sleeve.right(to);
    }

    // A copy, for a ring with `n` vertices.
    pub(crate) fn copy(&self, alloc: Global, n: usize) -> Result<Front, Memory>
        requires few { length self.now.behind.items + length self.now.funnel.names.items ≤ n }
        requires fits { n < 2 ^ 31 }
        ensures { IfOk result (λ copy. (corners : List Point) (start : Point) → length corners ≡ n → IsFront corners start self.now
            → IsFront corners start copy) }
    {
        Ok(Front {
            left: self.left,
            right: self.right,
            funnel: self.funnel.copied(alloc, n)?,
            behind: copied(alloc, &self.behind, n - self.behind.len())?,
        })
    }
}

impl<'a> Stops<'a> {
    // The last of the fronts that a sleeve goes through, which is taken, while those after it are dropped; the first one where there is
    // none. It takes at most 2 steps.
    pub(crate) fn front_on<L: Ledger>(
        &self,
        alloc: Global,
        sleeve: &Sleeve,
        fronts: &mut Vec<Front>,
        steps: &mut Steps<L>,
    ) -> Result<Front, Memory>
        requires fits { Fits self.now.ring.now.corners self.now.mesh.now }
        requires of_mesh { IsOneOf self.now.mesh.now sleeve.now }
        requires some { 0 < length sleeve.now.diagonals }
        requires start { IsInTri self.now.ring.now.corners (tri_at self.now.mesh.now (slice_index_or sleeve.now.walk 0 0)) (whole self.now.start.now) }
        requires fronts { All (IsFront self.now.ring.now.corners self.now.start.now) fronts.old.items }
        ensures front { IfOk result (IsFront self.now.ring.now.corners self.now.start.now) }
        ensures on { IfOk result (GoesThrough sleeve.now) }
        ensures fronts { All (IsFront self.now.ring.now.corners self.now.start.now) fronts.new.items }
        ensures steps { steps.new ≤ steps.old + 2 }
    {
        while let Some(front) = fronts.pop() {
            if front.is_on(sleeve) {
                return Ok(front);
            }
        }
        Front::first(alloc, self, sleeve, steps)
    }
}
