// Walks from the start to one point after another, each from the last front on its way.
ghost use Rattle.std.specs.List.{All};
ghost use Rattle.std.specs.Prelude.{◌≡◌, ◌+◌, ◌-◌, ◌*◌, ◌<◌, ◌≤◌, [], OnOk, length, slice_index_or};
ghost use Rattle.plane.specs.Point.{whole};
ghost use Rattle.meshes.specs.Fits.{Fits, IsInTri};
ghost use Rattle.meshes.specs.Side.{tri_at};
ghost use Rattle.meshes.specs.Sleeve.{IsOneOf, diagonal_at};
ghost use Rattle.shared_walks.specs.Fronts.{IsFront, GoesThrough};
ghost use Rattle.shared_walks.specs.Several.{AreInTris, ArePathsSoFar, AreServed, FindsPaths, listed, missing};

use crate::front::Front;
use crate::marks::Marks;
use crate::paths::{Stops, put};
use dual_tree::sleeve;
use exact_plane::{Memory, Pt, Steps};
use std::alloc::Global;
use std::sync::ledger::Ledger;
use tri_mesh::Sleeve;

// The points that are walked to, and where walks stop and part.
#[derive(Drop)]
pub(crate) struct Walks<'a> {
    pub stops: &'a Stops<'a>,
    pub marks: Marks,
}

impl<'a> Walks<'a> {
    // Finds the path to point `k`, and the paths to points on the way there.
    pub(crate) fn walk_to<L: Ledger>(
        &self,
        alloc: Global,
        k: usize,
        fronts: &mut Vec<Front>,
        found: &mut Vec<Vec<Pt>>,
        steps: &mut Steps<L>,
    ) -> Result<(), Memory>
        requires fits { Fits self.now.stops.now.ring.now.corners self.now.stops.now.mesh.now }
        requires home { self.now.stops.now.home < length self.now.stops.now.mesh.now }
        requires start { IsInTri self.now.stops.now.ring.now.corners (tri_at self.now.stops.now.mesh.now self.now.stops.now.home) (whole self.now.stops.now.start.now) }
        requires held { AreInTris self.now.stops.now.ring.now.corners self.now.stops.now.mesh.now self.now.stops.now.tris.now self.now.stops.now.points.now }
        requires within { k < length self.now.stops.now.points.now }
        requires none { length (slice_index_or (listed found.old.items) k []) ≡ 0 }
        requires found { ArePathsSoFar self.now.stops.now.ring.now.corners self.now.stops.now.start.now self.now.stops.now.points.now (listed found.old.items) }
        requires fronts { All (IsFront self.now.stops.now.ring.now.corners self.now.stops.now.start.now) fronts.old.items }
        ensures fronts { OnOk result (All (IsFront self.now.stops.now.ring.now.corners self.now.stops.now.start.now) fronts.new.items) }
        ensures found { OnOk result (FindsPaths self.now.stops.now.ring.now.corners self.now.stops.now.start.now self.now.stops.now.points.now (4 * length self.now.stops.now.ring.now.corners)
            (listed found.old.items) steps.old (listed found.new.items) steps.new) }
        ensures served { OnOk result (0 < length (slice_index_or (listed found.new.items) k [])) }
        ensures steps { steps.new ≤ steps.old + missing (listed found.old.items) * (4 * length self.now.stops.now.ring.now.corners) }
    {
        let _few_vertices = self.stops.ring.len();
        let sleeve = sleeve(alloc, self.stops.mesh, self.stops.home, self.stops.tris[k])?;
        if sleeve.len() == 0 {
            let path = self
                .stops
                .path_at_home(alloc, &sleeve, &self.stops.points[k], steps)?;
            put(found, k, path);
        } else {
            self.walk_along(alloc, &sleeve, fronts, found, steps)?;
        }
        Ok(())
    }

    // Walks along a sleeve, from the last of the fronts that it goes through, and finds the paths to all points in triangles that the walk
    // stops at. Where ways part it leaves a front behind, and one at the end.
    fn walk_along<L: Ledger>(
        &self,
        alloc: Global,
        sleeve: &Sleeve,
        fronts: &mut Vec<Front>,
        found: &mut Vec<Vec<Pt>>,
        steps: &mut Steps<L>,
    ) -> Result<(), Memory>
        requires fits { Fits self.now.stops.now.ring.now.corners self.now.stops.now.mesh.now }
        requires of_mesh { IsOneOf self.now.stops.now.mesh.now sleeve.now }
        requires some { 0 < length sleeve.now.diagonals }
        requires start { IsInTri self.now.stops.now.ring.now.corners (tri_at self.now.stops.now.mesh.now (slice_index_or sleeve.now.walk 0 0)) (whole self.now.stops.now.start.now) }
        requires held { AreInTris self.now.stops.now.ring.now.corners self.now.stops.now.mesh.now self.now.stops.now.tris.now self.now.stops.now.points.now }
        requires found { ArePathsSoFar self.now.stops.now.ring.now.corners self.now.stops.now.start.now self.now.stops.now.points.now (listed found.old.items) }
        requires fronts { All (IsFront self.now.stops.now.ring.now.corners self.now.stops.now.start.now) fronts.old.items }
        ensures fronts { OnOk result (All (IsFront self.now.stops.now.ring.now.corners self.now.stops.now.start.now) fronts.new.items) }
        ensures found { OnOk result (FindsPaths self.now.stops.now.ring.now.corners self.now.stops.now.start.now self.now.stops.now.points.now (length self.now.stops.now.ring.now.corners + 1)
            (listed found.old.items) (steps.old + 2 * length self.now.stops.now.ring.now.corners) (listed found.new.items) steps.new) }
        ensures served { let last = diagonal_at sleeve.now (length sleeve.now.diagonals - 1) in
            OnOk result (AreServed self.now.stops.now.mesh.now self.now.stops.now.tris.now last.left last.right (length self.now.stops.now.points.now) (listed found.new.items)) }
        ensures steps { let n = length self.now.stops.now.ring.now.corners in steps.new ≤ steps.old + 2 * n + missing (listed found.old.items) * (n + 1) }
    {
        let mut front = self.stops.front_on(alloc, sleeve, fronts, steps)?;
        for i in front.funnel.at..sleeve.len() {
            if self.marks.is_stop(sleeve, i) {
                front.advance(self.stops, sleeve, i, steps);
                self.stops.serve(alloc, sleeve, &front, found, steps)?;
                self.leave_copy(alloc, sleeve, &front, fronts)?;
            }
        }
        if self.marks.are_some() {
            fronts.push(front)?;
        }
        Ok(())
    }

    // Leaves a copy of the front behind where ways part.
    fn leave_copy(
        &self,
        alloc: Global,
        sleeve: &Sleeve,
        front: &Front,
        fronts: &mut Vec<Front>,
    ) -> Result<(), Memory>
        requires front { IsFront self.now.stops.now.ring.now.corners self.now.stops.now.start.now front.now }
        requires on { GoesThrough sleeve.now front.now }
        requires fronts { All (IsFront self.now.stops.now.ring.now.corners self.now.stops.now.start.now) fronts.old.items }
        ensures fronts { OnOk result (All (IsFront self.now.stops.now.ring.now.corners self.now.stops.now.start.now) fronts.new.items) }
    {
        if self.marks.is_fork(sleeve, front.funnel.at) {
            let copy = front.copy(alloc, self.stops.ring.len() as usize)?;
            fronts.push(copy)?;
        }
        Ok(())
    }
}
