// The paths to the points in a triangle that a walk has come to.
ghost use Rattle.std.specs.List.{All};
ghost use Rattle.std.specs.Prelude.{◌≡◌, ◌+◌, ◌-◌, ◌*◌, ◌^◌, ◌<◌, ◌≤◌, ◌↔◌, [], IfOk, IsTrue, OnOk, length, slice_index, slice_index_or, vec_capacity};
ghost use Rattle.plane.specs.Point.{whole};
ghost use Rattle.rings.specs.Chain.{IsPath};
ghost use Rattle.meshes.specs.Fits.{Fits, IsInTri};
ghost use Rattle.meshes.specs.Side.{HasSide, tri_at};
ghost use Rattle.meshes.specs.Sleeve.{IsOneOf, diagonal_at};
ghost use Rattle.exact_plane.specs.Names.{AppendsNames, AreNamed, named_points};
ghost use Rattle.exact_plane.specs.Spot.{point_named};
ghost use Rattle.funnel_walk.specs.Walked.{HasArrived};
ghost use Rattle.shared_walks.specs.Fronts.{IsFront, GoesThrough};
ghost use Rattle.shared_walks.specs.Several.{AreInTris, ArePathsSoFar, AreServed, FindsPaths, IsPathOfFewPoints, listed, missing};

use crate::front::Front;
use crate::paths::{Stops, is_missing, put};
use dual_tree::Board;
use exact_plane::{Memory, Pt, Spot, Steps, Turns};
use funnel_walk::{FunnelBox, walk};
use std::alloc::Global;
use std::sync::ledger::Ledger;
use tri_mesh::{Sleeve, has_side};

impl<'a> Stops<'a> {
    // The path to a point in the triangle that the walks begin in.
    pub(crate) fn path_at_home<L: Ledger>(
        &self,
        alloc: Global,
        sleeve: &Sleeve,
        t: &Pt,
        steps: &mut Steps<L>,
    ) -> Result<Vec<Pt>, Memory>
        requires fits { Fits self.now.ring.now.corners self.now.mesh.now }
        requires of_mesh { IsOneOf self.now.mesh.now sleeve.now }
        requires none { length sleeve.now.diagonals ≡ 0 }
        requires start { IsInTri self.now.ring.now.corners (tri_at self.now.mesh.now (slice_index_or sleeve.now.walk 0 0)) (whole self.now.start.now) }
        requires goal { IsInTri self.now.ring.now.corners (tri_at self.now.mesh.now (slice_index_or sleeve.now.walk (length sleeve.now.walk - 1) 0)) (whole t.now) }
        ensures path { IfOk result (λ path. IsPathOfFewPoints self.now.ring.now.corners self.now.start.now t.now path.items) }
        ensures steps { steps.new ≤ steps.old + 8 }
    {
        let board = Board::new(self.ring, *self.start, *t);
        let mut room = FunnelBox::with_room(alloc, 0)?;
        let mut names = Vec::with_capacity(alloc, 4)?;
        walk(&mut room, &board, self.mesh, sleeve, &mut names, steps);
        points_of(alloc, &names, &board)
    }

    // Finds the paths to all points in the triangle behind the front that have none yet.
    pub(crate) fn serve<L: Ledger>(
        &self,
        alloc: Global,
        sleeve: &Sleeve,
        front: &Front,
        found: &mut Vec<Vec<Pt>>,
        steps: &mut Steps<L>,
    ) -> Result<(), Memory>
        requires fits { Fits self.now.ring.now.corners self.now.mesh.now }
        requires of_mesh { IsOneOf self.now.mesh.now sleeve.now }
        requires front { IsFront self.now.ring.now.corners self.now.start.now front.now }
        requires on { GoesThrough sleeve.now front.now }
        requires held { AreInTris self.now.ring.now.corners self.now.mesh.now self.now.tris.now self.now.points.now }
        requires found { ArePathsSoFar self.now.ring.now.corners self.now.start.now self.now.points.now (listed found.old.items) }
        ensures found { OnOk result (FindsPaths self.now.ring.now.corners self.now.start.now self.now.points.now (length self.now.ring.now.corners + 1)
            (listed found.old.items) steps.old (listed found.new.items) steps.new) }
        ensures served { let here = diagonal_at sleeve.now front.now.funnel.at in
            OnOk result (AreServed self.now.mesh.now self.now.tris.now here.left here.right (length self.now.points.now) (listed found.new.items)) }
        ensures steps { let n = length self.now.ring.now.corners in steps.new ≤ steps.old + missing (listed found.old.items) * (n + 1) }
    {
        for j in 0..self.points.len() {
            if self.is_due(sleeve, front.funnel.at, j, found) {
                let path = self.path_behind(alloc, &self.points[j], front, steps)?;
                put(found, j, path);
            }
        }
        Ok(())
    }

    // Whether point `j` is in the triangle behind diagonal `i` and has no path yet.
    fn is_due(&self, sleeve: &Sleeve, i: usize, j: usize, found: &[Vec<Pt>]) -> bool
        requires within { i < length sleeve.now.diagonals }
        requires tri { j < length self.now.tris.now }
        requires in_mesh { slice_index self.now.tris.now j < length self.now.mesh.now }
        requires place { j < length found.now }
        ensures due { let here = diagonal_at sleeve.now i in
            IsTrue result ↔ ((length (slice_index_or (listed found.now) j []) ≡ 0)
            × HasSide (tri_at self.now.mesh.now (slice_index self.now.tris.now j)) here.left here.right) }
    {
        is_missing(found, j)
            && has_side(
                &self.mesh.tri(self.tris[j]),
                sleeve.left(i),
                sleeve.right(i),
            )
    }

    // The path to a point in the triangle behind the diagonal that a walk has come to.
    fn path_behind<L: Ledger>(
        &self,
        alloc: Global,
        t: &Pt,
        front: &Front,
        steps: &mut Steps<L>,
    ) -> Result<Vec<Pt>, Memory>
        requires arrived { HasArrived self.now.ring.now.corners self.now.start.now t.now front.now.behind.items front.now.funnel.names.items front.now.funnel.apex }
        requires few { length front.now.behind.items + length front.now.funnel.names.items + 1 ≤ length self.now.ring.now.corners }
        requires given { front.now.funnel.given ≡ 0 }
        ensures path { IfOk result (λ path. IsPathOfFewPoints self.now.ring.now.corners self.now.start.now t.now path.items) }
        ensures steps { steps.new ≤ steps.old + length front.now.funnel.names.items + 2 }
    {
        let _few_vertices = self.ring.len();
        let board = Board::new(self.ring, *self.start, *t);
        let out = names_behind(alloc, &board, front, steps)?;
        points_of(alloc, &out, &board)
    }
}

// The names of the path to the goal in the triangle behind the diagonal that a walk has come to.
fn names_behind<T: Turns, L: Ledger>(
    alloc: Global,
    board: &T,
    front: &Front,
    steps: &mut Steps<L>,
) -> Result<Vec<Spot>, Memory>
    requires arrived { HasArrived (T.corners board.now) (T.start board.now) (T.goal board.now) front.now.behind.items front.now.funnel.names.items front.now.funnel.apex }
    requires few { length front.now.behind.items + length front.now.funnel.names.items + 1 < 2 ^ 32 }
    requires given { front.now.funnel.given ≡ 0 }
    ensures path { IfOk result (λ out. AppendsNames (T.corners board.now) (T.start board.now) (T.goal board.now)
        (IsPath (T.corners board.now) (T.start board.now) (T.goal board.now)) [] out.items) }
    ensures few { IfOk result (λ out. length out.items ≤ length front.now.behind.items + length front.now.funnel.names.items + 1) }
    ensures steps { steps.new ≤ steps.old + length front.now.funnel.names.items + 2 }
{
    let mut out = copied(alloc, &front.behind, front.funnel.names.len() + 1)?;
    if board.same(Spot::Start, Spot::Goal, steps) {
        out.clear();
        out.push_reserved(Spot::Start);
    } else {
        front.funnel.reach_goal(board, &mut out, steps);
    }
    Ok(out)
}

// A copy of the names, with room for so many more.
pub(crate) fn copied(alloc: Global, names: &[Spot], more: usize) -> Result<Vec<Spot>, Memory>
    requires { length names.now + more < 2 ^ 32 }
    ensures items { IfOk result (λ copy. copy.items ≡ names.now) }
    ensures room { IfOk result (λ copy. vec_capacity copy ≡ length names.now + more) }
{
    let mut copy = Vec::with_capacity(alloc, names.len() + more)?;
    for name in names {
        copy.push_reserved(*name);
    }
    Ok(copy)
}

// The points that the names stand for.
fn points_of<'a>(alloc: Global, names: &[Spot], board: &Board<'a>) -> Result<Vec<Pt>, Memory>
    requires { AreNamed (⟦<Board<'a> as Turns>⟧.corners board.now) names.now }
    ensures { IfOk result (λ points. points.items ≡ named_points (point_named (⟦<Board<'a> as Turns>⟧.corners board.now)
        (⟦<Board<'a> as Turns>⟧.start board.now) (⟦<Board<'a> as Turns>⟧.goal board.now)) names.now) }
{
    let mut points = Vec::with_capacity(alloc, names.len())?;
    for name in names {
        points.push_reserved(board.point(*name));
    }
    Ok(points)
}
