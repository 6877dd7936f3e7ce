// A tree that grows outward from the triangle of its start.
ghost use Rattle.std.specs.Prelude.{◌≡◌, ◌+◌, ◌*◌, ◌<◌, ◌≤◌, ℕ, IfOk, None, List, OnOk, length, replicate};
ghost use Rattle.plane.specs.Point.{whole};
ghost use Rattle.meshes.specs.Fits.{Fits, IsInTri};
ghost use Rattle.meshes.specs.Side.{tri_at};
ghost use Rattle.meshes.specs.declared.tri.Tri.{Tri};
ghost use Rattle.exact_plane.specs.Spot.{IsNamed, point_named};
ghost use Rattle.shared_seq.specs.Digits.{binary_digits};
ghost use Rattle.path_tree.specs.Entered.{IsFromStart, IsFunnelTo};
ghost use Rattle.path_tree.specs.Grown.{IsFromNamed};
ghost use Rattle.path_tree.specs.Growing.{CanGoOn, HasGrown};

use crate::door::{Visit, door_of};
use crate::funnel::Funnel;
use crate::name::spot;
use crate::onward::{funnel_from, place_of_third};
use exact_plane::{Memory, Spot, Steps, Turns};
use std::alloc::Global;
use std::sync::ledger::Ledger;
use tri_mesh::{Mesh, Outward};

// A tree that grows outward from the home triangle: what is before the vertices of the triangles so far, and their funnels; and
// for each of these triangles, in their order, the place of its funnel from which its third corner is reached.
#[derive(Drop)]
pub(crate) struct Growth {
    pub(crate) before: Vec<Option<Spot>>,
    pub(crate) funnels: Vec<Option<Funnel>>,
    pub(crate) thirds: Vec<usize>,
}

impl Growth {
    // The tree with what is before the corners of the home triangle, and no funnel. It takes 3 steps.
    pub(crate) fn at_home<T: Turns, L: Ledger>(
        alloc: Global,
        board: &T,
        mesh: &Mesh,
        order: &[Outward],
        steps: &mut Steps<L>,
    ) -> Result<Growth, Memory>
        requires { IsFromStart (T.corners board.now) (T.start board.now) mesh.now order.now }
        ensures grown { IfOk result (HasGrown (T.corners board.now) (T.start board.now) mesh.now order.now 1) }
        ensures steps { steps.new ≤ steps.old + 3 }
    {
        let count = mesh.count() as usize;
        let mut before = none_each(alloc, count + 2)?;
        let funnels = none_each(alloc, count)?;
        // The home has no funnel, so no place in one.
        let mut thirds = Vec::with_capacity(alloc, count)?;
        thirds.push_reserved(0);
        let tri = mesh.tri(order[0].tri);
        for corner in [tri.a, tri.b, tri.c] {
            before[corner as usize] = straight(board, Spot::Corner(corner), steps);
        }
        Ok(Growth {
            before,
            funnels,
            thirds,
        })
    }

    // Goes on to the triangle at place `p`: its funnel, and what is before its third corner. It takes at most 200 b b steps, b
    // the number of binary digits of that of the corners.
    pub(crate) fn go_on<T: Turns, L: Ledger>(
        &mut self,
        alloc: Global,
        board: &T,
        visit: Visit,
        steps: &mut Steps<L>,
    ) -> Result<(), Memory>
        requires { CanGoOn (T.corners board.now) (T.start board.now) visit.mesh.now visit.order.now visit.p self.old }
        ensures grown { OnOk result (HasGrown (T.corners board.now) (T.start board.now) visit.entry.mesh.now visit.entry.order.now (visit.entry.p + 1) self.new) }
        ensures steps { let b = binary_digits (length (T.corners board.now)) in steps.new ≤ steps.old + 200 * (b * b) }
    {
        let Visit { mesh, order, p } = visit;
        let funnel = self.next_funnel(alloc, board, visit, steps)?;
        let place = place_of_third(board, visit, &funnel, steps);
        let near = spot(funnel.number(place, steps), mesh.count() + 2);
        self.thirds.push_reserved(place);
        self.before[door_of(mesh, order[p]).third as usize] = Some(near);
        self.funnels[order[p].tri as usize] = Some(funnel);
        Ok(())
    }

    // The funnel at the side over which the triangle at place `p` is entered.
    fn next_funnel<T: Turns, L: Ledger>(
        &self,
        alloc: Global,
        board: &T,
        visit: Visit,
        steps: &mut Steps<L>,
    ) -> Result<Funnel, Memory>
        requires { CanGoOn (T.corners board.now) (T.start board.now) visit.mesh.now visit.order.now visit.p self.now }
        ensures funnel { IfOk result (IsFunnelTo (T.corners board.now) (T.start board.now) visit.entry.mesh.now visit.entry.order.now visit.entry.p) }
        ensures steps { let b = binary_digits (length (T.corners board.now)) in steps.new ≤ steps.old + 160 * (b + 1) }
    {
        let Visit { mesh, order, p } = visit;
        let toward = order[p].toward as usize;
        match &self.funnels[order[toward].tri as usize] {
            Some(funnel) => {
                let place = self.thirds[toward];
                funnel_from(alloc, board, visit, funnel, place, steps)
            }
            None => {
                let door = door_of(mesh, order[p]);
                Funnel::first(alloc, board, mesh.count() + 2, door.left, door.right, steps)
            }
        }
    }
}

// What is before a point of a triangle with the start in it: the start, or nothing where both are one point. It takes one step.
pub(crate) fn straight<T: Turns, L: Ledger>(
    board: &T,
    y: Spot,
    steps: &mut Steps<L>,
) -> Option<Spot>
    requires { IsNamed (T.corners board.now) y }
    ensures before { let at = point_named (T.corners board.now) (T.start board.now) (T.goal board.now) in
        (tris : List Tri) (k : ℕ) → Fits (T.corners board.now) tris → k < length tris
        → IsInTri (T.corners board.now) (tri_at tris k) (whole (T.start board.now))
        → IsInTri (T.corners board.now) (tri_at tris k) (whole (at y))
        → IsFromNamed (T.corners board.now) (T.start board.now) (at y) result }
    ensures steps { steps.new ≡ steps.old + 1 }
{
    if board.same(Spot::Start, y, steps) {
        None
    } else {
        Some(Spot::Start)
    }
}

// So many times nothing.
fn none_each<T: Drop>(alloc: Global, count: usize) -> Result<Vec<Option<T>>, Memory>
    ensures { IfOk result (λ all. all.items ≡ replicate count None) }
{
    let mut all = Vec::with_capacity(alloc, count)?;
    for _ in 0..count {
        all.push(None)?;
    }
    Ok(all)
}
