// The step from the funnel of a triangle to that of the next one.
ghost use Rattle.std.specs.Prelude.{◌+◌, ◌*◌, ◌<◌, ◌≤◌, IfOk, length};
ghost use Rattle.shared_seq.specs.Digits.{binary_digits};
ghost use Rattle.path_tree.specs.Entered.{IsFromStart, IsFunnelTo, toward};
ghost use Rattle.path_tree.specs.Growing.{IsThirdFrom};

use crate::door::{Visit, door_of};
use crate::funnel::Funnel;
use exact_plane::{Memory, Spot, Steps, Turns};
use std::alloc::Global;
use std::sync::ledger::Ledger;

// The place of the funnel at the triangle at place `p` from which its third corner is reached.
pub(crate) fn place_of_third<T: Turns, L: Ledger>(
    board: &T,
    visit: Visit,
    funnel: &Funnel,
    steps: &mut Steps<L>,
) -> usize
    requires start { IsFromStart (T.corners board.now) (T.start board.now) visit.mesh.now visit.order.now }
    requires later { 0 < visit.p }
    requires within { visit.p < length visit.order.now }
    requires funnel { IsFunnelTo (T.corners board.now) (T.start board.now) visit.mesh.now visit.order.now visit.p funnel.now }
    ensures reached { IsThirdFrom (T.corners board.now) (T.start board.now) visit.entry.mesh.now visit.entry.order.now visit.entry.p funnel.now result }
    ensures steps { let b = binary_digits (length (T.corners board.now)) in steps.new ≤ steps.old + b * (4 * b + 3) }
{
    let Visit { mesh, order, p } = visit;
    let third = door_of(mesh, order[p]).third;
    funnel.place(board, mesh.count() + 2, Spot::Corner(third), steps)
}

// The funnel at the triangle at place `p`, from that at the triangle from which it is reached, and the place of that one from which
// the third corner there is reached.
pub(crate) fn funnel_from<T: Turns, L: Ledger>(
    alloc: Global,
    board: &T,
    visit: Visit,
    funnel: &Funnel,
    place: usize,
    steps: &mut Steps<L>,
) -> Result<Funnel, Memory>
    requires start { IsFromStart (T.corners board.now) (T.start board.now) visit.mesh.now visit.order.now }
    requires later { 0 < visit.p }
    requires within { visit.p < length visit.order.now }
    requires inner { 0 < toward visit.order.now visit.p }
    requires funnel { IsFunnelTo (T.corners board.now) (T.start board.now) visit.mesh.now visit.order.now (toward visit.order.now visit.p) funnel.now }
    requires place { IsThirdFrom (T.corners board.now) (T.start board.now) visit.mesh.now visit.order.now (toward visit.order.now visit.p) funnel.now place }
    ensures funnel { IfOk result (IsFunnelTo (T.corners board.now) (T.start board.now) visit.entry.mesh.now visit.entry.order.now visit.entry.p) }
    ensures steps { let b = binary_digits (length (T.corners board.now)) in steps.new ≤ steps.old + 160 * (b + 1) }
{
    let Visit { mesh, order, p } = visit;
    // The prover learns from this call how many triangles there can be.
    let _count = mesh.count();
    let toward = order[p].toward as usize;
    let third = door_of(mesh, order[toward]).third;
    if door_of(mesh, order[p]).right == third {
        funnel.to_right(alloc, place, third, steps)
    } else {
        funnel.to_left(alloc, place, third, steps)
    }
}
