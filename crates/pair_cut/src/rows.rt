// Rows of a table of pairs: what comes before each vertex on its path from one of them.
ghost use Rattle.std.specs.Prelude.{◌≡◌, ◌^◌, ◌*◌, ◌+◌, ◌<◌, ◌≤◌, IfOk, List, length, replicate};
ghost use Rattle.plane.specs.Point.{Point};
ghost use Rattle.rings.specs.Ring.{vertex};
ghost use Rattle.meshes.specs.Fits.{Fits};
ghost use Rattle.meshes.specs.Side.{tri_at, HasCorner};
ghost use Rattle.tri_mesh.specs.Outward.{IsOutward, at_place};
ghost use Rattle.shared_seq.specs.Digits.{binary_digits};
ghost use Rattle.path_tree.specs.Entered.{IsFromStart};
ghost use Rattle.pair_cut.specs.Doors.{IsApex, IsGrownTo};
ghost use Rattle.pair_cut.specs.Rows.{IsRow};
ghost use Rattle.pair_cut.specs.declared.table.TheConstants.{MAX_PAIRED};

use crate::climb::{Tangent, tangent_of};
use exact_plane::{Memory, Steps, Turns};
use path_tree::{Visit, door_of};
use std::alloc::Global;
use std::sync::ledger::Ledger;
use tri_mesh::{Mesh, triangle_at};

// The row of vertex `i`: outward from a triangle with that corner, the third corner of each is reached over its door.
pub(crate) fn row_from<T: Turns, L: Ledger>(
    alloc: Global,
    board: &T,
    mesh: &Mesh,
    i: u32,
    steps: &mut Steps<L>,
) -> Result<Vec<u32>, Memory>
    requires fits { Fits (T.corners board.now) mesh.now }
    requires few { length (T.corners board.now) ≤ MAX_PAIRED }
    requires vertex { i < length (T.corners board.now) }
    ensures row { IfOk result (λ row. IsRow (T.corners board.now) i row.items) }
    ensures steps { let n = length (T.corners board.now) in let b = binary_digits n in steps.new ≤ steps.old + 200 * n * (b * b) }
{
    let home = triangle_at(mesh, i);
    let order = mesh.outward(alloc, home)?;
    let mut row = Row::at_home(alloc, mesh.count() as usize, i)?;
    for p in 1..order.len() {
        let visit = Visit {
            mesh,
            order: &order,
            p,
        };
        row.go_on(board, visit, i, steps);
    }
    Ok(row.before)
}

// A row that grows outward from the home triangle: what comes before the vertices so far, and the tangent at each place.
#[derive(Drop)]
struct Row {
    before: Vec<u32>,
    tangents: Vec<Tangent>,
}

impl Row {
    // The row of vertex `i` at home: vertex i comes before the corners there.
    fn at_home(alloc: Global, count: usize, i: u32) -> Result<Row, Memory>
        requires { count + 2 < 2 ^ 32 }
        ensures before { IfOk result (λ row. row.before.items ≡ replicate (count + 2) i) }
        ensures tangents { IfOk result (λ row. length row.tangents.items ≡ count) }
    {
        let none = Tangent {
            near: i,
            right: i,
            left: i,
        };
        Ok(Row {
            before: vec![in alloc; i; count + 2]?,
            tangents: vec![in alloc; none; count]?,
        })
    }

    // Goes on to the triangle at place `p`: what comes before its third corner. It takes a step for each vertex at most.
    fn go_on<T: Turns, L: Ledger>(&mut self, board: &T, visit: Visit, i: u32, steps: &mut Steps<L>)
        requires start { IsFromStart (T.corners board.now) (vertex (T.corners board.now) i) visit.mesh.now visit.order.now }
        requires vertex { i < length (T.corners board.now) }
        requires home { HasCorner (tri_at visit.mesh.now (at_place visit.order.now 0)) i }
        requires later { 0 < visit.p }
        requires within { visit.p < length visit.order.now }
        requires grown { IsGrownTo (T.corners board.now) i visit.mesh.now visit.order.now visit.p self.old.before.items self.old.tangents.items }
        ensures grown { IsGrownTo (T.corners board.now) i visit.entry.mesh.now visit.entry.order.now (visit.entry.p + 1) self.new.before.items self.new.tangents.items }
        ensures steps { steps.new ≤ steps.old + length (T.corners board.now) }
    {
        let Visit { mesh, order, p } = visit;
        let door = door_of(mesh, order[p]);
        let apex = self.apex(visit, i);
        let tangent = tangent_of(board, &self.before, door, apex, steps);
        self.before[door.third as usize] = tangent.near;
        self.tangents[p] = tangent;
    }

    // The apex of the door of the triangle at place `p`.
    fn apex(&self, visit: Visit, i: u32) -> u32
        requires outward { IsOutward visit.mesh.now (at_place visit.order.now 0) visit.order.now }
        requires later { 0 < visit.p }
        requires within { visit.p < length visit.order.now }
        requires places { length self.now.tangents.items ≡ length visit.order.now }
        ensures { (corners : List Point) → IsFromStart corners (vertex corners i) visit.entry.mesh.now visit.entry.order.now → i < length corners
            → HasCorner (tri_at visit.entry.mesh.now (at_place visit.entry.order.now 0)) i
            → IsGrownTo corners i visit.entry.mesh.now visit.entry.order.now visit.entry.p self.now.before.items self.now.tangents.items
            → IsApex corners i visit.entry.mesh.now visit.entry.order.now visit.entry.p result }
    {
        let Visit { mesh, order, p } = visit;
        let toward = order[p].toward as usize;
        if toward == 0 {
            return i;
        }
        let tangent = self.tangents[toward];
        if door_of(mesh, order[p]).right == door_of(mesh, order[toward]).third {
            tangent.right
        } else {
            tangent.left
        }
    }
}
