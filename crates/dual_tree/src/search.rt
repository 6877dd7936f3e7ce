// A search in the hierarchy of a mesh, which stops where the steps that a pass over the triangles spares no longer pay for it. It is there
// for speed alone.
ghost use Rattle.std.specs.Prelude.{◌≡◌, ◌+◌, ◌<◌, ◌≤◌, ◌^◌, IfSome, IsNone, IsSome, length};
ghost use Rattle.plane.specs.Point.{whole};
ghost use Rattle.meshes.specs.Fits.{Fits, IsInTri};
ghost use Rattle.meshes.specs.Side.{tri_at};

use crate::location::holds;
use exact_plane::{Pt, Steps};
use ring_check::Ring;
use std::sync::ledger::Ledger;
use tri_mesh::Mesh;
use triangle_boxes::Cursor;

// So many steps pay for a node, the triangles of a leaf, and the least triangle beside one that holds the point.
const ENOUGH: u32 = 1 + 12 + 6;

// Goes on as long as the steps that are spared pay for a node. Returns a triangle that holds the point, if it comes to one: then 6 steps
// are spared still.
#[tactic(auto, using(crate::proofs::LocationFits::places))]
pub(crate) fn go_on<L: Ledger>(
    cursor: &mut Cursor,
    mesh: &Mesh,
    ring: &Ring,
    p: &Pt,
    steps: &mut Steps<L>,
) -> Option<u32>
    requires fits { Fits ring.now.corners mesh.now }
    ensures within { IfSome result (λ k. k < length mesh.now) }
    ensures holds { IfSome result (λ k. IsInTri ring.now.corners (tri_at mesh.now k) (whole p.now)) }
    ensures no_more { cursor.new.spared ≤ cursor.old.spared }
    ensures found { IsSome result → steps.new + 6 ≤ steps.old + cursor.old.spared }
    ensures paid { IsNone result → steps.new + cursor.new.spared ≤ steps.old + cursor.old.spared }
{
    let (hierarchy, corners) = (mesh.hierarchy(), ring.corners());
    'leaves: while let Some(leaf) = hierarchy.next_leaf(cursor, ENOUGH, corners, p, steps) {
        let found = held(cursor, mesh, ring, leaf, p, steps);
        if found.is_some() {
            return found;
        }
    }
    None
}

// Returns the first of the triangles of a leaf that holds the point. It takes at most 12 steps of those that are spared.
#[tactic(auto, using(crate::proofs::LocationFits::places))]
fn held<L: Ledger>(
    cursor: &mut Cursor,
    mesh: &Mesh,
    ring: &Ring,
    leaf: (u32, u32),
    p: &Pt,
    steps: &mut Steps<L>,
) -> Option<u32>
    requires fits { Fits ring.now.corners mesh.now }
    requires few { leaf.1 ≤ 4 }
    requires enough { 12 ≤ cursor.old.spared }
    ensures within { IfSome result (λ k. k < length mesh.now) }
    ensures holds { IfSome result (λ k. IsInTri ring.now.corners (tri_at mesh.now k) (whole p.now)) }
    ensures no_more { cursor.new.spared ≤ cursor.old.spared }
    ensures left { cursor.old.spared ≤ cursor.new.spared + 12 }
    ensures paid { steps.new + cursor.new.spared ≤ steps.old + cursor.old.spared }
{
    let (first, count) = leaf;
    let end = mesh.count().min(first.saturating_add(count));
    for k in first..end {
        let (is_held, spared) = holds(ring, &mesh.tri(k), p, steps);
        cursor.spared -= 3 - spared;
        if is_held {
            return Some(k);
        }
    }
    None
}
