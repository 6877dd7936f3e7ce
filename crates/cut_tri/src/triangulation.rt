ghost use Rattle.std.specs.List.{range_with_len};
ghost use Rattle.std.specs.Prelude.{◌≡◌, ◌+◌, ◌*◌, ◌≤◌, IfOk, OnOk, length};
ghost use Rattle.meshes.specs.Fits.{Fits};
ghost use Rattle.cut_tri.specs.Cut.{IsCutTriangulation};
ghost use Rattle.cut_tri.specs.WorkList.{IsTakenOver, last_first};

use crate::cut::{Remains, cut};
use exact_plane::{Memory, Steps};
use meshes::Tri;
use ring_check::Ring;
use std::alloc::Global;
use std::sync::ledger::Ledger;
use tri_mesh::Mesh;

/// Returns the cut triangulation of a polygon: pieces are cut at their lexicographically least vertices, along one diagonal after
/// another, until each is a triangle. For n vertices it takes at most 130 n n steps, also where it runs out of memory. No command
/// calls it: `guards` cuts by `flip_tri::cut_triangles`, which flips the triangles of the sweep.
pub fn triangulate<L: Ledger>(
    alloc: Global,
    ring: &Ring,
    steps: &mut Steps<L>,
) -> Result<Mesh, Memory>
    ensures fits { IfOk result (Fits ring.now.corners) }
    ensures cut { IfOk result (IsCutTriangulation ring.now.corners) }
    ensures steps { let n = length ring.now.corners in steps.new ≤ steps.old + 130 * (n * n) }
{
    let mut tris = Vec::with_capacity(alloc, ring.len() as usize - 2)?;
    let mut work = Vec::new(alloc);
    work.push(whole_piece(alloc, ring)?)?;
    while let Some(piece) = work.pop() {
        let left = cut(alloc, ring, piece, steps)?;
        take_over(left, &mut tris, &mut work)?;
    }
    Mesh::build(alloc, tris)
}

// Takes over what a cut leaves: a triangle to those that are done, and pieces to those that are still to be cut, the first
// piece last.
fn take_over(left: Remains, tris: &mut Vec<Tri>, work: &mut Vec<Vec<u32>>) -> Result<(), Memory>
    ensures { OnOk result (IsTakenOver left tris.old.items (last_first work.old.items) tris.new.items (last_first work.new.items)) }
{
    match left {
        Remains::Triangle(tri) => tris.push(tri)?,
        Remains::Ear(tri, rest) => {
            tris.push(tri)?;
            work.push(rest)?;
        }
        Remains::Parts(first, second) => {
            work.push(second)?;
            work.push(first)?;
        }
    }
    Ok(())
}

// The piece of all vertices.
fn whole_piece(alloc: Global, ring: &Ring) -> Result<Vec<u32>, Memory>
    ensures { IfOk result (λ piece. piece.items ≡ range_with_len 0 (length ring.now.corners)) }
{
    let mut piece = Vec::with_capacity(alloc, ring.len() as usize)?;
    for i in 0..ring.len() {
        piece.push(i)?;
    }
    Ok(piece)
}
