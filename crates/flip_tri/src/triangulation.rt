ghost use Rattle.std.specs.Prelude.{◌+◌, ◌*◌, ◌≤◌, IfOk, length};
ghost use Rattle.meshes.specs.Fits.{Fits};
ghost use Rattle.cut_tri.specs.Cut.{IsCutTriangulation};

use crate::flips::Flips;
use crate::waiting::Waiting;
use exact_plane::{Memory, Steps};
use meshes::Tri;
use ring_check::Ring;
use std::alloc::Global;
use std::sync::ledger::Ledger;
use tri_mesh::Mesh;

/// Returns the cut triangulation of a polygon, from any mesh that fits it: diagonals are flipped as long as one is to be (Lawson 1977).
/// For n vertices it takes at most 24 n n steps.
pub fn cut_triangles<L: Ledger>(
    alloc: Global,
    ring: &Ring,
    mesh: &Mesh,
    steps: &mut Steps<L>,
) -> Result<Vec<Tri>, Memory>
    requires { Fits ring.now.corners mesh.now }
    ensures fits { IfOk result (λ tris. Fits ring.now.corners tris.items) }
    ensures cut { IfOk result (λ tris. IsCutTriangulation ring.now.corners tris.items) }
    ensures steps { let n = length ring.now.corners in steps.new ≤ steps.old + 24 * (n * n) }
{
    // What holds of every ring.
    let _is_simple = ring.len();
    let mut flips = Flips::of(alloc, mesh)?;
    let mut waiting = Waiting::all(alloc, mesh.count())?;
    while let Some(near) = waiting.pop() {
        if let Some(far) = flips.flip_at(ring, near, steps) {
            waiting.push(far)?;
            waiting.push(near)?;
        }
    }
    Ok(flips.tris)
}
