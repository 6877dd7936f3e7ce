ghost use Rattle.std.specs.Prelude.{◌≡◌, ◌≤◌, ◌/◌, IfOk, length};
ghost use Rattle.meshes.specs.Fits.{Fits};
ghost use Rattle.ring_check.specs.Oriented.{given_of};
ghost use Rattle.guards3.specs.Guards.{AreGuards, SeeAll};

use crate::members::members;
use crate::parting::classes_of;
use crate::tally::Tally;
use exact_plane::Memory;
use meshes::Tri;
use ring_check::Ring;
use std::alloc::Global;
use tri_mesh::Mesh;

/// The guards of a polygon with a mesh that fits it, by their numbers in the list that the ring was made of, rising. The
/// vertices are parted into three classes, of which each triangle has one corner each; the guards are the class with the
/// fewest vertices, of equal ones that with the least number. No command calls it: the command `guards` calls `guards_of` with
/// the triangles of `flip_tri::cut_triangles`.
pub fn guards(alloc: Global, ring: &Ring, mesh: &Mesh) -> Result<Vec<u32>, Memory>
    requires { Fits ring.now.corners mesh.now }
    ensures guards { IfOk result (λ found. AreGuards ring.now mesh.now found.items) }
    ensures few { IfOk result (λ found. length found.items ≤ length ring.now.corners / 3) }
    ensures seen { IfOk result (λ found. SeeAll (given_of ring.now) found.items) }
{
    let tris = triangles_of(alloc, mesh)?;
    guards_of(alloc, ring, &tris)
}

/// The guards that a list of triangles determines, which fits the polygon.
pub fn guards_of(alloc: Global, ring: &Ring, tris: &[Tri]) -> Result<Vec<u32>, Memory>
    requires { Fits ring.now.corners tris.now }
    ensures guards { IfOk result (λ found. AreGuards ring.now tris.now found.items) }
    ensures few { IfOk result (λ found. length found.items ≤ length ring.now.corners / 3) }
    ensures seen { IfOk result (λ found. SeeAll (given_of ring.now) found.items) }
{
    let classes = classes_of(alloc, ring, tris)?;
    let fewest = Tally::fewest(ring, &classes);
    members(alloc, ring, &classes, fewest.class, fewest.count)
}

// The triangles of a mesh.
fn triangles_of(alloc: Global, mesh: &Mesh) -> Result<Vec<Tri>, Memory>
    ensures { IfOk result (λ tris. tris.items ≡ mesh.now) }
{
    let mut tris = Vec::with_capacity(alloc, mesh.count() as usize)?;
    for k in 0..mesh.count() {
        tris.push_reserved(mesh.tri(k));
    }
    Ok(tris)
}
