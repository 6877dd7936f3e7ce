ghost use Rattle.std.specs.Prelude.{◌≡◌, ◌+◌, ◌<◌, ◌^◌, ℕ, IfOk, length};
ghost use Rattle.meshes.specs.Side.{tri_at, HasCorner};
ghost use Rattle.tri_mesh.specs.Corner.{KeepsFirsts, AreFirstsFrom};
ghost use Rattle.tri_mesh.specs.Neighbours.{HasCornersBelow};

use crate::mesh::Mesh;
use exact_plane::Memory;
use meshes::Tri;
use std::alloc::Global;

/// The first triangle with corner `i`, which some triangle has.
pub fn triangle_at(mesh: &Mesh, i: u32) -> u32
    requires { (k : ℕ) × (k < length mesh.now) × HasCorner (tri_at mesh.now k) i }
    ensures in_list { result < length mesh.now }
    ensures corner { HasCorner (tri_at mesh.now result) i }
    ensures first { (k : ℕ) → k < result → ¬ HasCorner (tri_at mesh.now k) i }
{
    mesh.first_at(i)
}

// For each corner the first triangle that has it, or the number behind the last one. The triangles are gone over from the last one,
// and each is put to its corners.
pub(crate) fn firsts_of(alloc: Global, tris: &[Tri]) -> Result<Vec<u32>, Memory>
    requires few { length tris.now < 2 ^ 30 }
    requires corners { (k : ℕ) → k < length tris.now → HasCornersBelow (length tris.now + 2) (tri_at tris.now k) }
    ensures { IfOk result (λ firsts. KeepsFirsts tris.now firsts.items) }
{
    let mut firsts = vec![in alloc; tris.len() as u32; tris.len() + 2]?;
    let mut k = tris.len();
    while k > 0 {
        k -= 1;
        put(&mut firsts, tris, k);
    }
    Ok(firsts)
}

// Puts triangle `k` to its corners, where those after it are.
#[tactic(auto, using(crate::proofs::Firsts::one_put))]
fn put(firsts: &mut [u32], tris: &[Tri], k: usize)
    requires few { length tris.now < 2 ^ 30 }
    requires within { k < length tris.now }
    requires corners { HasCornersBelow (length firsts.old) (tri_at tris.now k) }
    requires firsts { AreFirstsFrom tris.now (k + 1) firsts.old }
    ensures count { length firsts.new ≡ length firsts.old }
    ensures firsts { AreFirstsFrom tris.now k firsts.new }
{
    let tri = tris[k];
    firsts[tri.a as usize] = k as u32;
    firsts[tri.b as usize] = k as u32;
    firsts[tri.c as usize] = k as u32;
}
