ghost use Rattle.std.specs.Prelude.{◌≡◌, ◌<◌, ℕ, List, IfOk, length};
ghost use Rattle.meshes.specs.Side.{IsWalkBetween};
ghost use Rattle.meshes.specs.Sleeve.{IsOneOf};
ghost use Rattle.dual_tree.specs.Sight.{SeesThrough};

use crate::walk::walk_between;
use exact_plane::Memory;
use std::alloc::Global;
use tri_mesh::{Mesh, Sleeve};

/// The one sleeve from one triangle to another. Where they are the same it has no diagonal.
pub fn sleeve(alloc: Global, mesh: &Mesh, from: u32, to: u32) -> Result<Sleeve, Memory>
    requires from { from < length mesh.now }
    requires to { to < length mesh.now }
    ensures of_mesh { IfOk result (IsOneOf mesh.now) }
    ensures between { IfOk result (λ sleeve. IsWalkBetween mesh.now from to sleeve.walk) }
    ensures same { IfOk result (λ sleeve. from ≡ to → length sleeve.diagonals ≡ 0) }
    ensures only { IfOk result (λ sleeve. (walk : List ℕ) → IsWalkBetween mesh.now from to walk → walk ≡ sleeve.walk) }
    ensures sight { IfOk result (SeesThrough mesh.now from to) }
{
    // The prover learns from this call how many triangles there can be.
    let _count = mesh.count();
    let walk = walk_between(alloc, mesh, from, to)?;
    Sleeve::along(alloc, mesh, walk)
}
