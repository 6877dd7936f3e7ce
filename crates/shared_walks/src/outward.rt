// The order in which points are walked to.
ghost use Rattle.std.specs.Prelude.{◌≡◌, ◌<◌, ℕ, IfOk, length, map, slice_index};
ghost use Rattle.meshes.specs.Mesh.{IsMesh};
ghost use Rattle.shared_walks.specs.Several.{AreAllNumbers};

use exact_plane::Memory;
use std::alloc::Global;
use tri_mesh::Mesh;

// A point by the number of triangles that are farther outward than its own, then its number.
#[derive(Clone, Copy, PartialEq, Eq, PartialOrd, Ord)]
pub(crate) struct Key {
    farther: usize,
    pub number: usize,
}

// The keys of points in triangles: the one farthest outward first, the one farthest inward next, and then all from the farthest
// outward on. The walk to the second comes by all to which its start is outward, and one to another by those inward of that, so there
// is at most one walk more than there must be. Only the time rests on the order.
pub(crate) fn outermost_first(alloc: Global, mesh: &Mesh, tris: &[u32]) -> Result<Vec<Key>, Memory>
    requires { (k : ℕ) → k < length tris.now → slice_index tris.now k < length mesh.now }
    ensures { IfOk result (λ keys. AreAllNumbers (length tris.now) (map (λ key. key.number) keys.items)) }
{
    let mut keys = keys_of(alloc, mesh, tris)?;
    keys.sort_unstable();
    if keys.len() > 2 {
        keys.insert(1, keys[keys.len() - 1])?;
    }
    Ok(keys)
}

// The keys of points in triangles, with room for one more.
fn keys_of(alloc: Global, mesh: &Mesh, tris: &[u32]) -> Result<Vec<Key>, Memory>
    requires { (k : ℕ) → k < length tris.now → slice_index tris.now k < length mesh.now }
    ensures { IfOk result (λ keys. AreAllNumbers (length tris.now) (map (λ key. key.number) keys.items)) }
{
    let rooted = mesh.rooted();
    let mut keys = Vec::with_capacity(alloc, tris.len() + 1)?;
    for number in 0..tris.len() {
        let place = rooted.places[tris[number] as usize];
        let farther = rooted.order.len() - place as usize;
        keys.push_reserved(Key { farther, number });
    }
    Ok(keys)
}
