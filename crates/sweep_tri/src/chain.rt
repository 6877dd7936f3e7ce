// Chains of vertices, and the edge at the end of one.
ghost use Rattle.std.specs.Prelude.{◌≡◌, ◌-◌, ◌≤◌, IfOk, [], ◌∷◌, ◌++◌, length, take};
ghost use Rattle.sweep_tri.specs.Gaps.{before_last, last};

use exact_plane::Memory;
use std::alloc::Global;

// The last vertex of a chain.
fn last(path: &[u32]) -> u32
    requires { 1 ≤ length path.now }
    ensures { result ≡ last path.now }
{
    path[path.len() - 1]
}

// The one before it.
pub(crate) fn before_last(path: &[u32]) -> u32
    requires { 2 ≤ length path.now }
    ensures { result ≡ before_last path.now }
{
    path[path.len() - 2]
}

// The last edge of a chain.
pub(crate) fn front_of(path: &[u32]) -> (u32, u32)
    requires { 2 ≤ length path.now }
    ensures from { result.0 ≡ before_last path.now }
    ensures to { result.1 ≡ last path.now }
{
    (before_last(path), last(path))
}

// A chain of two vertices, with room for two more.
pub(crate) fn two(alloc: Global, a: u32, b: u32) -> Result<Vec<u32>, Memory>
    ensures { IfOk result (λ path. path.items ≡ a ∷ b ∷ []) }
{
    let mut path = Vec::with_capacity(alloc, 4)?;
    path.push(a)?;
    path.push(b)?;
    Ok(path)
}

// A chain of three.
pub(crate) fn three(alloc: Global, a: u32, b: u32, c: u32) -> Result<Vec<u32>, Memory>
    ensures { IfOk result (λ path. path.items ≡ a ∷ b ∷ c ∷ []) }
{
    let mut path = two(alloc, a, b)?;
    path.push(c)?;
    Ok(path)
}

// The chain with the vertex v in place of its last, and on to a.
pub(crate) fn turned_to(mut path: Vec<u32>, v: u32, a: u32) -> Result<Vec<u32>, Memory>
    requires { 1 ≤ length path.items }
    ensures { IfOk result (λ turned. turned.items ≡ take (length path.items - 1) path.items ++ v ∷ a ∷ []) }
{
    path.truncate(path.len() - 1);
    path.push(v)?;
    path.push(a)?;
    Ok(path)
}
