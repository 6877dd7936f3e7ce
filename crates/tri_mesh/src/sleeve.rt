ghost use Rattle.std.specs.Prelude.{◌≡◌, ◌+◌, ◌-◌, ◌<◌, ◌↔◌, IfOk, IsTrue, Some, length, slice_index_or};
ghost use Rattle.meshes.specs.Side.{IsWalk, ShareSide, tri_at};
ghost use Rattle.meshes.specs.Sleeve.{IsOneOf, IsDiagonalBetween, diagonal_at};

use crate::mesh::Mesh;
use exact_plane::Memory;
use meshes::Diagonal;
use std::alloc::Global;
use std::marker::Model;

/// Triangles that follow each other over shared sides, and these sides: the diagonals, each with a left and a right
/// corner as met on the way from the first triangle to the last.
#[derive(Drop)]
pub struct Sleeve {
    walk: Vec<u32>,
    diagonals: Vec<Diagonal>,
}

impl Model for Sleeve {
    ghost use Rattle.std.specs.Prelude.{◌≡◌, ◌+◌, length};
    ghost use Rattle.meshes.specs.Sleeve.{Sleeve};

    ghost Value = { Sleeve };

    ghost view = { λ sleeve. record { walk = sleeve.walk.items; diagonals = sleeve.diagonals.items } };

    ghost invariant = { λ sleeve. length sleeve.diagonals.items + 1 ≡ length sleeve.walk.items };
}

impl Sleeve {
    /// The sleeve of this walk.
    pub fn of(alloc: Global, mesh: &Mesh, walk: &[u32]) -> Result<Sleeve, Memory>
        requires { IsWalk mesh.now walk.now }
        ensures walk { IfOk result (λ sleeve. sleeve.walk ≡ walk.now) }
        ensures of_mesh { IfOk result (IsOneOf mesh.now) }
    {
        Sleeve::along(alloc, mesh, walk.to_vec(alloc)?)
    }

    /// The same without a copy of the walk, which is dropped where memory is refused.
    pub fn along(alloc: Global, mesh: &Mesh, walk: Vec<u32>) -> Result<Sleeve, Memory>
        requires { IsWalk mesh.now walk.items }
        ensures walk { IfOk result (λ sleeve. sleeve.walk ≡ walk.items) }
        ensures of_mesh { IfOk result (IsOneOf mesh.now) }
    {
        let mut diagonals = Vec::with_capacity(alloc, walk.len() - 1)?;
        for i in 1..walk.len() {
            diagonals.push(between(mesh, walk[i - 1], walk[i]))?;
        }
        Ok(Sleeve { walk, diagonals })
    }

    /// How many diagonals there are.
    pub fn len(&self) -> usize
        ensures number { result ≡ length self.now.diagonals }

        // What holds of every sleeve.
        ensures triangles { result + 1 ≡ length self.now.walk }
    {
        self.diagonals.len()
    }

    /// The left corner of diagonal `i`.
    pub fn left(&self, i: usize) -> u32
        requires { i < length self.now.diagonals }
        ensures { result ≡ (diagonal_at self.now i).left }
    {
        self.diagonals[i].left
    }

    /// The right corner of diagonal `i`.
    pub fn right(&self, i: usize) -> u32
        requires { i < length self.now.diagonals }
        ensures { result ≡ (diagonal_at self.now i).right }
    {
        self.diagonals[i].right
    }

    /// The first triangle.
    pub fn first(&self) -> u32
        ensures { result ≡ slice_index_or self.now.walk 0 0 }
    {
        self.walk[0]
    }

    /// The last triangle.
    pub fn last(&self) -> u32
        ensures { result ≡ slice_index_or self.now.walk (length self.now.walk - 1) 0 }
    {
        self.walk[self.walk.len() - 1]
    }
}

// The diagonal on the way from one triangle to another that shares a side with it.
fn between(mesh: &Mesh, from: u32, to: u32) -> Diagonal
    requires from { from < length mesh.now }
    requires to { to < length mesh.now }
    requires different { ¬ (from ≡ to) }
    requires share { ShareSide (tri_at mesh.now from) (tri_at mesh.now to) }
    ensures { IsDiagonalBetween (tri_at mesh.now from) (tri_at mesh.now to) result }
{
    // What holds of every mesh is told with its count: which triangles share a side.
    let _count = mesh.count();
    let tri = mesh.tri(from);
    if is_some_of(mesh.across(from, 0), to) {
        Diagonal {
            left: tri.b,
            right: tri.a,
        }
    } else if is_some_of(mesh.across(from, 1), to) {
        Diagonal {
            left: tri.c,
            right: tri.b,
        }
    } else {
        Diagonal {
            left: tri.a,
            right: tri.c,
        }
    }
}

// Whether the answer is this triangle.
fn is_some_of(answer: Option<u32>, k: u32) -> bool
    ensures { IsTrue result ↔ (answer ≡ Some k) }
{
    answer == Some(k)
}
