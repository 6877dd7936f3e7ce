// Where walks from a home come by some triangles, and where they part. But that its end is told, whether this is told right is a matter
// of time alone.
ghost use Rattle.std.specs.List.{All};
ghost use Rattle.std.specs.Prelude.{◌≡◌, ◌+◌, ◌<◌, ℕ, IfOk, IsTrue, false, length, slice_index, slice_index_or};
ghost use Rattle.meshes.specs.Fits.{Fits};
ghost use Rattle.tri_mesh.specs.Outward.{outward_at};

use crate::outward::Key;
use exact_plane::Memory;
use meshes::Tri;
use ring_check::Ring;
use std::alloc::Global;
use tri_mesh::{Mesh, Outward, Sleeve};

// How many triangles are too few, and how many vertices, for marks to pay.
const FEW: usize = 2;

const SMALL: u32 = 64;

// For each vertex, whether it is a corner of one of the triangles, and whether it is one of a triangle where the ways to two of them part.
// There are no marks where there are few triangles or vertices.
#[derive(Drop)]
pub(crate) struct Marks {
    stops: Vec<bool>,
    forks: Vec<bool>,
}

impl Marks {
    // The marks of walks from a home to some triangles, told in an order where one comes after those that it is on the way to. From each
    // the way to the root of the mesh is gone until it meets another: they part there.
    pub(crate) fn of(
        alloc: Global,
        ring: &Ring,
        mesh: &Mesh,
        home: u32,
        tris: &[u32],
        keys: &[Key],
    ) -> Result<Marks, Memory>
        requires fits { Fits ring.now.corners mesh.now }
        requires home { home < length mesh.now }
        requires in_mesh { (k : ℕ) → k < length tris.now → slice_index tris.now k < length mesh.now }
        requires numbers { All (λ key. key.number < length tris.now) keys.now }
    {
        let n = if tris.len() > FEW && ring.len() > SMALL {
            ring.len()
        } else {
            0
        };
        let rooted = mesh.rooted();
        let mut marks = Marks {
            stops: vec![in alloc; false; n as usize]?,
            forks: vec![in alloc; false; n as usize]?,
        };
        if n == 0 {
            return Ok(marks);
        }
        let mut passed = vec![in alloc; false; rooted.order.len()]?;
        passed[0] = true;
        pass(&mut passed, rooted.order, rooted.places[home as usize]);
        for key in keys {
            let tri = tris[key.number];
            let place = rooted.places[tri as usize];
            let fork = pass(&mut passed, rooted.order, place);
            mark(&mut marks.stops, mesh.tri(tri));
            if fork != place {
                mark(&mut marks.forks, mesh.tri(rooted.order[fork as usize].tri));
            }
        }
        Ok(marks)
    }

    // Whether there are any.
    pub(crate) fn are_some(&self) -> bool {
        self.stops.len() > 0
    }

    // Whether a walk is to stop at diagonal `i` of its sleeve: at the last one, and where it comes by one of the triangles or by one where
    // ways part.
    pub(crate) fn is_stop(&self, sleeve: &Sleeve, i: usize) -> bool
        requires within { i < length sleeve.now.diagonals }
        ensures last { i + 1 ≡ length sleeve.now.diagonals → IsTrue result }
    {
        i == sleeve.len() - 1 || are_marked(&self.stops, sleeve, i) || self.is_fork(sleeve, i)
    }

    // Whether it comes by a triangle where ways part.
    pub(crate) fn is_fork(&self, sleeve: &Sleeve, i: usize) -> bool
        requires within { i < length sleeve.now.diagonals }
    {
        are_marked(&self.forks, sleeve, i)
    }
}

// Passes the places on the way from one toward the root, up to the first that was passed before, and gives that.
fn pass(passed: &mut [bool], order: &[Outward], from: u32) -> u32
    requires toward { (p : ℕ) → 0 < p → p < length order.now → (outward_at order.now p).toward < p }
    requires size { length passed.old ≡ length order.now }
    requires from { from < length order.now }
    requires root { IsTrue (slice_index_or passed.old 0 false) }
    ensures size { length passed.new ≡ length passed.old }
    ensures within { result < length order.now }
    ensures root { IsTrue (slice_index_or passed.new 0 false) }
{
    let mut place = from;
    while !passed[place as usize] {
        passed[place as usize] = true;
        place = order[place as usize].toward;
    }
    place
}

// Marks the corners of a triangle.
fn mark(corners: &mut [bool], tri: Tri)
    ensures { length corners.new ≡ length corners.old }
{
    for corner in [tri.a, tri.b, tri.c] {
        if (corner as usize) < corners.len() {
            corners[corner as usize] = true;
        }
    }
}

// Whether both ends of diagonal `i` are marked.
fn are_marked(corners: &[bool], sleeve: &Sleeve, i: usize) -> bool
    requires within { i < length sleeve.now.diagonals }
{
    is_marked(corners, sleeve.left(i)) && is_marked(corners, sleeve.right(i))
}

// Whether a vertex is marked.
fn is_marked(corners: &[bool], vertex: u32) -> bool {
    let i = vertex as usize;
    i < corners.len() && corners[i]
}
