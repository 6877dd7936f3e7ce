// Triangles of a polygon, and flips of their diagonals.
ghost use Rattle.std.specs.Prelude.{◌≡◌, ◌+◌, ◌<◌, ◌≤◌, ℕ, IfNone, IfOk, IfSome, None, Some, length, slice_index_or};
ghost use Rattle.meshes.specs.Mesh.{side_begin, side_end};
ghost use Rattle.meshes.specs.Side.{HasSide, HasSidesOnce, tri_at};
ghost use Rattle.tri_mesh.specs.Triangle.{IsSideNumber};
ghost use Rattle.flip_tri.specs.Flips.{AreFlips, IsFlipped, HasNoFlipAt, KnowsNeighbours};
ghost use Rattle.flip_tri.specs.Shared.{AreTriangleRows, IsKnown, IsRowOf, IsShared, flipped, next_side, quad_of};

use crate::quad::Quad;
use exact_plane::{Memory, Steps};
use meshes::Tri;
use ring_check::Ring;
use std::alloc::Global;
use std::sync::ledger::Ledger;
use tri_mesh::{Mesh, corner_opposite, side_ends, side_number};

// Triangles that fit a polygon, and for each of their sides the triangle on its other side. Side 0 goes from corner a to b, side 1
// from b to c, side 2 from c to a.
#[derive(Drop)]
pub(crate) struct Flips {
    pub tris: Vec<Tri>,
    pub neighbours: Vec<[Option<u32>; 3]>,
}

// A side of a triangle by its number, and the triangle on its other side, with the number that it has there.
#[derive(Clone, Copy)]
struct Shared {
    near: u32,
    near_side: u32,
    far: u32,
    far_side: u32,
}

impl Flips {
    // The triangles of a mesh.
    pub(crate) fn of(alloc: Global, mesh: &Mesh) -> Result<Flips, Memory>
        ensures tris { IfOk result (λ flips. flips.tris.items ≡ mesh.now) }
        ensures knows { IfOk result (λ flips. KnowsNeighbours mesh.now flips.neighbours.items) }
    {
        let count = mesh.count();
        let mut tris = Vec::with_capacity(alloc, count as usize)?;
        let mut neighbours = Vec::with_capacity(alloc, count as usize)?;
        for k in 0..count {
            tris.push_reserved(mesh.tri(k));
            neighbours.push_reserved(row_of(mesh, k));
        }
        Ok(Flips { tris, neighbours })
    }

    // Flips the first side of a triangle that is to be flipped, and answers the triangle on its other side; none where none is. It
    // takes at most 12 steps.
    pub(crate) fn flip_at<L: Ledger>(
        &mut self,
        ring: &Ring,
        near: u32,
        steps: &mut Steps<L>,
    ) -> Option<u32>
        requires flips { AreFlips ring.now.corners self.old.tris.items self.old.neighbours.items }
        requires near { near < length self.old.tris.items }
        ensures flips { AreFlips ring.now.corners self.new.tris.items self.new.neighbours.items }
        ensures none { IfNone result ((self.new.tris.items ≡ self.old.tris.items) × HasNoFlipAt ring.now.corners self.new.tris.items near) }
        ensures some { IfSome result (IsFlipped ring.now.corners self.old.tris.items self.new.tris.items near) }
        ensures steps { steps.new ≤ steps.old + 12 }
    {
        // What holds of every ring is told with its length: it is simple.
        let _length = ring.len();
        for side in 0..3 {
            if let Some(shared) = self.shared(near, side) {
                let quad = self.quad(&shared);
                if quad.is_to_flip(ring, steps) {
                    self.flip(&shared, &quad);
                    return Some(shared.far);
                }
            }
        }
        None
    }

    // A side of a triangle with the triangle on its other side, if there is one.
    fn shared(&self, near: u32, near_side: u32) -> Option<Shared>
        requires once { HasSidesOnce self.now.tris.items }
        requires knows { KnowsNeighbours self.now.tris.items self.now.neighbours.items }
        requires near { near < length self.now.tris.items }
        requires side { near_side < 3 }
        ensures none { let t = tri_at self.now.tris.items near in IfNone result ((l : ℕ) → l < length self.now.tris.items
            → ¬ HasSide (tri_at self.now.tris.items l) (side_end t near_side) (side_begin t near_side)) }
        ensures some { IfSome result (IsShared self.now.tris.items) }
        ensures near { IfSome result (λ shared. (shared.near ≡ near) × (shared.near_side ≡ near_side)) }
    {
        let far = self.neighbours[near as usize][near_side as usize]?;
        let (from, to) = side_ends(&self.tris[near as usize], near_side);
        let far_side = side_number(&self.tris[far as usize], to, from)?;
        Some(Shared {
            near,
            near_side,
            far,
            far_side,
        })
    }

    // The quadrilateral of the two triangles.
    fn quad(&self, shared: &Shared) -> Quad
        requires { IsShared self.now.tris.items shared.now }
        ensures { result ≡ quad_of self.now.tris.items shared.now }
    {
        let near = &self.tris[shared.near as usize];
        let far = &self.tris[shared.far as usize];
        let (from, to) = side_ends(near, shared.near_side);
        Quad {
            from,
            to,
            left: corner_opposite(near, shared.near_side),
            right: corner_opposite(far, shared.far_side),
        }
    }

    // Flips the common side.
    fn flip(&mut self, shared: &Shared, quad: &Quad)
        requires knows { KnowsNeighbours self.old.tris.items self.old.neighbours.items }
        requires shared { IsShared self.old.tris.items shared.now }
        requires quad { quad.now ≡ quad_of self.old.tris.items shared.now }
        requires before { HasSidesOnce self.old.tris.items }
        requires once { HasSidesOnce (flipped self.old.tris.items shared.now.near shared.now.far quad.now) }
        ensures tris { self.new.tris.items ≡ flipped self.old.tris.items shared.now.near shared.now.far quad.now }
        ensures knows { KnowsNeighbours self.new.tris.items self.new.neighbours.items }
    {
        let Shared { near, far, .. } = *shared;
        let (_, to_left, left_from) = turned(&self.neighbours[near as usize], shared.near_side);
        let (_, from_right, right_to) = turned(&self.neighbours[far as usize], shared.far_side);
        let (first, second) = quad.flipped();
        self.tris[near as usize] = first;
        self.tris[far as usize] = second;
        self.neighbours[near as usize] = [from_right, Some(far), left_from];
        self.neighbours[far as usize] = [right_to, to_left, Some(near)];
        self.hand_over(from_right, quad.right, quad.from, near);
        self.hand_over(to_left, quad.left, quad.to, far);
    }

    // The triangle beside a side, if there is one, has another one on the other side of it from now on.
    fn hand_over(&mut self, beside: Option<u32>, from: u32, to: u32, other: u32)
        requires once { HasSidesOnce self.old.tris.items }
        requires rows { AreTriangleRows self.old.tris.items self.old.neighbours.items }
        requires beside { IfSome beside (λ tri. tri < length self.old.tris.items) }
        requires other { other < length self.old.tris.items }
        requires has { HasSide (tri_at self.old.tris.items other) to from }
        ensures tris { self.new.tris.items ≡ self.old.tris.items }
        ensures rows { AreTriangleRows self.new.tris.items self.new.neighbours.items }
        ensures kept { (k side : ℕ) → IsKnown self.old.tris.items self.old.neighbours.items k side
            → IsKnown self.new.tris.items self.new.neighbours.items k side }
        ensures known { (k side : ℕ) → beside ≡ Some k → IsSideNumber (tri_at self.old.tris.items k) from to side
            → IsKnown self.new.tris.items self.new.neighbours.items k side }
    {
        if let Some(tri) = beside
            && let Some(side) = side_number(&self.tris[tri as usize], from, to)
        {
            self.neighbours[tri as usize][side as usize] = Some(other);
        }
    }
}

// The triangles on the other sides of a triangle.
fn row_of(mesh: &Mesh, k: u32) -> [Option<u32>; 3]
    requires { k < length mesh.now }
    ensures { IsRowOf mesh.now k result }
{
    // What holds of every mesh is told with its count: no triangle has a side in both directions.
    let _count = mesh.count();
    [mesh.across(k, 0), mesh.across(k, 1), mesh.across(k, 2)]
}

// A row from one of its places on.
fn turned(row: &[Option<u32>; 3], place: u32) -> (Option<u32>, Option<u32>, Option<u32>)
    requires { place < 3 }
    ensures first { result.0 ≡ slice_index_or row.now place None }
    ensures second { result.1 ≡ slice_index_or row.now (next_side place) None }
    ensures third { result.2 ≡ slice_index_or row.now (next_side (next_side place)) None }
{
    match place {
        0 => (row[0], row[1], row[2]),
        1 => (row[1], row[2], row[0]),
        _ => (row[2], row[0], row[1]),
    }
}
