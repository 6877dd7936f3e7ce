ghost use Rattle.std.specs.List.{range_with_len};
ghost use Rattle.std.specs.Prelude.{◌≡◌, ◌+◌, ◌<◌, ◌^◌, ◌↔◌, ℕ, List, IfOk, IfSome, IsNone, length, vec_len};
ghost use Rattle.plane.specs.Point.{Point};
ghost use Rattle.meshes.specs.Fits.{Fits, IsPieceEdge, IsSideOfOne, IsSideOfTwo};
ghost use Rattle.meshes.specs.Mesh.{IsMesh, side_begin, side_end};
ghost use Rattle.meshes.specs.Side.{HasSidesOnce, IsTree, tri_at, HasCorner};
ghost use Rattle.triangle_boxes.specs.Hierarchy.{AreNamedBelow};
ghost use Rattle.tri_mesh.specs.Neighbours.{HasCornersBelow};
ghost use Rattle.tri_mesh.specs.Outward.{IsOutward, IsRooted};

use crate::corner::firsts_of;
use crate::outward::{Outward, Rooted};
use crate::search::Search;
use crate::sides::neighbours;
use exact_plane::Memory;
use meshes::Tri;
use std::alloc::Global;
use std::marker::Model;
use triangle_boxes::Hierarchy;

/// Triangles that fit some polygon, for each side the triangle on its other side, for each corner the first triangle that has it,
/// and an order outward from triangle 0. It may keep a hierarchy, by which a search can choose where to look first.
#[derive(Drop)]
pub struct Mesh {
    tris: Vec<Tri>,
    neighbours: Vec<[Option<u32>; 3]>,
    firsts: Vec<u32>,
    root: Search,
    hierarchy: Hierarchy,
}

impl Model for Mesh {
    ghost use Rattle.std.specs.Prelude.{◌+◌, List, vec_len};
    ghost use Rattle.meshes.specs.declared.tri.Tri.{Tri};
    ghost use Rattle.tri_mesh.specs.Corner.{KeepsFirsts};
    ghost use Rattle.triangle_boxes.specs.Hierarchy.{AreNamedBelow};
    ghost use Rattle.tri_mesh.specs.Neighbours.{KeepsNeighbours};
    ghost use Rattle.tri_mesh.specs.Outward.{IsRooted};

    ghost Value = { List Tri };

    ghost view = { λ mesh. mesh.tris.items };

    ghost invariant = { λ mesh. KeepsNeighbours mesh.tris.items mesh.neighbours.items
        × KeepsFirsts mesh.tris.items mesh.firsts.items
        × IsRooted mesh.tris.items 0 mesh.root.order.items mesh.root.places.items
        × AreNamedBelow (vec_len mesh.tris + 2) mesh.hierarchy };
}

impl Mesh {
    /// Returns the mesh of these triangles, without a hierarchy. After want of memory the list is dropped.
    pub fn build(alloc: Global, tris: Vec<Tri>) -> Result<Mesh, Memory>
        requires fits { IsMesh tris.items }
        requires few { vec_len tris < 2 ^ 30 }
        ensures { IfOk result (λ mesh. mesh ≡ tris.items) }
    {
        Mesh::with_hierarchy(alloc, tris, Hierarchy::empty(alloc))
    }

    /// Returns the mesh of these triangles, which keeps a hierarchy over them. If memory runs out, both are dropped.
    pub fn with_hierarchy(
        alloc: Global,
        tris: Vec<Tri>,
        hierarchy: Hierarchy,
    ) -> Result<Mesh, Memory>
        requires fits { IsMesh tris.items }
        requires few { vec_len tris < 2 ^ 30 }
        ensures { IfOk result (λ mesh. mesh ≡ tris.items) }
    {
        Mesh::of_tree(alloc, tris, hierarchy)
    }

    // The mesh of triangles that are a tree and have their sides once.
    fn of_tree(alloc: Global, tris: Vec<Tri>, hierarchy: Hierarchy) -> Result<Mesh, Memory>
        requires some { 0 < vec_len tris }
        requires tree { IsTree tris.items }
        requires sides { HasSidesOnce tris.items }
        requires few { vec_len tris < 2 ^ 30 }
        requires corners { (k : ℕ) → k < vec_len tris → HasCornersBelow (vec_len tris + 2) (tri_at tris.items k) }
        ensures { IfOk result (λ mesh. mesh ≡ tris.items) }
    {
        let neighbours = neighbours(alloc, &tris)?;
        let firsts = firsts_of(alloc, &tris)?;
        let root = Search::from(alloc, &tris, &neighbours, 0)?;
        let hierarchy = hierarchy.named_below(alloc, tris.len() + 2);
        Ok(Mesh {
            tris,
            neighbours,
            firsts,
            root,
            hierarchy,
        })
    }

    /// How many triangles there are.
    pub fn count(&self) -> u32
        ensures number { result ≡ length self.now }

        // What holds of every mesh.
        ensures few { length self.now < 2 ^ 30 }
        ensures tree { IsTree self.now }
        ensures sides { HasSidesOnce self.now }
    {
        self.tris.len() as u32
    }

    /// Triangle `i`.
    pub fn tri(&self, i: u32) -> Tri
        requires { i < length self.now }
        ensures { result ≡ tri_at self.now i }
    {
        self.tris[i as usize]
    }

    /// The triangle on the other side of side 0, 1 or 2 of triangle `i`.
    pub fn across(&self, i: u32, side: u32) -> Option<u32>
        requires in_list { i < length self.now }
        requires side { side < 3 }
        ensures none { let t = tri_at self.now i in
            IsNone result ↔ IsSideOfOne self.now (side_begin t side) (side_end t side) i }
        ensures some { let t = tri_at self.now i in
            IfSome result (λ k. IsSideOfTwo self.now (side_begin t side) (side_end t side) i k) }

        // In a ring that the triangles fit, it is none exactly at the ring's edges.
        ensures edges { let t = tri_at self.now i in (corners : List Point) → Fits corners self.now →
            IsNone result ↔ IsPieceEdge (range_with_len 0 (length corners)) (side_begin t side) (side_end t side) }
    {
        self.neighbours[i as usize][side as usize]
    }

    // The first triangle with corner `i`, which some triangle has.
    pub(crate) fn first_at(&self, i: u32) -> u32
        requires { (k : ℕ) × (k < length self.now) × HasCorner (tri_at self.now k) i }
        ensures in_list { result < length self.now }
        ensures corner { HasCorner (tri_at self.now result) i }
        ensures first { (k : ℕ) → k < result → ¬ HasCorner (tri_at self.now k) i }
    {
        self.firsts[i as usize]
    }

    /// Returns the hierarchy that it was made with, or an empty one if one of its boxes is named by an index that no vertex has.
    pub fn hierarchy(&self) -> &Hierarchy
        ensures { AreNamedBelow (length self.now + 2) result.now }
    {
        &self.hierarchy
    }

    /// The triangles outward from `home`: each shares a side with one before it. All sides are looked at once.
    pub fn outward(&self, alloc: Global, home: u32) -> Result<Vec<Outward>, Memory>
        requires { home < length self.now }
        ensures { IfOk result (λ order. IsOutward self.now home order.items) }
    {
        let search = Search::from(alloc, &self.tris, &self.neighbours, home)?;
        Ok(search.order)
    }

    /// The triangles outward from triangle 0, as the mesh keeps them, and the place of each.
    pub fn rooted(&self) -> Rooted<'_>
        ensures { IsRooted self.now 0 result.order.now result.places.now }
    {
        Rooted {
            order: &self.root.order,
            places: &self.root.places,
        }
    }
}
