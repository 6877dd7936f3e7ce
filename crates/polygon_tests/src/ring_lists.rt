// Rings and meshes for tests, by numbers that are written down; none where these are of no ring, or memory is refused.
ghost use Rattle.std.specs.Prelude.{◌≡◌, ◌<◌, ◌^◌, IfOk, IfSome, length, map};
ghost use Rattle.polygon_tests.specs.Rows.{Suit, point_with, tri_of};
ghost use Rattle.meshes.specs.Fits.{Fits};
ghost use Rattle.ring_check.specs.Oriented.{oriented};

use dual_tree::Board;
use exact_plane::{Memory, Pt, Steps};
use meshes::Tri;
use ring_check::Ring;
use std::alloc::Global;
use std::sync::ledger::Ledger;
use sweep_tri::sweep;
use tri_mesh::Mesh;

// The coordinates of a point.
pub(crate) type At = (i64, i64);

// The corners of a triangle.
pub(crate) type Corners = (u32, u32, u32);

// These points, within the limit of coordinates.
pub(crate) fn points_of(alloc: Global, list: &[At]) -> Option<Vec<Pt>>
    ensures { IfSome result (λ points. points.items ≡ map point_with list.now) }
{
    let mut points = Vec::new(alloc);
    for (x, y) in list {
        points.push(Pt::of(*x, *y)?).ok()?;
    }
    Some(points)
}

// The ring of this list.
pub(crate) fn ring_of<L: Ledger>(alloc: Global, list: &[At], steps: &mut Steps<L>) -> Option<Ring>
    ensures { IfSome result (λ ring. ring ≡ oriented (map point_with list.now)) }
{
    Ring::of(points_of(alloc, list)?, steps).ok()
}

// The mesh of triangles that suit a ring.
pub(crate) fn mesh_with(alloc: Global, ring: &Ring, tris: &[Corners]) -> Result<Mesh, Memory>
    requires few { length tris.now < 2 ^ 30 }
    requires suit { Suit ring.now.corners (map tri_of tris.now) }
    ensures { IfOk result (Fits ring.now.corners) }
{
    let _ring_is_simple = ring.len();
    Mesh::build(alloc, tris_of(alloc, tris)?)
}

fn tris_of(alloc: Global, tris: &[Corners]) -> Result<Vec<Tri>, Memory>
    ensures { IfOk result (λ list. list.items ≡ map tri_of tris.now) }
{
    let mut list = Vec::new(alloc);
    for (a, b, c) in tris {
        list.push(Tri {
            a: *a,
            b: *b,
            c: *c,
        })?;
    }
    Ok(list)
}

// A mesh that fits the ring, by a sweep from its least vertex on.
pub(crate) fn swept_mesh<L: Ledger>(
    alloc: Global,
    ring: &Ring,
    steps: &mut Steps<L>,
) -> Result<Mesh, Memory>
    ensures { IfOk result (Fits ring.now.corners) }
{
    let _ring_is_simple = ring.len();
    let order = ring.lexical(alloc, steps)?;
    let board = Board::without_ends(ring);
    let tris = sweep(alloc, &board, &order, steps)?;
    Mesh::build(alloc, tris)
}
