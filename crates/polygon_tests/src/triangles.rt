// Meshes of triangles that are written down, with what is across their sides.
ghost use Rattle.std.specs.Prelude.{◌<◌, ◌^◌, length};
ghost use Rattle.polygon_tests.specs.Rows.{SuitRow};

use crate::ring_lists::{At, Corners, mesh_with, ring_of};
use exact_plane::{Memory, Steps};
use std::alloc::Global;
use std::process::Abort;
use std::sync::ledger::Ledger;
use tri_mesh::{Mesh, Outward};

// The L is cut by the diagonals from vertex 3.
pub(crate) fn meshes_know_their_neighbours<L: Ledger, R: Abort>(
    rt: &R,
    alloc: Global,
    steps: &mut Steps<L>,
) -> Result<(), Memory> {
    let mesh = mesh_of(rt, alloc, &[(0, 0), (1, 0), (0, 1)], &[(0, 1, 2)], steps)?;
    has_rows(rt, &mesh, &[((0, 1, 2), [None, None, None])]);
    let l_shape = [(0, 0), (4, 0), (4, 2), (2, 2), (2, 4), (0, 4)];
    let tris = [(1, 2, 3), (0, 1, 3), (0, 3, 5), (3, 4, 5)];
    let mesh = mesh_of(rt, alloc, &l_shape, &tris, steps)?;
    let rows = [
        ((1, 2, 3), [None, None, Some(1)]),
        ((0, 1, 3), [None, Some(0), Some(2)]),
        ((0, 3, 5), [Some(1), Some(3), None]),
        ((3, 4, 5), [None, None, Some(2)]),
    ];
    has_rows(rt, &mesh, &rows);
    assert!(rt; 1 < mesh.count());
    let order = mesh.outward(alloc, 1)?;
    is_order(rt, &order, &[(1, 0, 0), (0, 0, 2), (2, 0, 0), (3, 2, 2)]);
    Ok(())
}

// The mesh has these triangles, and these across their sides.
fn has_rows<R: Abort>(rt: &R, mesh: &Mesh, rows: &[(Corners, [Option<u32>; 3])]) {
    assert!(rt; mesh.count() as usize == rows.len());
    for i in 0..mesh.count() {
        let (tri, across) = rows[i as usize];
        let found = mesh.tri(i);
        assert!(rt; (found.a, found.b, found.c) == tri, "triangle {i}");
        let sides = [mesh.across(i, 0), mesh.across(i, 1), mesh.across(i, 2)];
        assert!(rt; sides == across, "across the sides of triangle {i}");
    }
}

// The order has these triangles, each with an earlier place and its side to the triangle there.
fn is_order<R: Abort>(rt: &R, order: &[Outward], want: &[Corners]) {
    assert!(rt; order.len() == want.len());
    for (at, row) in order.iter().zip(want) {
        assert!(rt; (at.tri, at.toward, at.side) == *row, "triangle {row:?}");
    }
}

// The mesh of these triangles of this list of vertices.
fn mesh_of<L: Ledger, R: Abort>(
    rt: &R,
    alloc: Global,
    points: &[At],
    tris: &[Corners],
    steps: &mut Steps<L>,
) -> Result<Mesh, Memory>
    requires few { length tris.now < 2 ^ 30 }
    requires suit { SuitRow points.now tris.now }
{
    let ring = ring_of(alloc, points, steps).expect(rt, "a ring");
    mesh_with(alloc, &ring, tris)
}
