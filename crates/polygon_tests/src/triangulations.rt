// Triangulations by diagonals, by sweeps, and by flips, which give the triangles of that by diagonals.
ghost use Rattle.std.specs.Prelude.{IfOk};
ghost use Rattle.meshes.specs.Fits.{Fits};

use crate::polygons::{POLYGONS, are_flat_triangles, area_of, row_of, vertices_of};
use crate::ring_lists::{ring_of, swept_mesh};
use cut_tri::triangulate;
use dual_tree::Board;
use exact_plane::{Memory, Steps};
use flip_tri::cut_triangles;
use geo_gen::comb;
use meshes::Tri;
use ring_check::Ring;
use std::alloc::Global;
use std::process::Abort;
use std::sync::ledger::Ledger;
use sweep_tri::sweep_ring;
use tri_mesh::Mesh;

#[derive(Clone, Copy)]
enum Method {
    Diagonals,
    Sweep,
}

impl Method {
    fn mesh_of<L: Ledger>(
        self,
        alloc: Global,
        ring: &Ring,
        steps: &mut Steps<L>,
    ) -> Result<Mesh, Memory> {
        match self {
            Method::Diagonals => triangulate(alloc, ring, steps),
            Method::Sweep => swept_mesh(alloc, ring, steps),
        }
    }
}

// By diagonals, by a sweep, which takes the greatest comb too, and by flips and the sweep of a ring, which give the triangles of the first.
pub(crate) fn each_polygon_is_triangulated<L: Ledger, R: Abort>(
    rt: &R,
    alloc: Global,
    steps: &mut Steps<L>,
) -> Result<(), Memory> {
    all_polygons(rt, alloc, Method::Diagonals, steps)?;
    all_polygons(rt, alloc, Method::Sweep, steps)?;
    flips_give_the_cut(rt, alloc, steps)?;
    greatest_comb(rt, alloc, steps)
}

fn all_polygons<L: Ledger, R: Abort>(
    rt: &R,
    alloc: Global,
    method: Method,
    steps: &mut Steps<L>,
) -> Result<(), Memory> {
    for row in POLYGONS.split("\n\n") {
        is_triangulated(rt, alloc, method, row, steps)?;
    }
    has_flat_triangles(rt, alloc, method, steps)
}

fn is_triangulated<L: Ledger, R: Abort>(
    rt: &R,
    alloc: Global,
    method: Method,
    row: &str,
    steps: &mut Steps<L>,
) -> Result<(), Memory> {
    let (name, ring, area) = row_of(rt, alloc, row, steps);
    let mesh = method.mesh_of(alloc, &ring, steps)?;
    let list = vertices_of(alloc, &ring, steps)?;
    let tris = triangles_of(alloc, &mesh)?;
    assert!(rt;
        tris.len() + 2 == ring.len() as usize,
        "triangles of {name}"
    );
    assert!(rt; area_of(rt, &list, &tris) == area, "area of {name}");
    assert!(rt;
        outer_sides(rt, &mesh) == ring.len(),
        "outer sides of {name}"
    );
    Ok(())
}

fn triangles_of(alloc: Global, mesh: &Mesh) -> Result<Vec<Tri>, Memory> {
    let mut tris = Vec::new(alloc);
    for i in 0..mesh.count() {
        tris.push(mesh.tri(i))?;
    }
    Ok(tris)
}

// How many sides have no triangle across. Across each other side is a triangle with that side in the other direction.
fn outer_sides<R: Abort>(rt: &R, mesh: &Mesh) -> u32 {
    let mut count: u32 = 0;
    for i in 0..mesh.count() {
        for side in 0..3 {
            match mesh.across(i, side) {
                None => count = count.wrapping_add(1),
                Some(k) => {
                    assert!(rt; k < mesh.count());
                    let (from, to) = ends_of(&mesh.tri(i), side);
                    assert!(rt;
                        has_side(&mesh.tri(k), to, from),
                        "side {side} of triangle {i}"
                    );
                }
            }
        }
    }
    count
}

fn ends_of(tri: &Tri, side: u32) -> (u32, u32) {
    match side {
        0 => (tri.a, tri.b),
        1 => (tri.b, tri.c),
        _ => (tri.c, tri.a),
    }
}

fn has_side(tri: &Tri, from: u32, to: u32) -> bool {
    (tri.a == from && tri.b == to)
        || (tri.b == from && tri.c == to)
        || (tri.c == from && tri.a == to)
}

// A flat vertex is a corner of both triangles beside the diagonal from it.
fn has_flat_triangles<L: Ledger, R: Abort>(
    rt: &R,
    alloc: Global,
    method: Method,
    steps: &mut Steps<L>,
) -> Result<(), Memory> {
    let ring = ring_of(alloc, &[(0, 0), (2, 0), (4, 0), (0, 4)], steps).expect(rt, "a ring");
    let mesh = method.mesh_of(alloc, &ring, steps)?;
    assert!(rt; are_flat_triangles(&triangles_of(alloc, &mesh)?));
    Ok(())
}

// Of each polygon flips give the same triangles as diagonals do, in some order. So does the sweep of a ring, which goes from the greatest
// vertex on, without a flip.
fn flips_give_the_cut<L: Ledger, R: Abort>(
    rt: &R,
    alloc: Global,
    steps: &mut Steps<L>,
) -> Result<(), Memory> {
    for row in POLYGONS.split("\n\n") {
        let (name, ring, _) = row_of(rt, alloc, row, steps);
        let cut = triangles_of(alloc, &triangulate(alloc, &ring, steps)?)?;
        let tris = flipped(alloc, &ring, steps)?;
        let swept = sweep_ring(alloc, &ring, &Board::without_ends(&ring), steps)?;
        for tri in &cut {
            assert!(rt; has_triangle(&tris, tri), "triangles of {name} by flips");
            assert!(rt; has_triangle(&swept, tri), "triangles of {name} by a sweep");
        }
    }
    Ok(())
}

fn has_triangle(tris: &[Tri], tri: &Tri) -> bool {
    for other in tris {
        if has_side(other, tri.a, tri.b) && has_side(other, tri.b, tri.c) {
            return true;
        }
    }
    false
}

// The triangles of a sweep from the least vertex on, flipped.
fn flipped<L: Ledger>(alloc: Global, ring: &Ring, steps: &mut Steps<L>) -> Result<Vec<Tri>, Memory>
    ensures { IfOk result (λ tris. Fits ring.now.corners tris.items) }
{
    let mesh = swept_mesh(alloc, ring, steps)?;
    cut_triangles(alloc, ring, &mesh, steps)
}

// The comb of 2,047 teeth has 4,096 vertices.
fn greatest_comb<L: Ledger, R: Abort>(
    rt: &R,
    alloc: Global,
    steps: &mut Steps<L>,
) -> Result<(), Memory> {
    let points = comb(alloc, 2_047)?;
    let ring = Ring::of(points, steps).ok().expect(rt, "a ring");
    assert!(rt; swept_mesh(alloc, &ring, steps)?.count() == 4_094);
    Ok(())
}
