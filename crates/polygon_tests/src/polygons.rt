// Polygons with their areas, and how areas are added.
use crate::reading::ring_of;
use crate::ring_lists::At;
use exact_plane::{Memory, Steps};
use meshes::Tri;
use ring_check::Ring;
use std::alloc::Global;
use std::process::Abort;
use std::sync::ledger::Ledger;

// For each polygon its name, its vertices, and twice its area.
pub(crate) const POLYGONS: &str = "an L
0,0 4,0 4,2 2,2 2,4 0,4
24

a flat vertex
0,0 2,0 4,0 0,4
16

a triangle
0,0 8388607,-8388607 -8388607,8388606
8388607

flat sides
0,0 1,0 2,0 3,0 3,1 3,2 3,3 2,3 1,3 0,3 0,2 0,1
18

a comb
0,0 10,0 10,6 9,1 8,6 7,1 6,6 5,1 4,6 3,1 2,6 1,1 0,6
70

a comb from the left, clockwise
0,0 0,1 6,1 0,2 6,2 0,3 6,3 7,0
27

a spiral
0,0 7,0 7,7 1,7 1,2 5,2 5,5 3,5 3,4 4,4 4,3 2,3 2,6 6,6 6,1 0,1
56

spikes
0,0 8388607,1 1,1 8388607,8388607 1,2 1,8388607 0,2 -8388607,8388607 -1,1 -8388607,-8388606
58720247

a row on the way from the least vertex
0,0 9,-3 3,0 2,0 9,3
15

vertices as far as one another
0,0 8,-8 5,-2 4,0 5,2 8,8
64

a vertex on the base
0,0 4,-4 4,0 4,4
32

two vertices on the base
0,0 4,-4 4,-1 4,1 4,4
32

flat and reflex vertices
0,0 2,0 4,0 4,4 3,1 2,1 1,1 0,4 0,2
14

a merge vertex
0,0 6,0 6,6 0,6 0,4 3,4 3,2 0,2
60

a split vertex
0,0 6,0 6,2 3,2 3,4 6,4 6,6 0,6
60

a triangle with a flat vertex
0,0 2,0 4,0 4,4
16

vertices over one another
0,0 1,1 1,0 2,0 1,2
3

flat vertices side by side
0,0 1,0 0,2 0,1
2

an edge that begins early
0,0 3,0 2,2 2,3 1,1
7

two regions that end together
0,0 2,1 0,2 1,1
2

a split beside a merge vertex
0,0 1,1 1,0 2,0 1,2 1,3
4

a merge beside a merge vertex
0,0 1,1 1,0 2,2 0,3 1,2
4

an ear below many vertices
0,0 100,0 100,100 98,90 96,100 94,90 92,100 90,90 88,100 86,90 84,100 82,90 80,100 78,90 76,100 74,90 72,100 70,90 68,100 66,90 64,100 62,90 60,100 58,90 56,100 54,90 52,100 50,90 48,100 46,90 44,100 42,90 40,100 38,90 36,100 34,90 32,100 30,90 28,100 26,90 24,100 22,90 20,100 18,90 16,100 14,90 12,100 10,90 8,100 1,60
18660";

// A row of the table: its name, its ring, and twice its area.
pub(crate) fn row_of<'a, L: Ledger, R: Abort>(
    rt: &R,
    alloc: Global,
    row: &'a str,
    steps: &mut Steps<L>,
) -> (&'a str, Ring, i64) {
    let (name, rest) = row.split_once("\n").expect(rt, "a name");
    let (vertices, area) = rest.split_once("\n").expect(rt, "vertices");
    let ring = ring_of(alloc, vertices, steps).expect(rt, "a ring");
    (name, ring, number(rt, area))
}

fn number<R: Abort>(rt: &R, text: &str) -> i64 {
    text.parse::<i64>().ok().expect(rt, "a number")
}

// The vertices of a ring, by its numbers.
pub(crate) fn vertices_of<L: Ledger>(
    alloc: Global,
    ring: &Ring,
    steps: &mut Steps<L>,
) -> Result<Vec<At>, Memory> {
    let mut list = Vec::new(alloc);
    for i in 0..ring.len() {
        list.push(ring.corner(i).parts(steps))?;
    }
    Ok(list)
}

// Twice the area of all triangles together, each of them counterclockwise.
pub(crate) fn area_of<R: Abort>(rt: &R, list: &[At], tris: &[Tri]) -> i64 {
    let mut sum: i64 = 0;
    for tri in tris {
        let area = doubled_area(
            corner(rt, list, tri.a),
            corner(rt, list, tri.b),
            corner(rt, list, tri.c),
        );
        assert!(rt; area > 0, "{tri:?} is counterclockwise");
        sum = sum.wrapping_add(area);
    }
    sum
}

fn doubled_area(a: At, b: At, c: At) -> i64 {
    let (p_x, p_y) = (b.0.wrapping_sub(a.0), b.1.wrapping_sub(a.1));
    let (q_x, q_y) = (c.0.wrapping_sub(a.0), c.1.wrapping_sub(a.1));
    p_x.wrapping_mul(q_y).wrapping_sub(p_y.wrapping_mul(q_x))
}

fn corner<R: Abort>(rt: &R, list: &[At], i: u32) -> At {
    assert!(rt; (i as usize) < list.len());
    list[i as usize]
}

// Whether the triangles are 0, 1, 3 and 1, 2, 3, in either order and each from any corner on.
pub(crate) fn are_flat_triangles(tris: &[Tri]) -> bool {
    match tris {
        [one, other] => {
            let (one, other) = (from_least(one), from_least(other));
            (one == (0, 1, 3) && other == (1, 2, 3)) || (one == (1, 2, 3) && other == (0, 1, 3))
        }
        _ => false,
    }
}

// The corners of a triangle in their order, the least one first.
fn from_least(tri: &Tri) -> (u32, u32, u32) {
    if tri.a < tri.b && tri.a < tri.c {
        (tri.a, tri.b, tri.c)
    } else if tri.b < tri.c {
        (tri.b, tri.c, tri.a)
    } else {
        (tri.c, tri.a, tri.b)
    }
}
