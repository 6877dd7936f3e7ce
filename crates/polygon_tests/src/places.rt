// Where points are among the triangles of a polygon, the sleeves between these, and the turns at the vertices.
use crate::named::{at, meshed};
use crate::ring_lists::At;
use dual_tree::{Board, locate, sleeve};
use exact_plane::{Direction, Memory, Spot, Steps, Turns};
use std::alloc::Global;
use std::process::Abort;
use std::sync::ledger::Ledger;

// There are six triangles in a U.
pub(crate) fn places_sleeves_and_turns<N: Ledger, R: Abort>(
    rt: &R,
    alloc: Global,
    steps: &mut Steps<N>,
) -> Result<(), Memory> {
    places(rt, alloc, steps)?;
    sleeves(rt, alloc, "triangle", 1, steps)?;
    sleeves(rt, alloc, "U", 6, steps)?;
    board(rt, alloc, steps)
}

// The triangles of an L have the corners 5, 3, 4 and 5, 0, 3 and 3, 0, 1 and 3, 1, 2.
fn places<N: Ledger, R: Abort>(rt: &R, alloc: Global, steps: &mut Steps<N>) -> Result<(), Memory> {
    let (ring, mesh) = meshed(rt, alloc, "L", steps)?;
    let cases: [(&str, At, Option<u32>); 6] = [
        ("outside", (3, 3), None),
        ("the corner of all four", (2, 2), Some(0)),
        ("on a side of two", (3, 1), Some(2)),
        ("on an edge of the last", (3, 2), Some(3)),
        ("on an edge of the second", (0, 3), Some(1)),
        ("a corner of the first", (2, 4), Some(0)),
    ];
    for (name, (x, y), want) in cases {
        let found = locate(&mesh, &ring, &at(rt, x, y), steps);
        assert!(rt; found == want, "{name}");
    }
    Ok(())
}

// From each triangle of a polygon to each, with so many triangles.
fn sleeves<N: Ledger, R: Abort>(
    rt: &R,
    alloc: Global,
    name: &str,
    count: u32,
    steps: &mut Steps<N>,
) -> Result<(), Memory> {
    let (_, mesh) = meshed(rt, alloc, name, steps)?;
    assert!(rt; mesh.count() == count);
    for from in 0..mesh.count() {
        for to in 0..mesh.count() {
            let sleeve = sleeve(alloc, &mesh, from, to)?;
            assert!(rt; (sleeve.first(), sleeve.last()) == (from, to));
            assert!(rt; (sleeve.len() == 0) == (from == to), "from {from} to {to}");
        }
    }
    Ok(())
}

// The vertices of an L, a start in it and a goal at its reflex vertex.
fn board<N: Ledger, R: Abort>(rt: &R, alloc: Global, steps: &mut Steps<N>) -> Result<(), Memory> {
    let (ring, _) = meshed(rt, alloc, "L", steps)?;
    assert!(rt; ring.len() == 6);
    let board = Board::new(&ring, at(rt, 1, 1), at(rt, 2, 2));
    let (second, third, fourth) = (Spot::Corner(2), Spot::Corner(3), Spot::Corner(4));
    assert!(rt; board.turn(second, third, fourth, steps) == Direction::Right);
    assert!(rt; board.turn(Spot::Start, second, Spot::Goal, steps) == Direction::Left);
    assert!(rt; board.same(third, Spot::Goal, steps));
    assert!(rt; !board.same(Spot::Start, Spot::Goal, steps));
    Ok(())
}
