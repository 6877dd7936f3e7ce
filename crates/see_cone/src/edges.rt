ghost use Rattle.std.specs.Prelude.{◌+◌, ◌<◌, IfOk, OnOk, length};
ghost use Rattle.meshes.specs.Mesh.{IsMesh};
ghost use Rattle.see_cone.specs.Reached.{AreDifferent, AreBoundaryEdges, AreSorted};

use crate::reached::Reached;
use exact_plane::Memory;
use std::alloc::Global;
use tri_mesh::{Mesh, side_ends};

// An edge of the ring by its number, and the place of the triangle that has it as a side.
#[derive(Clone, Copy, PartialEq, Eq, PartialOrd, Ord)]
pub(crate) struct Placed {
    pub edge: u32,
    pub place: usize,
}

// The edges of those of the triangles that have a cone, in their order.
pub(crate) fn edges_of(
    alloc: Global,
    mesh: &Mesh,
    reached: &[Reached],
) -> Result<Vec<Placed>, Memory>
    requires fits { IsMesh mesh.now }
    requires different { AreDifferent mesh.now reached.now }
    ensures { IfOk result (λ edges. AreSorted mesh.now reached.now edges.items) }
{
    let mut edges = Vec::new(alloc);
    for place in 0..reached.len() {
        push_edges(&mut edges, mesh, reached, place)?;
    }
    edges.sort_unstable();
    Ok(edges)
}

// Appends the edges of the triangle at a place, where that has a cone.
fn push_edges(
    edges: &mut Vec<Placed>,
    mesh: &Mesh,
    reached: &[Reached],
    place: usize,
) -> Result<(), Memory>
    requires fits { IsMesh mesh.now }
    requires different { AreDifferent mesh.now reached.now }
    requires place { place < length reached.now }
    requires before { AreBoundaryEdges mesh.now reached.now place 0 edges.old.items }
    ensures { OnOk result (AreBoundaryEdges mesh.now reached.now (place + 1) 0 edges.new.items) }
{
    if reached[place].cone.is_none() {
        return Ok(());
    }
    for side in 0..3 {
        push_side(edges, mesh, reached, place, side)?;
    }
    Ok(())
}

// Appends a side of the triangle at a place, where it is an edge.
fn push_side(
    edges: &mut Vec<Placed>,
    mesh: &Mesh,
    reached: &[Reached],
    place: usize,
    side: u32,
) -> Result<(), Memory>
    requires fits { IsMesh mesh.now }
    requires different { AreDifferent mesh.now reached.now }
    requires place { place < length reached.now }
    requires side { side < 3 }
    requires before { AreBoundaryEdges mesh.now reached.now place side edges.old.items }
    ensures { OnOk result (AreBoundaryEdges mesh.now reached.now place (side + 1) edges.new.items) }
{
    let tri = reached[place].tri;
    if mesh.across(tri, side).is_none() {
        let (edge, _end) = side_ends(&mesh.tri(tri), side);
        edges.push(Placed { edge, place })?;
    }
    Ok(())
}
