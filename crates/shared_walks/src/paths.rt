// The taut chains from one point to several.
ghost use Rattle.std.specs.Prelude.{◌≡◌, ◌+◌, ◌*◌, ◌<◌, ◌≤◌, ◌↔◌, ℕ, [], IfOk, IsTrue, length, slice_index_or, slice_set};
ghost use Rattle.plane.specs.Point.{whole};
ghost use Rattle.meshes.specs.Fits.{Fits, IsInTri};
ghost use Rattle.meshes.specs.Side.{tri_at};
ghost use Rattle.shared_walks.specs.Several.{AreInTris, ArePathsFrom, listed};

use crate::marks::Marks;
use crate::outward::outermost_first;
use crate::walks::Walks;
use exact_plane::{Memory, Pt, Steps};
use ring_check::Ring;
use std::alloc::Global;
use std::sync::ledger::Ledger;
use tri_mesh::Mesh;

/// A point with a triangle `home` of the mesh that holds it, and points, each with a triangle that holds it, to which paths are wanted.
#[derive(Drop)]
pub struct Stops<'a> {
    pub ring: &'a Ring,
    pub mesh: &'a Mesh,
    pub home: u32,
    pub start: &'a Pt,
    pub tris: &'a [u32],
    pub points: &'a [Pt],
}

/// Returns the path from the start to each of the points, in their order, or `Memory`. One walk serves all points whose triangles it comes
/// through, and goes on from where another was on its way. It takes at most 4 n steps a point, n the number of the ring's vertices.
pub fn paths_from<'a, L: Ledger>(
    alloc: Global,
    stops: &'a Stops<'a>,
    steps: &mut Steps<L>,
) -> Result<Vec<Vec<Pt>>, Memory>
    requires fits { Fits stops.now.ring.now.corners stops.now.mesh.now }
    requires home { stops.now.home < length stops.now.mesh.now }
    requires start { IsInTri stops.now.ring.now.corners (tri_at stops.now.mesh.now stops.now.home) (whole stops.now.start.now) }
    requires held { AreInTris stops.now.ring.now.corners stops.now.mesh.now stops.now.tris.now stops.now.points.now }
    ensures paths { IfOk result (λ paths. ArePathsFrom stops.now.ring.now.corners stops.now.start.now stops.now.points.now (listed paths.items)) }
    ensures steps { steps.new ≤ steps.old + length stops.now.points.now * (4 * length stops.now.ring.now.corners) }
{
    let keys = outermost_first(alloc, stops.mesh, stops.tris)?;
    let marks = Marks::of(alloc, stops.ring, stops.mesh, stops.home, stops.tris, &keys)?;
    let walks = Walks { stops, marks };
    let mut found = none_yet(alloc, stops.points.len())?;
    let mut fronts = Vec::new(alloc);
    for key in &keys {
        if is_missing(&found, key.number) {
            walks.walk_to(alloc, key.number, &mut fronts, &mut found, steps)?;
        }
    }
    Ok(found)
}

// Whether there is no path yet at a place.
pub(crate) fn is_missing(found: &[Vec<Pt>], k: usize) -> bool
    requires { k < length found.now }
    ensures { IsTrue result ↔ (length (slice_index_or (listed found.now) k []) ≡ 0) }
{
    found[k].len() == 0
}

// Puts a path at a place.
pub(crate) fn put(found: &mut Vec<Vec<Pt>>, k: usize, path: Vec<Pt>)
    requires { k < length found.old.items }
    ensures { found.new.items ≡ slice_set found.old.items k path }
{
    found[k] = path;
}

// No path for each of some points.
fn none_yet(alloc: Global, count: usize) -> Result<Vec<Vec<Pt>>, Memory>
    ensures count { IfOk result (λ found. length found.items ≡ count) }
    ensures none { IfOk result (λ found. (k : ℕ) → length (slice_index_or (listed found.items) k []) ≡ 0) }
{
    let mut found = Vec::with_capacity(alloc, count)?;
    for _ in 0..count {
        found.push_reserved(Vec::new(alloc));
    }
    Ok(found)
}
