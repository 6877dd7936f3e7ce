ghost use Rattle.std.specs.Prelude.{◌+◌, ◌*◌, ◌<◌, ◌≤◌, ◌↔◌, IfOk, length};
ghost use Rattle.plane.specs.Point.{IsPoint, Triple, whole};
ghost use Rattle.rings.specs.Inside.{IsIn};
ghost use Rattle.rings.specs.Sees.{Sees};
ghost use Rattle.rings.specs.Visible.{AreParts, IsInView};
ghost use Rattle.meshes.specs.Fits.{Fits, IsInTri};
ghost use Rattle.meshes.specs.Side.{tri_at};
ghost use Rattle.see_cone.specs.Told.{AreTold};

use crate::edges::{Placed, edges_of};
use crate::part::{Part, push_part};
use crate::reached::{Reached, reach_seen};
use exact_plane::{Memory, Pt, Steps};
use ring_check::Ring;
use std::alloc::Global;
use std::sync::ledger::Ledger;
use tri_mesh::Mesh;

/// What `q` sees of the ring's edges: a part of each edge of which it sees a point, in the order of the edges. `q` is in
/// triangle `home`. It takes at most 14 steps a vertex.
pub fn see<L: Ledger>(
    alloc: Global,
    ring: &Ring,
    mesh: &Mesh,
    home: u32,
    q: &Pt,
    steps: &mut Steps<L>,
) -> Result<Vec<Part>, Memory>
    requires fits { Fits ring.now.corners mesh.now }
    requires home { home < length mesh.now }
    requires place { IsInTri ring.now.corners (tri_at mesh.now home) (whole q.now) }
    ensures parts { IfOk result (λ parts. AreParts ring.now.corners (whole q.now) parts.items) }

    // So it sees what is in a triangle with one of them, and nothing else.
    ensures view { IfOk result (λ parts. (x : Triple) → IsPoint x → IsIn ring.now.corners x
        → Sees ring.now.corners (whole q.now) x ↔ IsInView (whole q.now) parts.items x) }
    ensures steps { steps.new ≤ steps.old + 14 * length ring.now.corners }
{
    let reached = reach_seen(alloc, ring, mesh, home, q, steps)?;
    let edges = edges_of(alloc, mesh, &reached)?;
    parts_through(alloc, ring, &reached, &edges, q, steps)
}

// The parts of these edges. It takes at most 9 steps an edge.
fn parts_through<L: Ledger>(
    alloc: Global,
    ring: &Ring,
    reached: &[Reached],
    edges: &[Placed],
    q: &Pt,
    steps: &mut Steps<L>,
) -> Result<Vec<Part>, Memory>
    requires { AreTold ring.now.corners q.now reached.now edges.now }
    ensures parts { IfOk result (λ parts. AreParts ring.now.corners (whole q.now) parts.items) }
    ensures steps { steps.new ≤ steps.old + 9 * length ring.now.corners }
{
    let mut parts = Vec::with_capacity(alloc, edges.len())?;
    for placed in edges {
        let cone = &reached[placed.place].cone;
        push_part(&mut parts, ring, placed.edge, cone, q, steps)?;
    }
    Ok(parts)
}
