// Guards of polygons with triangles that are written down.
ghost use Rattle.std.specs.Prelude.{◌<◌, ◌^◌, length};
ghost use Rattle.polygon_tests.specs.Rows.{SuitRow};

use crate::ring_lists::{At, Corners, mesh_with, ring_of};
use exact_plane::{Memory, Steps};
use guards3::guards;
use std::alloc::Global;
use std::process::Abort;
use std::sync::ledger::Ledger;

#[rattlefmt::skip]
pub(crate) fn meshes_have_guards<L: Ledger, R: Abort>(rt: &R, alloc: Global, steps: &mut Steps<L>) -> Result<(), Memory> {
    has_guards(rt, alloc, "a triangle", &[(0, 0), (4, 0), (0, 4)], &[(0, 1, 2)], &[0], steps)?;
    has_guards(rt, alloc, "a tie", &[(0, 0), (4, 0), (4, 4), (0, 4)], &[(0, 1, 3), (1, 2, 3)], &[1], steps)?;
    has_guards(rt, alloc, "an L", &[(0, 0), (4, 0), (4, 2), (2, 2), (2, 4), (0, 4)], &[(0, 1, 3), (1, 2, 3), (0, 3, 5), (3, 4, 5)], &[3], steps)?;
    has_guards(rt, alloc, "a tie of three", &[(0, 0), (4, 0), (4, 2), (2, 2), (2, 4), (0, 4)], &[(0, 1, 2), (0, 2, 3), (0, 3, 5), (3, 4, 5)], &[0, 4], steps)?;
    has_guards(rt, alloc, "an L, clockwise", &[(0, 4), (2, 4), (2, 2), (4, 2), (4, 0), (0, 0)], &[(1, 2, 4), (2, 3, 4), (1, 4, 0), (4, 5, 0)], &[2], steps)?;
    has_guards(rt, alloc, "a U", &[(0, 0), (6, 0), (6, 4), (4, 4), (4, 2), (2, 2), (2, 4), (0, 4)], &[(0, 5, 7), (5, 6, 7), (0, 1, 5), (1, 4, 5), (1, 3, 4), (1, 2, 3)], &[1, 7], steps)
}

// The ring of this list, with these triangles, has these guards.
fn has_guards<L: Ledger, R: Abort>(
    rt: &R,
    alloc: Global,
    name: &str,
    points: &[At],
    tris: &[Corners],
    want: &[u32],
    steps: &mut Steps<L>,
) -> Result<(), Memory>
    requires few { length tris.now < 2 ^ 30 }
    requires suit { SuitRow points.now tris.now }
{
    let ring = ring_of(alloc, points, steps).expect(rt, "a ring");
    let mesh = mesh_with(alloc, &ring, tris)?;
    assert!(rt; guards(alloc, &ring, &mesh)?.as_slice() == want, "{name}");
    Ok(())
}
