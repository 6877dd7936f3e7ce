// Polygons with names, their rings, and meshes that fit these.
ghost use Rattle.std.specs.Prelude.{◌≡◌, IfOk};
ghost use Rattle.meshes.specs.Fits.{Fits};

use crate::reading::ring_of;
use crate::ring_lists::swept_mesh;
use exact_plane::{Memory, Pt, Steps};
use ring_check::Ring;
use std::alloc::Global;
use std::process::Abort;
use std::sync::ledger::Ledger;
use tri_mesh::Mesh;

const POLYGONS: &str = "triangle: 0,0 1,0 0,1
L: 0,0 4,0 4,2 2,2 2,4 0,4
U: 0,0 6,0 6,4 4,4 4,2 2,2 2,4 0,4";

// The ring of the polygon with this name.
fn ring_named<L: Ledger, R: Abort>(
    rt: &R,
    alloc: Global,
    name: &str,
    steps: &mut Steps<L>,
) -> Ring {
    for row in POLYGONS.split("\n") {
        let (first, vertices) = row.split_once(": ").expect(rt, "a name");
        if first == name {
            return ring_of(alloc, vertices, steps).expect(rt, "a ring");
        }
    }
    panic!(rt; "no polygon {name}")
}

// The ring of the polygon with this name, and its mesh by a sweep.
pub(crate) fn meshed<L: Ledger, R: Abort>(
    rt: &R,
    alloc: Global,
    name: &str,
    steps: &mut Steps<L>,
) -> Result<(Ring, Mesh), Memory>
    ensures { IfOk result (λ made. Fits made.0.corners made.1) }
{
    let ring = ring_named(rt, alloc, name, steps);
    let mesh = swept_mesh(alloc, &ring, steps)?;
    Ok((ring, mesh))
}

pub(crate) fn at<R: Abort>(rt: &R, x: i64, y: i64) -> Pt
    ensures { result ≡ record { x = x; y = y } }
{
    Pt::of(x, y).expect(rt, "within the limit")
}
