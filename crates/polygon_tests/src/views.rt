// What points see of the edges.
use crate::named::{at, meshed};
use dual_tree::locate;
use exact_plane::{Hom, Memory, Steps};
use see_cone::{Part, see};
use std::alloc::Global;
use std::process::Abort;
use std::sync::ledger::Ledger;

// A rational point: X, Y and W.
type End = (i128, i128, i128);

// A corner of the triangle sees all of its edges. Views of larger polygons are tried above, by scripts.
pub(crate) fn view_in_one_triangle<L: Ledger, R: Abort>(
    rt: &R,
    alloc: Global,
    steps: &mut Steps<L>,
) -> Result<(), Memory> {
    let (ring, mesh) = meshed(rt, alloc, "triangle", steps)?;
    let q = at(rt, 1, 0);
    let home = locate(&mesh, &ring, &q, steps).expect(rt, "in the triangle");
    let parts = see(alloc, &ring, &mesh, home, &q, steps)?;
    assert!(rt; parts.len() == 3);
    assert!(rt;
        is_part(parts.first(), 0, (0, 0, 1), (1, 0, 1), steps),
        "edge 0"
    );
    assert!(rt;
        is_part(parts.get(1), 1, (1, 0, 1), (0, 1, 1), steps),
        "edge 1"
    );
    assert!(rt;
        is_part(parts.get(2), 2, (0, 1, 1), (0, 0, 1), steps),
        "edge 2"
    );
    Ok(())
}

// Whether the part of an edge has these ends.
fn is_part<L: Ledger>(
    part: Option<&Part>,
    edge: u32,
    first: End,
    last: End,
    steps: &mut Steps<L>,
) -> bool {
    match part {
        Some(part) => {
            let begins = is_at(&part.first, first, steps);
            let ends = is_at(&part.last, last, steps);
            part.edge == edge && begins && ends
        }
        None => false,
    }
}

// Whether a point is this one.
fn is_at<L: Ledger>(point: &Hom, (x, y, w): End, steps: &mut Steps<L>) -> bool {
    let (at_x, at_y, at_w) = point.parts(steps);
    at_x.wrapping_mul(w) == x.wrapping_mul(at_w) && at_y.wrapping_mul(w) == y.wrapping_mul(at_w)
}
