ghost use Rattle.std.specs.Prelude.{◌≡◌, ◌+◌, ◌*◌, ◌<◌, ◌≤◌, IfOk, OnOk, length};
ghost use Rattle.plane.specs.Point.{whole};
ghost use Rattle.meshes.specs.Fits.{Fits, IsInTri};
ghost use Rattle.meshes.specs.Side.{tri_at};
ghost use Rattle.see_cone.specs.Reached.{AreAllReached, AreDone, AreNewBeyond, AreReached, IsAcrossSide, IsReachGrown, IsSideReached, reached_at, tri_there};

use crate::cone::{Cone, narrowed};
use exact_plane::{Memory, Pt, Steps};
use meshes::Tri;
use ring_check::Ring;
use std::alloc::Global;
use std::sync::ledger::Ledger;
use tri_mesh::{Mesh, side_ends};

// A triangle that was reached, the one from which it was, and the cone through which it is seen, if it is.
#[derive(Clone, Copy)]
pub(crate) struct Reached {
    pub tri: u32,
    // At the home it is the home itself.
    pub from: u32,
    pub cone: Option<Cone>,
}

// Side 0, 1 or 2 of the triangle that was reached at a place.
#[derive(Clone, Copy)]
struct SideAt {
    place: usize,
    number: u32,
}

// The triangles of which `q` sees something and those beside them, outward from `home`, which has `q`. It takes at most 5 steps
// for each of them.
pub(crate) fn reach_seen<L: Ledger>(
    alloc: Global,
    ring: &Ring,
    mesh: &Mesh,
    home: u32,
    q: &Pt,
    steps: &mut Steps<L>,
) -> Result<Vec<Reached>, Memory>
    requires fits { Fits ring.now.corners mesh.now }
    requires home { home < length mesh.now }
    requires place { IsInTri ring.now.corners (tri_at mesh.now home) (whole q.now) }
    ensures reached { IfOk result (λ reached. AreAllReached ring.now.corners mesh.now q.now reached.items) }
    ensures steps { steps.new ≤ steps.old + 5 * length ring.now.corners }
{
    let mut reached = Vec::new(alloc);
    reached.push(Reached {
        tri: home,
        from: home,
        cone: Some(Cone {
            left: *q,
            right: *q,
        }),
    })?;
    let mut place = 0usize;
    while place < reached.len() {
        reach_around(&mut reached, ring, mesh, place, q, steps)?;
        place += 1;
    }
    Ok(reached)
}

// Reaches what is beside the triangle at a place, where that is seen. It takes at most 15 steps, and 5 for each triangle that is
// new.
fn reach_around<L: Ledger>(
    reached: &mut Vec<Reached>,
    ring: &Ring,
    mesh: &Mesh,
    place: usize,
    q: &Pt,
    steps: &mut Steps<L>,
) -> Result<(), Memory>
    requires fits { Fits ring.now.corners mesh.now }
    requires place { place < length reached.old.items }
    requires reached { AreReached ring.now.corners mesh.now q.now reached.old.items place }
    requires done { AreDone mesh.now reached.old.items place }
    ensures longer { OnOk result (length reached.old.items ≤ length reached.new.items) }
    ensures reached { OnOk result (AreReached ring.now.corners mesh.now q.now reached.new.items (place + 1)) }
    ensures done { OnOk result (AreDone mesh.now reached.new.items (place + 1)) }
    ensures each { OnOk result (steps.new + 5 * length reached.old.items ≤ steps.old + 5 * length reached.new.items) }
    ensures steps { steps.new ≤ steps.old + 15 }
{
    if at(reached, place).cone.is_none() {
        return Ok(());
    }
    for side in 0..3 {
        reach_over(
            reached,
            ring,
            mesh,
            SideAt {
                place,
                number: side,
            },
            q,
            steps,
        )?;
    }
    Ok(())
}

// Reaches the triangle beyond a side, if there is one and this one was not reached from it. It takes at most 5 steps, and none where
// nothing is new.
fn reach_over<L: Ledger>(
    reached: &mut Vec<Reached>,
    ring: &Ring,
    mesh: &Mesh,
    side: SideAt,
    q: &Pt,
    steps: &mut Steps<L>,
) -> Result<(), Memory>
    requires fits { Fits ring.now.corners mesh.now }
    requires place { side.place < length reached.old.items }
    requires side { side.number < 3 }
    requires reached { AreReached ring.now.corners mesh.now q.now reached.old.items (side.place + 1) }
    requires new { AreNewBeyond mesh.now reached.old.items side.place side.number }
    ensures grown { OnOk result (IsReachGrown reached.old.items reached.new.items
        (IsAcrossSide mesh.now (tri_there reached.old.items side.place) side.number)) }
    ensures reached { OnOk result (AreReached ring.now.corners mesh.now q.now reached.new.items (side.place + 1)) }
    ensures done { OnOk result (IsSideReached mesh.now reached.new.items (tri_there reached.old.items side.place) side.number) }
    ensures each { OnOk result (steps.new + 5 * length reached.old.items ≤ steps.old + 5 * length reached.new.items) }
    ensures steps { steps.new ≤ steps.old + 5 }
{
    let here = *at(reached, side.place);
    match mesh.across(here.tri, side.number) {
        Some(tri) => {
            if tri != here.from {
                let (begin, end) = side_ends(&mesh.tri(here.tri), side.number);
                let cone = narrowed(q, &here.cone, &ring.corner(end), &ring.corner(begin), steps);
                reached.push(Reached {
                    tri,
                    from: here.tri,
                    cone,
                })?;
            }
            Ok(())
        }
        None => Ok(()),
    }
}

// What is at a place.
fn at(reached: &Vec<Reached>, place: usize) -> &Reached
    requires { place < length reached.now.items }
    ensures { result.now ≡ reached_at reached.now.items place }
{
    &reached[place]
}
