ghost use Rattle.std.specs.Prelude.{◌≡◌, ◌≢◌, [], ◌∷◌, ◌++◌, ◌+◌, ◌-◌, ◌*◌, ◌<◌, ◌≤◌, ◌↔◌, IsTrue, length, slice_index_or, vec_capacity};
ghost use Rattle.plane.specs.Point.{whole};
ghost use Rattle.rings.specs.Chain.{IsPath, point_at};
ghost use Rattle.meshes.specs.Fits.{Fits, IsInTri};
ghost use Rattle.meshes.specs.Side.{tri_at};
ghost use Rattle.meshes.specs.Sleeve.{IsOneOf};
ghost use Rattle.funnels.specs.Touched.{IsAhead, IsLookedAt};
ghost use Rattle.dual_tree.specs.Touched.{AppendsFull};

use exact_plane::{Pt, Steps, on_segment, order};
use ring_check::Ring;
use std::cmp::Ordering;
use std::sync::ledger::Ledger;
use tri_mesh::{Mesh, Sleeve};

/// Appends the points of a path and, in their order, all vertices of the ring that it touches: at most two points more than
/// the ring has. The path goes along the sleeve. It takes no memory, and at most 20 steps a vertex of the ring.
pub fn touched<L: Ledger>(
    ring: &Ring,
    mesh: &Mesh,
    sleeve: &Sleeve,
    chain: &[Pt],
    out: &mut Vec<Pt>,
    steps: &mut Steps<L>,
)
    requires fits { Fits ring.now.corners mesh.now }
    requires of_mesh { IsOneOf mesh.now sleeve.now }
    requires some { 0 < length chain.now }
    requires path { IsPath ring.now.corners (point_at chain.now 0) (point_at chain.now (length chain.now - 1)) chain.now }
    requires start { IsInTri ring.now.corners (tri_at mesh.now (slice_index_or sleeve.now.walk 0 0)) (whole (point_at chain.now 0)) }
    requires goal { IsInTri ring.now.corners (tri_at mesh.now (slice_index_or sleeve.now.walk (length sleeve.now.walk - 1) 0))
        (whole (point_at chain.now (length chain.now - 1))) }
    requires room { length out.old.items + length ring.now.corners + 2 ≤ vec_capacity out.old }
    ensures full { AppendsFull ring.now.corners chain.now out.old.items out.new.items }
    ensures few { length out.new.items ≤ length out.old.items + length ring.now.corners + 2 }
    ensures same_out { vec_capacity out.new ≡ vec_capacity out.old }
    ensures steps { steps.new ≤ steps.old + 20 * length ring.now.corners }
{
    // The prover learns from this call how many triangles there can be.
    let _count = mesh.count();
    let first = chain[0];
    let mut reached = Reached {
        place: 0,
        last: first,
    };
    out.push_reserved(first);
    for i in 0..sleeve.len() {
        let left = ring.corner(sleeve.left(i));
        let right = ring.corner(sleeve.right(i));
        let nearer = look(chain, &reached, &left, out, steps);
        reached = look(chain, &nearer, &right, out, steps);
    }
    finish(chain, &reached, out, steps);
}

// How far along a chain: at a place, or on the way from there to the next one; and the last point that was found.
#[derive(Clone, Copy)]
struct Reached {
    place: usize,
    last: Pt,
}

// Looks at a point, and appends it where it is ahead on the way to the next point of the chain. It takes at most 5 steps.
fn look<L: Ledger>(
    chain: &[Pt],
    reached: &Reached,
    v: &Pt,
    out: &mut Vec<Pt>,
    steps: &mut Steps<L>,
) -> Reached
    requires place { reached.now.place < length chain.now }
    requires room { length out.old.items < vec_capacity out.old }
    ensures looked { IsLookedAt chain.now v.now reached.now.place reached.now.last out.old.items result.place result.last out.new.items }
    ensures same_out { vec_capacity out.new ≡ vec_capacity out.old }
    ensures steps { steps.new ≤ steps.old + 5 }
{
    if is_ahead(chain, reached, v, steps) {
        let last = *v;
        out.push_reserved(last);
        let next = reached.place + 1;
        if order(v, &chain[next], steps) == Ordering::Equal {
            Reached { place: next, last }
        } else {
            Reached {
                place: reached.place,
                last,
            }
        }
    } else {
        Reached {
            place: reached.place,
            last: reached.last,
        }
    }
}

// Whether a point is ahead on the way to the next point of the chain. It takes at most 4 steps.
fn is_ahead<L: Ledger>(chain: &[Pt], reached: &Reached, v: &Pt, steps: &mut Steps<L>) -> bool
    requires { reached.now.place < length chain.now }
    ensures ahead { IsTrue result ↔ IsAhead chain.now reached.now.place reached.now.last v.now }
    ensures steps { steps.new ≤ steps.old + 4 }
{
    reached.place + 1 < chain.len()
        && order(v, &reached.last, steps) != Ordering::Equal
        && on_segment(v, &reached.last, &chain[reached.place + 1], steps)
}

// Appends the last point of the chain where it is not the last one that was found. It takes one step.
fn finish<L: Ledger>(chain: &[Pt], reached: &Reached, out: &mut Vec<Pt>, steps: &mut Steps<L>)
    requires some { 0 < length chain.now }
    requires room { length out.old.items < vec_capacity out.old }
    ensures there { reached.now.last ≡ point_at chain.now (length chain.now - 1) → out.new.items ≡ out.old.items }
    ensures short { reached.now.last ≢ point_at chain.now (length chain.now - 1)
        → out.new.items ≡ out.old.items ++ point_at chain.now (length chain.now - 1) ∷ [] }
    ensures same_out { vec_capacity out.new ≡ vec_capacity out.old }
    ensures steps { steps.new ≡ steps.old + 1 }
{
    let goal = chain[chain.len() - 1];
    if order(&reached.last, &goal, steps) != Ordering::Equal {
        out.push_reserved(goal);
    }
}
