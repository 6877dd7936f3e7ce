ghost use Rattle.std.specs.Prelude.{◌≡◌, ◌<◌, ◌++◌, ◌∷◌, [], IfOk, OnOk, length, reverse};
ghost use Rattle.meshes.specs.Side.{IsWalkBetween};
ghost use Rattle.tri_mesh.specs.Outward.{outward_at};
ghost use Rattle.dual_tree.specs.Ways.{HasGoneOn, IsApproachStep};

use exact_plane::Memory;
use std::alloc::Global;
use tri_mesh::{Mesh, Outward};

// A way from a triangle toward the root of a mesh: the triangles that it has left, and the place where it is.
#[derive(Drop)]
pub(crate) struct Way {
    pub left: Vec<u32>,
    pub place: u32,
}

impl Way {
    // The way that begins at a place.
    fn new(alloc: Global, place: u32) -> Way
        ensures place { result.place ≡ place }
        ensures left { result.left.items ≡ [] }
    {
        Way {
            left: Vec::new(alloc),
            place,
        }
    }

    // Goes on to the triangle from which the one here is reached.
    fn go_on(&mut self, order: &[Outward]) -> Result<(), Memory>
        requires { self.old.place < length order.now }
        ensures { OnOk result (HasGoneOn order.now self.old self.new) }
    {
        let here = order[self.place as usize];
        self.left.push(here.tri)?;
        self.place = here.toward;
        Ok(())
    }
}

// The one of two ways that is further out goes on.
fn approach(front: &mut Way, back: &mut Way, order: &[Outward]) -> Result<(), Memory>
    requires front { front.old.place < length order.now }
    requires back { back.old.place < length order.now }
    requires different { ¬ (front.old.place ≡ back.old.place) }
    ensures { OnOk result (IsApproachStep order.now front.old back.old front.new back.new) }
{
    if front.place > back.place {
        front.go_on(order)
    } else {
        back.go_on(order)
    }
}

// What two ways that have met left, that of the second backward, and between them the triangle where they are.
fn joined(front: Way, back: Way, order: &[Outward]) -> Result<Vec<u32>, Memory>
    requires { front.place < length order.now }
    ensures { IfOk result (λ walk. walk.items ≡ front.left.items ++ (outward_at order.now front.place).tri ∷ reverse back.left.items) }
{
    let mut walk = front.left;
    walk.push(order[front.place as usize].tri)?;
    let mut rest = back.left;
    rest.reverse();
    walk.append(&mut rest)?;
    Ok(walk)
}

// The walk from one triangle to another. Both go toward the root until they meet.
pub(crate) fn walk_between(
    alloc: Global,
    mesh: &Mesh,
    from: u32,
    to: u32,
) -> Result<Vec<u32>, Memory>
    requires from { from < length mesh.now }
    requires to { to < length mesh.now }
    ensures { IfOk result (λ walk. IsWalkBetween mesh.now from to walk.items) }
{
    // The prover learns from this call how many triangles there can be.
    let _count = mesh.count();
    let rooted = mesh.rooted();
    let mut front = Way::new(alloc, rooted.places[from as usize]);
    let mut back = Way::new(alloc, rooted.places[to as usize]);
    while front.place != back.place {
        approach(&mut front, &mut back, rooted.order)?;
    }
    joined(front, back, rooted.order)
}
