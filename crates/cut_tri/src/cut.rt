// One cut of a piece: some of the vertices of a polygon, by their numbers, in the order of the piece's boundary.
ghost use Rattle.std.specs.Prelude.{◌≡◌, ◌+◌, ◌*◌, ◌<◌, ◌≤◌, ◌↔◌, IfOk, IsTrue, length, drop, slice_index, ◌∷◌};
ghost use Rattle.plane.specs.Order.{IsBefore};
ghost use Rattle.rings.specs.Ring.{vertex};
ghost use Rattle.cut_tri.specs.Cutting.{IsCutOf};
ghost use Rattle.cut_tri.specs.Piece.{HasNumbers, IsLeastBelow, IsPiece, tri_at_first};

use crate::farthest::farthest;
use exact_plane::{Memory, Steps, order};
use meshes::Tri;
use ring_check::Ring;
use std::alloc::Global;
use std::cmp::Ordering;
use std::sync::ledger::Ledger;

// What remains of a piece.
#[derive(Drop)]
pub(crate) enum Remains {
    // The piece is a triangle.
    Triangle(Tri),
    // A triangle, and the rest of the piece.
    Ear(Tri, Vec<u32>),
    // Two pieces, of which each has the diagonal as an edge.
    Parts(Vec<u32>, Vec<u32>),
}

// Cuts a piece at its lexicographically least vertex v, with u before it and w after it: along the segment from u to w, or
// from v to the vertex of the closed triangle u, v, w that is farthest from the line through u and w. It takes at most 260 steps for
// each vertex, less 777: one to find v, and 259 for each of the others but u and w.
pub(crate) fn cut<L: Ledger>(
    alloc: Global,
    ring: &Ring,
    mut piece: Vec<u32>,
    steps: &mut Steps<L>,
) -> Result<Remains, Memory>
    requires { IsPiece ring.now.corners piece.items }
    ensures cut { IfOk result (IsCutOf ring.now.corners piece.items) }
    ensures steps { steps.new + 777 ≤ steps.old + 260 * length piece.items }
{
    let least = least_place(ring, &piece, steps);
    piece.rotate_left(least);
    cut_at_first(alloc, ring, piece, steps)
}

// Cuts a piece at its first vertex.
fn cut_at_first<L: Ledger>(
    alloc: Global,
    ring: &Ring,
    mut piece: Vec<u32>,
    steps: &mut Steps<L>,
) -> Result<Remains, Memory>
    requires piece { IsPiece ring.now.corners piece.items }
    requires least { IsLeastBelow ring.now.corners piece.items (length piece.items) 0 }
    ensures cut { IfOk result (IsCutOf ring.now.corners piece.items) }
    ensures steps { steps.new + 777 ≤ steps.old + 259 * length piece.items }
{
    let tri = corner_of(&piece);
    if piece.len() == 3 {
        return Ok(Remains::Triangle(tri));
    }
    match farthest(ring, &piece, steps) {
        None => {
            piece.remove(0);
            Ok(Remains::Ear(tri, piece))
        }
        Some(place) => {
            let second = first_and_from(alloc, &piece, place)?;
            piece.truncate(place + 1);
            Ok(Remains::Parts(piece, second))
        }
    }
}

// The place of the lexicographically least vertex.
fn least_place<L: Ledger>(ring: &Ring, piece: &[u32], steps: &mut Steps<L>) -> usize
    requires some { 0 < length piece.now }
    requires numbers { HasNumbers ring.now.corners piece.now }
    ensures place { result < length piece.now }
    ensures least { IsLeastBelow ring.now.corners piece.now (length piece.now) result }
    ensures steps { steps.new + 1 ≤ steps.old + length piece.now }
{
    let mut least = 0;
    for place in 1..piece.len() {
        if is_before(ring, piece[place], piece[least], steps) {
            least = place;
        }
    }
    least
}

// Whether vertex `i` comes before vertex `j`. It takes one step.
fn is_before<L: Ledger>(ring: &Ring, i: u32, j: u32, steps: &mut Steps<L>) -> bool
    requires first { i < length ring.now.corners }
    requires second { j < length ring.now.corners }
    ensures before { IsTrue result ↔ IsBefore (vertex ring.now.corners i) (vertex ring.now.corners j) }
    ensures steps { steps.new ≡ steps.old + 1 }
{
    order(&ring.corner(i), &ring.corner(j), steps) == Ordering::Less
}

// The triangle at the first vertex.
fn corner_of(piece: &[u32]) -> Tri
    requires { 2 ≤ length piece.now }
    ensures { result ≡ tri_at_first piece.now }
{
    Tri {
        a: piece[piece.len() - 1],
        b: piece[0],
        c: piece[1],
    }
}

// The first vertex, and those from this place on.
fn first_and_from(alloc: Global, piece: &[u32], place: usize) -> Result<Vec<u32>, Memory>
    requires { place < length piece.now }
    ensures { IfOk result (λ part. part.items ≡ slice_index piece.now 0 ∷ drop place piece.now) }
{
    let mut part = Vec::with_capacity(alloc, piece.len() - place + 1)?;
    part.push(piece[0])?;
    part.extend_from_slice(&piece[place..])?;
    Ok(part)
}
