// A triangulation by a sweep.
ghost use Rattle.std.specs.Prelude.{◌≡◌, ◌+◌, ◌*◌, ◌<◌, ◌≤◌, ◌^◌, IfOk, length};
ghost use Rattle.meshes.specs.Fits.{Fits};
ghost use Rattle.rings.specs.Orientation.{IsCounterclockwise};
ghost use Rattle.rings.specs.Simple.{IsSimple};
ghost use Rattle.shared_seq.specs.Digits.{binary_digits};
ghost use Rattle.ring_check.specs.Order.{IsInOrder};

use crate::event::Sweep;
use crate::half_turned::HalfTurned;
use crate::order::lexical;
use exact_plane::{Memory, Steps, Turns};
use meshes::Tri;
use ring_check::{Ring, ranks_of};
use std::alloc::Global;
use std::sync::ledger::Ledger;

/// Triangles that fit the ring, whose corners are those of the board, by a sweep from the greatest corner to the least, in the order that
/// the ring keeps, or else in one that is made here. It takes at most 64 n + 200 n b steps, n the number of corners and b that of its
/// binary digits.
pub fn sweep_ring<T: Turns, L: Ledger>(
    alloc: Global,
    ring: &Ring,
    board: &T,
    steps: &mut Steps<L>,
) -> Result<Vec<Tri>, Memory>
    requires board { T.corners board.now ≡ ring.now.corners }
    ensures fits { IfOk result (λ tris. Fits ring.now.corners tris.items) }
    ensures steps { steps.new ≤ steps.old + 64 * length ring.now.corners + 200 * length ring.now.corners * binary_digits (length ring.now.corners) }
{
    let _is_simple = ring.len();
    // So each corner is joined with those after it, as where a polygon is cut at its least vertices: in all rings that were tried the
    // triangles are the same. From the least corner on, some rings have n n / 4 diagonals to flip until they are.
    let mut order = lexical(alloc, ring, steps)?;
    order.reverse();
    sweep(alloc, &HalfTurned { board }, &order, steps)
}

/// Triangles that fit the polygon of the board's corners, which is simple and runs counterclockwise; `order` is the list of all
/// corners in lexicographic order. It takes at most 200 n b steps, n the number of corners and b that of its binary digits.
pub fn sweep<T: Turns, L: Ledger>(
    alloc: Global,
    board: &T,
    order: &[u32],
    steps: &mut Steps<L>,
) -> Result<Vec<Tri>, Memory>
    requires some { 3 ≤ length (T.corners board.now) }
    requires few { length (T.corners board.now) < 2 ^ 30 }
    requires simple { IsSimple (T.corners board.now) }
    requires counterclockwise { IsCounterclockwise (T.corners board.now) }
    requires order { IsInOrder (T.corners board.now) order.now }
    ensures fits { IfOk result (λ tris. Fits (T.corners board.now) tris.items) }
    ensures steps { steps.new ≤ steps.old + 200 * length (T.corners board.now) * binary_digits (length (T.corners board.now)) }
{
    let rank = ranks_of(alloc, order)?;
    let mut state = Sweep::new(alloc);
    for v in order {
        state.pass(alloc, board, &rank, *v, steps)?;
    }
    Ok(state.tris)
}
