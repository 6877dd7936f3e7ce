// The triangles of a monotone piece. After Garey, Johnson, Preparata and Tarjan 1978.
ghost use Rattle.std.specs.List.{All};
ghost use Rattle.std.specs.Prelude.{◌≡◌, ◌+◌, ◌*◌, ◌<◌, ◌≤◌, OnErr, OnOk, length};
ghost use Rattle.rings.specs.Orientation.{IsCounterclockwise};
ghost use Rattle.rings.specs.Simple.{IsSimple};
ghost use Rattle.meshes.specs.Fits.{piece_points};
ghost use Rattle.mono_fill.specs.Fillable.{IsFillable};
ghost use Rattle.mono_fill.specs.Filled.{IsFilled};
ghost use Rattle.mono_fill.specs.Monotone.{AreRanks, IsMonotone};
ghost use Rattle.mono_fill.specs.Stacks.{Extends};

use crate::chains::Chains;
use crate::side::Side;
use crate::stack::Stack;
use exact_plane::{Memory, Steps, Turns};
use meshes::Tri;
use std::alloc::Global;
use std::sync::ledger::Ledger;

/// Appends triangles that fit a monotone piece of a polygon, flat vertices included. The piece is a list of corners of the
/// board by their numbers, counterclockwise; the rank of a corner is lower than that of another exactly if the corner is
/// lexicographically before it. It takes at most 8 steps for each number of the piece. Where memory is refused, the list is
/// as before.
pub fn fill<T: Turns, L: Ledger>(
    alloc: Global,
    board: &T,
    rank: &[u32],
    piece: &[u32],
    out: &mut Vec<Tri>,
    steps: &mut Steps<L>,
) -> Result<(), Memory>
    requires ranks { AreRanks (T.corners board.now) rank.now }
    requires some { 3 ≤ length piece.now }
    requires numbers { All (λ i. i < length (T.corners board.now)) piece.now }
    requires simple { IsSimple (piece_points (T.corners board.now) piece.now) }
    requires counterclockwise { IsCounterclockwise (piece_points (T.corners board.now) piece.now) }
    requires monotone { IsMonotone (T.corners board.now) piece.now }
    ensures fits { OnOk result (IsFilled (T.corners board.now) piece.now out.old.items out.new.items) }
    ensures memory { OnErr result (out.new.items ≡ out.old.items) }
    ensures steps { steps.new ≤ steps.old + 8 * length piece.now }
{
    let given = out.len();
    let filled = append(alloc, board, rank, piece, out, steps);
    if filled.is_err() {
        out.truncate(given);
    }
    filled
}

// Appends the triangles; some of them, where memory is refused.
fn append<T: Turns, L: Ledger>(
    alloc: Global,
    board: &T,
    rank: &[u32],
    piece: &[u32],
    out: &mut Vec<Tri>,
    steps: &mut Steps<L>,
) -> Result<(), Memory>
    requires ranks { length rank.now ≡ length (T.corners board.now) }
    requires some { 3 ≤ length piece.now }
    requires numbers { All (λ i. i < length (T.corners board.now)) piece.now }
    ensures fits { IsFillable (T.corners board.now) rank.now piece.now
        → OnOk result (IsFilled (T.corners board.now) piece.now out.old.items out.new.items) }
    ensures extended { Extends out.old.items out.new.items }
    ensures steps { steps.new ≤ steps.old + 8 * length piece.now }
{
    let mut chains = Chains::new(rank, piece);
    let mut stack = Stack::new(alloc, chains.first(), piece.len())?;
    for _ in 2..piece.len() {
        let (side, x) = chains.take();
        if side == stack.side {
            stack.go_on(board, x, out, steps)?;
        } else {
            stack.cross(x, out)?;
        }
    }
    stack.fan(chains.ahead(Side::Lower), out)
}
