// The vertices of a ring in lexicographic order.
ghost use Rattle.std.specs.Prelude.{◌+◌, ◌*◌, ◌≤◌, IfOk, OnOk, length};
ghost use Rattle.ring_check.specs.Order.{IsInOrder};

use exact_plane::{Memory, Steps};
use ring_check::Ring;
use std::alloc::Global;
use std::sync::ledger::Ledger;

/// Returns all vertices of the ring by their inner indices, in lexicographic order: by x, then by y. It takes O(n) steps, 1 to 64
/// for each vertex.
pub fn lexical<L: Ledger>(
    alloc: Global,
    ring: &Ring,
    steps: &mut Steps<L>,
) -> Result<Vec<u32>, Memory>
    ensures order { IfOk result (λ order. IsInOrder ring.now.corners order.items) }
    ensures steps_least { OnOk result (steps.old + length ring.now.corners ≤ steps.new) }
    ensures steps_most { steps.new ≤ steps.old + 64 * length ring.now.corners }
{
    ring.lexical(alloc, steps)
}
