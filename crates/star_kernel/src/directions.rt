// The edges of a ring in the order of their directions.
ghost use Rattle.std.specs.Prelude.{◌≡◌, ◌+◌, ◌-◌, ◌*◌, ◌≤◌, IfOk, length};
ghost use Rattle.star_kernel.specs.HalfPlanes.{AreAllEdges};

use exact_plane::{Memory, Pt, Steps};
use ring_check::Ring;
use std::alloc::Global;
use std::sync::ledger::Ledger;

// An edge by its direction, then its number.
#[derive(Clone, Copy, PartialEq, Eq, PartialOrd, Ord)]
pub(crate) struct Edge {
    // 0 to 3, from the right on counterclockwise.
    pub quarter: u8,
    // How far it is into its quarter. So fine are the parts that two directions differ in it, unless they are the same.
    pub turned: u128,
    pub number: u32,
}

// The edges from number `first` on, counterclockwise by their directions. Both ends of each tell their coordinates.
pub(crate) fn by_direction<L: Ledger>(
    alloc: Global,
    ring: &Ring,
    first: u32,
    steps: &mut Steps<L>,
) -> Result<Vec<Edge>, Memory>
    requires { first ≤ length ring.now.corners }
    ensures edges { IfOk result (λ edges. AreAllEdges first (length ring.now.corners) edges.items) }
    ensures steps { steps.new ≤ steps.old + 128 * (length ring.now.corners - first) }
{
    let n = ring.len();
    let mut edges = Vec::with_capacity(alloc, (n - first) as usize)?;
    for number in first..n {
        let (quarter, turned) = direction(&ring.corner(number), &ring.next(number), steps);
        edges.push(Edge {
            quarter,
            turned,
            number,
        })?;
    }
    edges.sort_unstable();
    Ok(edges)
}

// In which quarter the way from `a` to `b` goes, and how far it is into it.
fn direction<L: Ledger>(a: &Pt, b: &Pt, steps: &mut Steps<L>) -> (u8, u128)
    ensures steps { steps.new ≡ steps.old + 128 }
{
    let ((x, y), (u, v)) = (a.parts(steps), b.parts(steps));
    let (right, up) = (u - x, v - y);
    if 0 < right && 0 <= up {
        (0, share(right, up))
    } else if 0 < up {
        (1, share(up, right))
    } else if right < 0 {
        (2, share(right, up))
    } else {
        (3, share(up, right))
    }
}

// What part of both together the second one is, by their sizes, in parts of 2^60.
fn share(along: i64, across: i64) -> u128 {
    let (along, across) = (along.unsigned_abs() as u128, across.unsigned_abs() as u128);
    if along + across == 0 {
        return 0;
    }
    (across << 60) / (along + across)
}
