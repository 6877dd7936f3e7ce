ghost use Rattle.std.specs.Prelude.{◌+◌, ◌*◌, ◌≤◌, IfOk, MatchOption, ℕ, length};
ghost use Rattle.rel_hull.specs.Round.{IsRound};
ghost use Rattle.rel_hull.specs.Table.{HasChainsBelow, IsTableOf, table_points};
ghost use Rattle.rel_hull.specs.Told.{AreOuterBelow, IsFirstStart, StartsTold};

use crate::hull::{outer_points, side_end, side_from};
use crate::table::ChainTable;
use exact_plane::{Memory, Steps};
use ring_check::Ring;
use std::alloc::Global;
use std::sync::ledger::Ledger;

/// The round of the table's points, by their numbers: from the least that starts a side along the sides until it comes again; of one
/// point there is none. For m points with chains of fewer than 2^d points it takes at most 3 m m (m + d + 8) steps.
pub fn round<L: Ledger>(
    alloc: Global,
    ring: &Ring,
    chains: &ChainTable,
    steps: &mut Steps<L>,
) -> Result<Vec<u32>, Memory>
    requires { IsTableOf ring.now.corners chains.now }
    ensures round { IfOk result (λ round. IsRound ring.now.corners (table_points chains.now) round.items) }
    ensures steps { (d : ℕ) → HasChainsBelow d chains.now
        → steps.new ≤ steps.old + 3 * chains.now.count * chains.now.count * (chains.now.count + d + 8) }
{
    let _ring_is_simple = ring.len();
    let outer = outer_points(alloc, chains, steps)?;
    let mut round = Vec::new(alloc);
    let Some(first) = first_start(chains, &outer, steps) else {
        return Ok(round);
    };
    round.push(first)?;
    let mut next = side_end(chains, &outer, first, steps);
    while next != first {
        round.push(next)?;
        next = side_end(chains, &outer, next, steps);
    }
    Ok(round)
}

// The least number of a point that starts a side. Of m points it takes at most 2 m m (d + 8) steps.
fn first_start<L: Ledger>(chains: &ChainTable, outer: &[u32], steps: &mut Steps<L>) -> Option<u32>
    requires { AreOuterBelow chains.now chains.now.count outer.now }
    ensures start { MatchOption result ((s : ℕ) → ¬ StartsTold chains.now outer.now s) (IsFirstStart chains.now outer.now) }
    ensures steps { (d : ℕ) → HasChainsBelow d chains.now
        → steps.new ≤ steps.old + 2 * length outer.now * length outer.now * (d + 8) }
{
    for s in outer {
        if side_from(chains, outer, *s, steps).is_some() {
            return Some(*s);
        }
    }
    None
}
