// The vertices of a list in lexicographic order, and the rank of each.
ghost use Rattle.std.specs.Prelude.{◌≡◌, ◌+◌, ◌*◌, ◌<◌, ◌≤◌, ◌^◌, IfOk, OnOk, List, length, map};
ghost use Rattle.plane.specs.Point.{IsInBounds, IsInLimit, Point};
ghost use Rattle.plane.specs.declared.limits.TheConstants.{MAX_CORNERS};
ghost use Rattle.rings.specs.Events.{AreEvents};
ghost use Rattle.rings.specs.Ring.{vertex};
ghost use Rattle.rings.specs.Simple.{IsSimple};
ghost use Rattle.ring_check.specs.Keys.{AreKeys, key_of, keyed_number, raised};
ghost use Rattle.ring_check.specs.Order.{IsInOrder};

use edge_index::corner;
use exact_plane::{Memory, Pt, Steps};
use std::alloc::Global;
use std::sync::ledger::Ledger;

// All vertices of a list by their numbers, by x, then by y. Those of a simple list are in lexicographic order. It takes at most
// 64 steps for each vertex.
pub(crate) fn lexical_order<L: Ledger>(
    alloc: Global,
    points: &[Pt],
    steps: &mut Steps<L>,
) -> Result<Vec<u32>, Memory>
    requires { length points.now ≤ MAX_CORNERS }
    ensures all { IfOk result (λ order. length order.items ≡ length points.now) }
    ensures order { IfOk result (λ order. IsSimple points.now → IsInOrder points.now order.items) }
    ensures steps_least { OnOk result (steps.old + length points.now ≤ steps.new) }
    ensures steps_most { steps.new ≤ steps.old + 64 * length points.now }
{
    let mut keys = keys_of(alloc, points, steps)?;
    keys.sort_unstable();
    numbers_of(alloc, &keys)
}

// The keys of all vertices. It takes at most 64 steps for each.
fn keys_of<L: Ledger>(
    alloc: Global,
    points: &[Pt],
    steps: &mut Steps<L>,
) -> Result<Vec<u64>, Memory>
    requires { length points.now ≤ MAX_CORNERS }
    ensures keys { IfOk result (λ keys. AreKeys points.now (length points.now) keys.items) }
    ensures steps_least { OnOk result (steps.old + length points.now ≤ steps.new) }
    ensures steps_most { steps.new ≤ steps.old + 64 * length points.now }
{
    let mut keys = Vec::with_capacity(alloc, points.len())?;
    for number in 0..points.len() as u32 {
        keys.push_reserved(key_of(points, number, steps));
    }
    Ok(keys)
}

// The key of a vertex: its x, its y and its number in one, so that keys are in order as the vertices are in lexicographic order,
// and a sort compares and moves one word.
fn key_of<L: Ledger>(points: &[Pt], number: u32, steps: &mut Steps<L>) -> u64
    requires range { number < length points.now }
    requires few { length points.now ≤ MAX_CORNERS }
    ensures key { result ≡ key_of points.now number }
    ensures bounds { IsInBounds (vertex points.now number) }
    ensures steps { steps.new ≡ steps.old + 64 }
{
    let (x, y) = corner(points, number as usize).parts(steps);
    (raised(x) * 16_777_216 + raised(y)) * 65_536 + number as u64
}

// A coordinate as a number of 24 bits.
fn raised(z: i64) -> u64
    requires { IsInLimit z }
    ensures number { result ≡ raised z }
    ensures bits { result < 2 ^ 24 }
{
    (z + 8_388_608) as u64
}

// The numbers of the vertices with these keys.
fn numbers_of(alloc: Global, keys: &[u64]) -> Result<Vec<u32>, Memory>
    ensures { IfOk result (λ numbers. numbers.items ≡ map keyed_number keys.now) }
{
    let mut numbers = Vec::with_capacity(alloc, keys.len())?;
    for key in keys {
        numbers.push_reserved((*key % 65_536) as u32);
    }
    Ok(numbers)
}

// Returns an order of vertices again. Each vertex takes one step, since its place tells how it compares with the one before it.
pub(crate) fn copied<L: Ledger>(
    alloc: Global,
    order: &[u32],
    steps: &mut Steps<L>,
) -> Result<Vec<u32>, Memory>
    ensures same { IfOk result (λ copy. copy.items ≡ order.now) }
    ensures steps_least { OnOk result (steps.new ≡ steps.old + length order.now) }
    ensures steps_most { steps.new ≤ steps.old + length order.now }
{
    let mut copy = Vec::with_capacity(alloc, order.len())?;
    for number in order {
        steps.tick();
        copy.push_reserved(*number);
    }
    Ok(copy)
}

/// Returns the place of each vertex in the order, in O(n) time and no step.
pub fn ranks_of(alloc: Global, order: &[u32]) -> Result<Vec<u32>, Memory>
    requires short { length order.now < 2 ^ 32 }
    ensures { IfOk result (λ ranks. (corners : List Point) → IsInOrder corners order.now → AreEvents corners order.now ranks.items) }
{
    let mut ranks = Vec::from_elem(alloc, 0, order.len())?;
    for place in 0..order.len() as u32 {
        let v = order[place as usize] as usize;
        if v < ranks.len() {
            ranks[v] = place;
        }
    }
    Ok(ranks)
}
