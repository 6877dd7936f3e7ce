//! A sweep in lexicographic order, which shows of most simple rings that they are simple. After Shamos and Hoey 1976.
ghost use Rattle.std.specs.Prelude.{◌≡◌, ◌+◌, ◌*◌, ◌<◌, ◌≤◌, ◌^◌, ℕ, IfOk, IfSome, IsTrue, length};
ghost use Rattle.rings.specs.Simple.{IsSimple};
ghost use Rattle.rings.specs.Status.{IsStatus};
ghost use Rattle.ring_check.specs.Order.{IsInOrder};

use crate::events::{Events, next, previous};
use crate::gap_list::GapList;
use crate::order::{lexical_order, ranks_of};
use crate::status::{insert_both, remove_both, replace};
use exact_plane::{Memory, Pt, Steps};
use plane::MAX_CORNERS;
use std::alloc::Global;
use std::sync::ledger::Ledger;

/// Whether a sweep has shown that no two edges of the list clash. Where it answers false, as for want of memory, nothing is
/// known: `Ring::of` then looks at all pairs. It takes at most n (2 d + 77) steps for n points, n below 2 to the power d.
pub fn sweep_finds_none<L: Ledger>(alloc: Global, points: &[Pt], steps: &mut Steps<L>) -> bool
    requires three { 3 ≤ length points.now }
    requires small { length points.now < 2 ^ 32 }
    ensures simple { IsTrue result → IsSimple points.now }
    ensures steps { (d : ℕ) → length points.now < 2 ^ d → steps.new ≤ steps.old + length points.now * (2 * d + 77) }
{
    match simple_order(alloc, points, steps) {
        Some(_) => true,
        None => false,
    }
}

// The vertices in the lexicographic order in which a sweep has shown that no two edges of the list clash. Where there is none, as for
// want of memory, nothing is known. It takes at most n (2 d + 77) steps for n points, n below 2 to the power d.
pub(crate) fn simple_order<L: Ledger>(
    alloc: Global,
    points: &[Pt],
    steps: &mut Steps<L>,
) -> Option<Vec<u32>>
    requires three { 3 ≤ length points.now }
    requires small { length points.now < 2 ^ 32 }
    ensures simple { IfSome result (λ order. IsSimple points.now) }
    ensures order { IfSome result (λ order. IsInOrder points.now order.items) }
    ensures steps { (d : ℕ) → length points.now < 2 ^ d → steps.new ≤ steps.old + length points.now * (2 * d + 77) }
{
    match sweep(alloc, points, steps) {
        Ok(order) => order,
        Err(_) => None,
    }
}

// The same, or want of memory.
fn sweep<L: Ledger>(
    alloc: Global,
    points: &[Pt],
    steps: &mut Steps<L>,
) -> Result<Option<Vec<u32>>, Memory>
    requires three { 3 ≤ length points.now }
    requires small { length points.now < 2 ^ 32 }
    ensures simple { IfOk result (λ found. IfSome found (λ order. IsSimple points.now)) }
    ensures order { IfOk result (λ found. IfSome found (λ order. IsInOrder points.now order.items)) }
    ensures steps { (d : ℕ) → length points.now < 2 ^ d → steps.new ≤ steps.old + length points.now * (2 * d + 77) }
{
    if points.len() > MAX_CORNERS {
        return Ok(None);
    }
    let order = lexical_order(alloc, points, steps)?;
    let ranks = ranks_of(alloc, &order)?;
    let status = GapList::with_room(alloc, points.len())?;
    if shows_simple(points, &order, &ranks, status, steps) {
        Ok(Some(order))
    } else {
        Ok(None)
    }
}

// Whether a sweep in this order, from an empty status, shows that no two edges clash. It takes at most n (2 d + 13) steps for n points, n
// below 2 to the power d.
fn shows_simple<L: Ledger>(
    points: &[Pt],
    order: &[u32],
    ranks: &[u32],
    status: GapList,
    steps: &mut Steps<L>,
) -> bool
    requires three { 3 ≤ length points.now }
    requires small { length points.now < 2 ^ 16 }
    requires empty { length status ≡ 0 }
    ensures simple { IsTrue result → IsSimple points.now }
    ensures steps { (d : ℕ) → length points.now < 2 ^ d → steps.new ≤ steps.old + length points.now * (2 * d + 13) }
{
    match Events::of(points, order, ranks, steps) {
        Some(events) => passes_all(&events, status, steps),
        None => false,
    }
}

// Whether the sweep passes all events, from an empty status. It takes at most 2 d + 12 steps an event, where there are fewer events than
// 2 to the power d.
fn passes_all<L: Ledger>(events: &Events, mut status: GapList, steps: &mut Steps<L>) -> bool
    requires { length status ≡ 0 }
    ensures simple { IsTrue result → IsSimple events.now.points.now }
    ensures steps { (d : ℕ) → length events.now.points.now < 2 ^ d → steps.new ≤ steps.old + length events.now.points.now * (2 * d + 12) }
{
    for k in 0..events.points.len() as u32 {
        if !passes(events, &mut status, k, steps) {
            return false;
        }
    }
    true
}

// Passes event `k`: the edges that end there leave the status, and those that begin there enter it. It takes at most 2 d + 10 steps,
// where the status has fewer edges than 2 to the power d.
fn passes<L: Ledger>(events: &Events, status: &mut GapList, k: u32, steps: &mut Steps<L>) -> bool
    requires event { k < length events.now.points.now }
    requires status { IsStatus events.now.points.now events.now.ranks.now k status.old }
    ensures status { IsTrue result → IsStatus events.now.points.now events.now.ranks.now (k + 1) status.new }
    ensures length { IsTrue result → length status.new ≤ length status.old + 2 }
    ensures steps { (d : ℕ) → length status.old < 2 ^ d → steps.new ≤ steps.old + (2 * d + 10) }
{
    let v = events.order[k as usize];
    let (u, w) = (previous(events, v), next(events, v));
    match (events.ranks[u as usize] < k, events.ranks[w as usize] < k) {
        (true, true) => remove_both(events, status, u, v, steps),
        (true, false) => replace(events, status, u, v, steps),
        (false, true) => replace(events, status, v, u, steps),
        (false, false) => insert_both(events, status, u, v, w, steps),
    }
}
