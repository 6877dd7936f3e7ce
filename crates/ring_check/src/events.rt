// The events of a sweep: the vertices of a list in lexicographic order, and the rank of each.
ghost use Rattle.std.specs.List.{All};
ghost use Rattle.std.specs.Prelude.{◌≡◌, ◌<◌, ◌≤◌, ◌^◌, ◌+◌, IfSome, IsTrue, length};
ghost use Rattle.plane.specs.Order.{IsBefore};
ghost use Rattle.rings.proofs.Sweeps.{events_are_one};
ghost use Rattle.rings.specs.Events.{AreEvents, IsEvent, next, previous};
ghost use Rattle.rings.specs.Ring.{vertex};

use edge_index::corner;
use exact_plane::{Pt, Steps, order};
use std::cmp::Ordering;
use std::sync::ledger::Ledger;

// A list of points, its vertices in lexicographic order by their numbers, and their ranks.
#[derive(Clone, Copy)]
pub(crate) struct Events<'a> {
    pub points: &'a [Pt],
    pub order: &'a [u32],
    pub ranks: &'a [u32],
    ghost three: { 3 ≤ length points.now },
    ghost small: { length points.now < 2 ^ 16 },
    ghost are: { AreEvents points.now order.now ranks.now } by { events_are_one points.now order.now ranks.now },
}

impl<'a> Events<'a> {
    // The events, where the order and the ranks are right: whoever made them has promised nothing. It takes at most a step a vertex.
    pub(crate) fn of<L: Ledger>(
        points: &'a [Pt],
        order: &'a [u32],
        ranks: &'a [u32],
        steps: &mut Steps<L>,
    ) -> Option<Events<'a>>
        requires three { 3 ≤ length points.now }
        requires small { length points.now < 2 ^ 16 }
        ensures points { IfSome result (λ events. events.points.now ≡ points.now) }
        ensures steps { steps.new ≤ steps.old + length points.now }
    {
        let n = points.len();
        if order.len() != n || ranks.len() != n || !are_below(order, n) || !are_below(ranks, n) {
            return None;
        }
        for k in 0..n as u32 {
            if !is_event(points, order, ranks, k, steps) {
                return None;
            }
        }
        Some(Events {
            points,
            order,
            ranks,
        })
    }
}

// Whether all of the numbers are below `n`.
fn are_below(numbers: &[u32], n: usize) -> bool
    ensures { IsTrue result → All (λ x. x < n) numbers.now }
{
    for i in 0..numbers.len() {
        if numbers[i] as usize >= n {
            return false;
        }
    }
    true
}

// Whether event `k` and vertex `k` have their ranks, and the event comes before the next. It takes at most one step.
fn is_event<L: Ledger>(
    points: &[Pt],
    order: &[u32],
    ranks: &[u32],
    k: u32,
    steps: &mut Steps<L>,
) -> bool
    requires small { length points.now < 2 ^ 32 }
    requires all_events { length order.now ≡ length points.now }
    requires all_ranks { length ranks.now ≡ length points.now }
    requires vertices { All (λ v. v < length points.now) order.now }
    requires places { All (λ k. k < length points.now) ranks.now }
    requires place { k < length points.now }
    ensures event { IsTrue result → IsEvent points.now order.now ranks.now k }
    ensures steps { steps.new ≤ steps.old + 1 }
{
    if order[ranks[k as usize] as usize] != k || ranks[order[k as usize] as usize] != k {
        return false;
    }
    k as usize + 1 == points.len()
        || is_before(points, order[k as usize], order[k as usize + 1], steps)
}

// Whether vertex `v` comes before vertex `w`. It takes one step.
fn is_before<L: Ledger>(points: &[Pt], v: u32, w: u32, steps: &mut Steps<L>) -> bool
    requires v { v < length points.now }
    requires w { w < length points.now }
    ensures before { IsTrue result → IsBefore (vertex points.now v) (vertex points.now w) }
    ensures steps { steps.new ≡ steps.old + 1 }
{
    order(
        &corner(points, v as usize),
        &corner(points, w as usize),
        steps,
    ) == Ordering::Less
}

// The vertex after vertex `v`.
pub(crate) fn next(events: &Events, v: u32) -> u32
    requires { v < length events.now.points.now }
    ensures number { result ≡ next (length events.now.ranks.now) v }
    ensures below { result < length events.now.points.now }
{
    if v as usize + 1 < events.ranks.len() {
        v + 1
    } else {
        0
    }
}

// The vertex before vertex `v`.
pub(crate) fn previous(events: &Events, v: u32) -> u32
    requires { v < length events.now.points.now }
    ensures number { result ≡ previous (length events.now.ranks.now) v }
    ensures below { result < length events.now.points.now }
{
    if 0 < v {
        v - 1
    } else {
        events.ranks.len() as u32 - 1
    }
}
