// The status of a sweep: the edges that the sweep line meets, each below the next.
ghost use Rattle.std.specs.List.{All, remove};
ghost use Rattle.std.specs.Prelude.{◌≡◌, ◌+◌, ◌*◌, ◌<◌, ◌≤◌, ◌^◌, IsTrue, ℕ, length, slice_index};
ghost use Rattle.rings.specs.Status.{FitsAt, IsStacked, one, times};

use crate::edge_order::{Ends, ends_of, goes_below, is_below};
use crate::events::Events;
use crate::gap_list::GapList;
use exact_plane::Steps;
use std::sync::ledger::Ledger;

// Removes edges `u` and `v`, which end at vertex `v`, the first of them from vertex `u`. It answers false where they are not found
// or those beside them do not fit; nothing is known then. It takes at most 2 d + 4 steps, where there are fewer than 2 to the power d.
pub(crate) fn remove_both<L: Ledger>(
    events: &Events,
    status: &mut GapList,
    u: u32,
    v: u32,
    steps: &mut Steps<L>,
) -> bool
    requires stacked { IsStacked events.now.points.now events.now.ranks.now status.old }
    requires u { u < length events.now.points.now }
    requires v { v < length events.now.points.now }
    ensures stacked { IsTrue result → IsStacked events.now.points.now events.now.ranks.now status.new }
    ensures times { IsTrue result → (x : ℕ) → times x status.new + one x u + one x v ≡ times x status.old }
    ensures length { IsTrue result → length status.new ≤ length status.old }
    ensures steps { (d : ℕ) → length status.old < 2 ^ d → steps.new ≤ steps.old + (2 * d + 4) }
{
    let place = place_of(events, status, v, u, steps);
    if are_at(status, place, u, v) {
        return remove_two(events, status, place, steps);
    }
    place > 0 && are_at(status, place - 1, v, u) && remove_two(events, status, place - 1, steps)
}

// Whether edge `e` is at a place and edge `f` at the next.
fn are_at(status: &GapList, place: usize, e: u32, f: u32) -> bool
    requires { place ≤ length status.now }
    ensures inside { IsTrue result → place + 1 < length status.now }
    ensures first { IsTrue result → slice_index status.now place ≡ e }
    ensures second { IsTrue result → slice_index status.now (place + 1) ≡ f }
{
    status.len() - place > 1 && status.at(place) == e && status.at(place + 1) == f
}

// Removes the edges at a place and at the next. It answers false where those beside them do not fit; nothing is known then. It takes at
// most 2 steps.
fn remove_two<L: Ledger>(
    events: &Events,
    status: &mut GapList,
    place: usize,
    steps: &mut Steps<L>,
) -> bool
    requires stacked { IsStacked events.now.points.now events.now.ranks.now status.old }
    requires place { place + 1 < length status.old }
    ensures stacked { IsTrue result → IsStacked events.now.points.now events.now.ranks.now status.new }
    ensures items { status.new ≡ remove (remove status.old place) place }
    ensures steps { steps.new ≤ steps.old + 2 }
{
    status.remove_two(place);
    fits(events, status, place, steps)
}

// Puts edge `f`, which begins where edge `e` ends, in its place. It answers false where edge `e` is not found or those beside edge `f` do
// not fit; nothing is known then. It takes at most 2 d + 4 steps, where there are fewer edges than 2 to the power d.
pub(crate) fn replace<L: Ledger>(
    events: &Events,
    status: &mut GapList,
    e: u32,
    f: u32,
    steps: &mut Steps<L>,
) -> bool
    requires stacked { IsStacked events.now.points.now events.now.ranks.now status.old }
    requires e { e < length events.now.points.now }
    requires f { f < length events.now.points.now }
    ensures stacked { IsTrue result → IsStacked events.now.points.now events.now.ranks.now status.new }
    ensures times { IsTrue result → (x : ℕ) → times x status.new + one x e ≡ times x status.old + one x f }
    ensures length { length status.new ≤ length status.old }
    ensures steps { (d : ℕ) → length status.old < 2 ^ d → steps.new ≤ steps.old + (2 * d + 4) }
{
    let Ends { first, last } = ends_of(events, e);
    let place = place_of(events, status, last, first, steps);
    if place == status.len() || status.at(place) != e {
        return false;
    }
    status.set(place, f as u16);
    fits(events, status, place, steps) && fits(events, status, place + 1, steps)
}

// Inserts edges `u` and `v`, which begin at vertex `v` and go to vertices `u` and `w`. It answers false where those beside them do
// not fit or memory is refused; nothing is known then. It takes at most 2 d + 10 steps, where there are fewer than 2 to the power d.
pub(crate) fn insert_both<L: Ledger>(
    events: &Events,
    status: &mut GapList,
    u: u32,
    v: u32,
    w: u32,
    steps: &mut Steps<L>,
) -> bool
    requires stacked { IsStacked events.now.points.now events.now.ranks.now status.old }
    requires u { u < length events.now.points.now }
    requires v { v < length events.now.points.now }
    requires w { w < length events.now.points.now }
    ensures stacked { IsTrue result → IsStacked events.now.points.now events.now.ranks.now status.new }
    ensures times { IsTrue result → (x : ℕ) → times x status.new ≡ times x status.old + one x u + one x v }
    ensures length { IsTrue result → length status.new ≤ length status.old + 2 }
    ensures steps { (d : ℕ) → length status.old < 2 ^ d → steps.new ≤ steps.old + (2 * d + 10) }
{
    let place = place_of(events, status, v, u, steps);
    if goes_below(events, u, v, w, steps) {
        insert_two(events, status, place, u, v, steps)
    } else {
        insert_two(events, status, place, v, u, steps)
    }
}

// Inserts edge `e` at this place, and edge `f` above it. It answers false where those beside them do not fit or memory is refused;
// nothing is known then. It takes at most 6 steps.
fn insert_two<L: Ledger>(
    events: &Events,
    status: &mut GapList,
    place: usize,
    e: u32,
    f: u32,
    steps: &mut Steps<L>,
) -> bool
    requires stacked { IsStacked events.now.points.now events.now.ranks.now status.old }
    requires place { place ≤ length status.old }
    requires e { e < length events.now.points.now }
    requires f { f < length events.now.points.now }
    ensures stacked { IsTrue result → IsStacked events.now.points.now events.now.ranks.now status.new }
    ensures times { IsTrue result → (x : ℕ) → times x status.new ≡ times x status.old + one x e + one x f }
    ensures length { IsTrue result → length status.new ≤ length status.old + 2 }
    ensures steps { steps.new ≤ steps.old + 6 }
{
    if !status.insert_two(place, e as u16, f as u16) {
        return false;
    }
    fit_three(events, status, place, steps)
}

// The place for the edge between vertices `v` and `w`, which begins or ends at `v`, by binary search. Only a place is
// promised: what is found there is tested. It takes at most 2 d steps, where there are fewer edges than 2 to the power d.
fn place_of<L: Ledger>(
    events: &Events,
    status: &GapList,
    v: u32,
    w: u32,
    steps: &mut Steps<L>,
) -> usize
    requires edges { All (λ e. e < length events.now.points.now) status.now }
    requires v { v < length events.now.points.now }
    requires w { w < length events.now.points.now }
    ensures place { result ≤ length status.now }
    ensures steps { (d : ℕ) → length status.now < 2 ^ d → steps.new ≤ steps.old + 2 * d }
{
    let (mut low, mut high) = (0, status.len());
    while low < high {
        let middle = low + (high - low) / 2;
        if goes_below(events, status.at(middle), v, w, steps) {
            low = middle + 1;
        } else {
            high = middle;
        }
    }
    low
}

// Whether the edge at a place is above the one before it, where there are both. It takes at most 2 steps.
fn fits<L: Ledger>(events: &Events, status: &GapList, place: usize, steps: &mut Steps<L>) -> bool
    requires { All (λ e. e < length events.now.points.now) status.now }
    ensures fits { IsTrue result → FitsAt events.now.points.now events.now.ranks.now status.now place }
    ensures steps { steps.new ≤ steps.old + 2 }
{
    if place == 0 || place >= status.len() {
        return true;
    }
    is_below(events, status.at(place - 1), status.at(place), steps)
}

// The same at a place and at the two behind it. It takes at most 6 steps.
fn fit_three<L: Ledger>(
    events: &Events,
    status: &GapList,
    place: usize,
    steps: &mut Steps<L>,
) -> bool
    requires edges { All (λ e. e < length events.now.points.now) status.now }
    requires place { place + 2 < 2 ^ 64 }
    ensures first { IsTrue result → FitsAt events.now.points.now events.now.ranks.now status.now place }
    ensures second { IsTrue result → FitsAt events.now.points.now events.now.ranks.now status.now (place + 1) }
    ensures third { IsTrue result → FitsAt events.now.points.now events.now.ranks.now status.now (place + 2) }
    ensures steps { steps.new ≤ steps.old + 6 }
{
    if !fits(events, status, place, steps) {
        return false;
    }
    if !fits(events, status, place + 1, steps) {
        return false;
    }
    fits(events, status, place + 2, steps)
}
