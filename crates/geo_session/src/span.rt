// Some points in the polygon, and the paths between each two of them, from which a relative hull and its round are found.
ghost use Rattle.std.specs.Prelude.{◌≡◌, ◌↔◌, ◌≤◌, ◌<◌, ◌+◌, ◌*◌, ℕ, IfOk, IsTrue, OnOk, length, map, reverse, slice_index, slice_index_or, vec_capacity};
ghost use Rattle.plane.specs.declared.limits.TheConstants.{MAX_HULL};
ghost use Rattle.geo_session.specs.Hull.{AreFirsts};
ghost use Rattle.geo_session.specs.Span.{AreHeld, AreLocated, AreNumbered, AreTurned, IsNumberedTable, IsRepeated};

use crate::held::Held;
use exact_plane::{Memory, Pt, Steps, order};
use geo_text::Bad;
use rel_hull::ChainTable;
use shared_walks::{Stops, paths_from};
use std::alloc::Global;
use std::cmp::Ordering;
use std::sync::ledger::Ledger;

// The triangles of some points, the numbers of those that are distinct, and the paths between each two of these.
#[derive(Drop)]
pub(crate) struct Span {
    pub(crate) tris: Vec<u32>,
    pub(crate) numbers: Vec<u32>,
    pub(crate) chains: ChainTable,
}

impl Held {
    // What the sides of some points are found by, or the refusal of the first that is not in the polygon.
    pub(crate) fn span<L: Ledger>(
        &self,
        alloc: Global,
        points: &[Pt],
        steps: &mut Steps<L>,
    ) -> Result<Result<Span, Bad>, Memory>
        requires some { 1 ≤ length points.now }
        requires few { length points.now ≤ MAX_HULL }
        ensures numbered { IfOk result (AreNumbered self.now.ring.corners self.now.tris points.now) }
        ensures steps { let n = length self.now.ring.corners in let m = length points.now in steps.new ≤ steps.old + m * (3 * n + m * (4 * n + 1)) }
    {
        let tris = match self.located(alloc, points, steps)? {
            Ok(tris) => tris,
            Err(bad) => return Ok(Err(bad)),
        };
        let numbers = firsts(alloc, points, steps)?;
        let chains = self.chains(alloc, points, &tris, &numbers, steps)?;
        Ok(Ok(Span {
            tris,
            numbers,
            chains,
        }))
    }

    // The triangles of some points, or the refusal of the first that is in none.
    fn located<L: Ledger>(
        &self,
        alloc: Global,
        points: &[Pt],
        steps: &mut Steps<L>,
    ) -> Result<Result<Vec<u32>, Bad>, Memory>
        requires { length points.now ≤ MAX_HULL }
        ensures located { IfOk result (AreLocated self.now.ring.corners self.now.tris points.now) }
        ensures steps { steps.new ≤ steps.old + length points.now * (3 * length self.now.ring.corners) }
    {
        let mut tris = Vec::with_capacity(alloc, points.len())?;
        for k in 0..points.len() {
            match self.find(k as u32 + 1, &points[k], steps) {
                Ok(tri) => tris.push_reserved(tri),
                Err(bad) => return Ok(Err(bad)),
            }
        }
        Ok(Ok(tris))
    }

    // The table of the paths between each two of the numbered points.
    fn chains<L: Ledger>(
        &self,
        alloc: Global,
        points: &[Pt],
        tris: &[u32],
        numbers: &[u32],
        steps: &mut Steps<L>,
    ) -> Result<ChainTable, Memory>
        requires held { AreHeld self.now.ring.corners self.now.tris points.now (length points.now) tris.now }
        requires some { 1 ≤ length points.now }
        requires firsts { AreFirsts points.now numbers.now }
        requires few { length numbers.now ≤ MAX_HULL }
        ensures table { IfOk result (IsNumberedTable self.now.ring.corners points.now numbers.now) }
        ensures steps { steps.new ≤ steps.old + length numbers.now * length numbers.now * (4 * length self.now.ring.corners) }
    {
        let _ring_is_simple = self.ring.len();
        let m = numbers.len();
        let homes = at_places(alloc, tris, numbers)?;
        let ends = at_places(alloc, points, numbers)?;
        let mut chains = Vec::with_capacity(alloc, m * m)?;
        for r in 0..m {
            put_back(alloc, m, r, &mut chains)?;
            let stops = Stops {
                ring: &self.ring,
                mesh: &self.mesh,
                home: homes[r],
                start: &ends[r],
                tris: &homes[r..],
                points: &ends[r..],
            };
            let mut paths = paths_from(alloc, &stops, steps)?;
            chains.append(&mut paths)?;
        }
        Ok(ChainTable::of(&self.ring, m as u32, chains))
    }
}

// Appends the paths from the point of row `r` to those before it. They are read off the paths back, in the rows before of a table
// with `m` columns.
fn put_back(alloc: Global, m: usize, r: usize, chains: &mut Vec<Vec<Pt>>) -> Result<(), Memory>
    requires row { r < m }
    requires few { m ≤ MAX_HULL }
    requires rows { length chains.old.items ≡ r * m }
    requires room { m * m ≤ vec_capacity chains.old }
    ensures turned { OnOk result (AreTurned m r r (map (λ chain. chain.items) chains.old.items) (map (λ chain. chain.items) chains.new.items)) }
    ensures same_room { vec_capacity chains.new ≡ vec_capacity chains.old }
{
    for c in 0..r {
        let back = reversed(alloc, &chains[c * m + r])?;
        chains.push_reserved(back);
    }
    Ok(())
}

// The points in the other order.
fn reversed(alloc: Global, points: &[Pt]) -> Result<Vec<Pt>, Memory>
    ensures { IfOk result (λ back. back.items ≡ reverse points.now) }
{
    let mut back = points.to_vec(alloc)?;
    back.reverse();
    Ok(back)
}

// The numbers of the points that no earlier one is equal to.
fn firsts<L: Ledger>(alloc: Global, points: &[Pt], steps: &mut Steps<L>) -> Result<Vec<u32>, Memory>
    requires { length points.now ≤ MAX_HULL }
    ensures firsts { IfOk result (λ numbers. AreFirsts points.now numbers.items) }
    ensures few { IfOk result (λ numbers. length numbers.items ≤ length points.now) }
    ensures steps { steps.new ≤ steps.old + length points.now * length points.now }
{
    let mut numbers = Vec::new(alloc);
    for i in 0..points.len() {
        if !is_repeated(points, i, steps) {
            numbers.push(i as u32)?;
        }
    }
    Ok(numbers)
}

// Whether an earlier point is equal to point `i`.
fn is_repeated<L: Ledger>(points: &[Pt], i: usize, steps: &mut Steps<L>) -> bool
    requires { i < length points.now }
    ensures repeated { IsTrue result ↔ IsRepeated points.now i }
    ensures steps { steps.new ≤ steps.old + i }
{
    for j in 0..i {
        if order(&points[j], &points[i], steps) == Ordering::Equal {
            return true;
        }
    }
    false
}

// The items at these places.
pub(crate) fn at_places<T: Copy>(
    alloc: Global,
    items: &[T],
    places: &[u32],
) -> Result<Vec<T>, Memory>
    requires { (k : ℕ) → k < length places.now → slice_index places.now k < length items.now }
    ensures count { IfOk result (λ found. length found.items ≡ length places.now) }
    ensures items { IfOk result (λ found. (d : T) → found.items ≡ map (λ place. slice_index_or items.now place d) places.now) }
{
    let mut found = Vec::with_capacity(alloc, places.len())?;
    for place in places {
        found.push_reserved(items[*place as usize]);
    }
    Ok(found)
}
