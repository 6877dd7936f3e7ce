ghost use Rattle.std.specs.Prelude.{◌≡◌, ◌≢◌, ◌+◌, ◌<◌, ◌≤◌, ◌↔◌, ℕ, IsTrue, length, map};
ghost use Rattle.rings.specs.Chain.{point_at};
ghost use Rattle.rel_hull.specs.PathTurn.{IsPathTurn};
ghost use Rattle.rel_hull.specs.Table.{HasChainsBelow, IsStepping, IsTableOf, chain_at, table_points};
ghost use Rattle.rel_hull.specs.Told.{IsOnChain};

use crate::comparison::{halved_front, turn_at};
use exact_plane::{Direction, Pt, Steps, on_segment};
use ring_check::Ring;
use std::marker::Model;
use std::sync::ledger::Ledger;

/// The paths between each two of some points of a ring.
#[derive(Drop)]
pub struct ChainTable {
    count: u32,
    chains: Vec<Vec<Pt>>,
}

impl Model for ChainTable {
    ghost use Rattle.std.specs.Prelude.{map};
    ghost use Rattle.rel_hull.specs.Table.{Table};
    ghost use Rattle.rel_hull.specs.Told.{KeepsChains};

    ghost Value = { Table };

    ghost view = { λ table. record { count = table.count; chains = map (λ chain. chain.items) table.chains.items } };

    ghost invariant = { λ table. KeepsChains (record { count = table.count; chains = map (λ chain. chain.items) table.chains.items }) };
}

impl ChainTable {
    /// The table of `m` distinct points: chain `i * m + j` is the path from point i to point j in the ring.
    pub fn of(ring: &Ring, m: u32, chains: Vec<Vec<Pt>>) -> ChainTable
        requires { IsTableOf ring.now.corners (record { count = m; chains = map (λ chain. chain.items) chains.items }) }
        ensures count { result.count ≡ m }
        ensures chains { result.chains ≡ map (λ chain. chain.items) chains.items }
    {
        let _ring_is_simple = ring.len();
        ChainTable { count: m, chains }
    }

    // How many points there are.
    pub(crate) fn count(&self) -> u32
        ensures { result ≡ self.now.count }
    {
        self.count
    }

    /// The path from one point to another.
    pub fn chain(&self, i: u32, j: u32) -> &[Pt]
        requires first { i < self.now.count }
        requires second { j < self.now.count }
        ensures chain { result.now ≡ chain_at self.now i j }

        // What holds of every chain.
        ensures some { 0 < length result.now }
        ensures begins { point_at result.now 0 ≡ point_at (table_points self.now) i }
        ensures stepping { IsStepping result.now }
    {
        &self.chains[(i * self.count + j) as usize]
    }

    // Whether point `s` is on the path from point `a` to point `b`. If so, it is on the step of it that has the number of the last
    // step of the path from point `a` to it.
    pub(crate) fn passes<L: Ledger>(&self, a: u32, b: u32, s: u32, steps: &mut Steps<L>) -> bool
        requires first { a < self.now.count }
        requires second { b < self.now.count }
        requires third { s < self.now.count }
        requires apart { a ≢ s }
        ensures passes { IsTrue result ↔ IsOnChain (chain_at self.now a b) (point_at (table_points self.now) s) }
        ensures steps { steps.new ≤ steps.old + 3 }
    {
        // What holds of every table is told with its parts.
        let _count = self.count;
        let to = self.chain(a, s).len();
        let chain = self.chain(a, b);
        to <= chain.len() && on_segment(&self.chain(s, s)[0], &chain[to - 2], &chain[to - 1], steps)
    }

    // The turn from the path from point `s` to point `t` to the path to point `u`. Where the chains have fewer than 2^d points, it takes
    // at most d + 8 steps.
    pub(crate) fn turn<L: Ledger>(&self, s: u32, t: u32, u: u32, steps: &mut Steps<L>) -> Direction
        requires first { s < self.now.count }
        requires second { t < self.now.count }
        requires third { u < self.now.count }
        ensures turn { IsPathTurn (chain_at self.now s t) (chain_at self.now s u) result }
        ensures steps { (d : ℕ) → HasChainsBelow d self.now → steps.new ≤ steps.old + d + 8 }
    {
        // What holds of every table is told with its parts.
        let _count = self.count;
        let (first, second) = (self.chain(s, t), self.chain(s, u));
        let k = halved_front(first, second, steps);
        turn_at(&first[k - 1], &first[k..], &second[k..], steps)
    }
}
