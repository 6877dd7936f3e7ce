// The table of the predecessors on the paths between all pairs of vertices.
ghost use Rattle.std.specs.Prelude.{◌≤◌, ◌<◌, ◌+◌, ◌*◌, List, IfOk, OnOk, length, reverse};
ghost use Rattle.plane.specs.Point.{Point};
ghost use Rattle.meshes.specs.Fits.{Fits};
ghost use Rattle.shared_seq.specs.Digits.{binary_digits};
ghost use Rattle.pair_cut.specs.Pairs.{AreSights, IsMadeFor, IsPairPath};
ghost use Rattle.pair_cut.specs.Sights.{AreToldBefore};
ghost use Rattle.pair_cut.specs.declared.table.TheConstants.{MAX_PAIRED};

use crate::rows::row_from;
use exact_plane::{Memory, Steps, Turns};
use std::alloc::Global;
use std::marker::Model;
use std::sync::ledger::Ledger;
use tri_mesh::Mesh;

/// The most vertices of a polygon whose table is made.
pub const MAX_PAIRED: u32 = 1024;

/// For each two vertices i and j of a polygon what comes before vertex j on its path from vertex i, by its number; and for i
/// and i the number i.
#[derive(Drop)]
pub struct PairTable {
    before: Vec<Vec<u32>>,
}

impl Model for PairTable {
    ghost use Rattle.std.specs.Prelude.{List, ℕ, map};
    ghost use Rattle.pair_cut.specs.Rows.{IsTable};

    ghost Value = { List (List ℕ) };

    ghost view = { λ table. map (λ row. row.items) table.before.items };

    ghost invariant = { λ table. IsTable (map (λ row. row.items) table.before.items) };
}

impl PairTable {
    /// The table of the board's corners, with a mesh that fits them: a row from each vertex, outward over the triangles and with
    /// no tree of funnels. It takes at most 200 n n b b steps, n the number of the corners and b that of its binary digits.
    pub fn build<T: Turns, L: Ledger>(
        alloc: Global,
        board: &T,
        mesh: &Mesh,
        steps: &mut Steps<L>,
    ) -> Result<PairTable, Memory>
        requires fits { Fits (T.corners board.now) mesh.now }
        requires few { length (T.corners board.now) ≤ MAX_PAIRED }
        ensures made { IfOk result (IsMadeFor (T.corners board.now)) }
        ensures steps { let n = length (T.corners board.now) in let b = binary_digits n in steps.new ≤ steps.old + 200 * (n * n) * (b * b) }
    {
        let mut before = Vec::new(alloc);
        for i in 0..mesh.count() + 2 {
            before.push(row_from(alloc, board, mesh, i, steps)?)?;
        }
        Ok(PairTable { before })
    }

    /// The path from vertex `i` to vertex `j`, by the numbers of its points.
    pub fn pair(&self, alloc: Global, i: u32, j: u32) -> Result<Vec<u32>, Memory>
        requires first { i < length self.now }
        requires second { j < length self.now }
        ensures path { IfOk result (λ names. (ring : List Point) → IsMadeFor ring self.now → IsPairPath ring i j names.items) }
        ensures few { IfOk result (λ names. length names.items ≤ length self.now) }
    {
        let mut names = self.way_back(alloc, i, j)?;
        names.reverse();
        Ok(names)
    }

    // The numbers on the way back from vertex `j` to vertex `i`, by what comes before each.
    fn way_back(&self, alloc: Global, i: u32, j: u32) -> Result<Vec<u32>, Memory>
        requires first { i < length self.now }
        requires second { j < length self.now }
        ensures path { IfOk result (λ names. (ring : List Point) → IsMadeFor ring self.now → IsPairPath ring i j (reverse names.items)) }
        ensures few { IfOk result (λ names. length names.items ≤ length self.now) }
    {
        let row = &self.before[i as usize];
        let mut names = Vec::new(alloc);
        let mut at = j;
        while at != i {
            names.push(at)?;
            at = row[at as usize];
        }
        names.push(i)?;
        Ok(names)
    }

    /// The pairs of vertices i < j that see each other, sorted by i, then j.
    pub fn sights(&self, alloc: Global) -> Result<Vec<(u32, u32)>, Memory>
        ensures sights { IfOk result (λ pairs. (ring : List Point) → IsMadeFor ring self.now → AreSights ring pairs.items) }
        ensures few { IfOk result (λ pairs. length pairs.items ≤ length self.now * length self.now) }

        // What holds of every table.
        ensures small { length self.now ≤ MAX_PAIRED }
    {
        let mut pairs = Vec::new(alloc);
        for i in 0..self.before.len() as u32 {
            self.put_sights(i, &mut pairs)?;
        }
        Ok(pairs)
    }

    // Appends the pairs that see each other and begin with vertex `i`.
    fn put_sights(&self, i: u32, pairs: &mut Vec<(u32, u32)>) -> Result<(), Memory>
        requires vertex { i < length self.now }
        requires before { AreToldBefore self.now (i, 0) pairs.old.items }
        ensures told { OnOk result (AreToldBefore self.now (i + 1, 0) pairs.new.items) }
        ensures few { length pairs.new.items ≤ length pairs.old.items + length self.now }
    {
        let row = &self.before[i as usize];
        for j in i + 1..self.before.len() as u32 {
            if row[j as usize] == i {
                pairs.push((i, j))?;
            }
        }
        Ok(())
    }
}
