// The paths between pairs of vertices, and which of them see each other.
ghost use Rattle.std.specs.Prelude.{◌≡◌, IfOk, length};

use crate::named::meshed;
use dual_tree::Board;
use exact_plane::{Memory, Steps};
use pair_cut::{MAX_PAIRED, PairTable};
use std::alloc::Global;
use std::process::Abort;
use std::sync::ledger::Ledger;

#[rattlefmt::skip]
const L_SIGHTS: [(u32, u32); 12] =
    [(0, 1), (0, 2), (0, 3), (0, 4), (0, 5), (1, 2), (1, 3), (1, 5), (2, 3), (3, 4), (3, 5), (4, 5)];

pub(crate) fn paths_and_sights_of_all_pairs<N: Ledger, R: Abort>(
    rt: &R,
    alloc: Global,
    steps: &mut Steps<N>,
) -> Result<(), Memory> {
    let (_, table) = table_of(rt, alloc, "L", steps)?;
    let sights = table.sights(alloc)?;
    assert!(rt; sights.as_slice() == L_SIGHTS.as_slice());
    paths(rt, alloc, steps)
}

fn paths<N: Ledger, R: Abort>(rt: &R, alloc: Global, steps: &mut Steps<N>) -> Result<(), Memory> {
    let cases: [(&str, &str, u32, u32, &[u32]); 5] = [
        ("round a corner", "L", 2, 4, &[2, 3, 4]),
        ("past a corner", "L", 1, 5, &[1, 5]),
        ("nowhere", "L", 3, 3, &[3]),
        ("round two corners", "U", 2, 7, &[2, 4, 5, 7]),
        ("and back", "U", 7, 2, &[7, 5, 4, 2]),
    ];
    for (name, polygon, i, j, want) in cases {
        let names = pair_in(rt, alloc, polygon, i, j, steps)?;
        assert!(rt; names.as_slice() == want, "{name}");
    }
    Ok(())
}

fn pair_in<N: Ledger, R: Abort>(
    rt: &R,
    alloc: Global,
    polygon: &str,
    i: u32,
    j: u32,
    steps: &mut Steps<N>,
) -> Result<Vec<u32>, Memory> {
    let (count, table) = table_of(rt, alloc, polygon, steps)?;
    assert!(rt; i < count);
    assert!(rt; j < count);
    table.pair(alloc, i, j)
}

// How many vertices the polygon with this name has, and its table.
fn table_of<N: Ledger, R: Abort>(
    rt: &R,
    alloc: Global,
    name: &str,
    steps: &mut Steps<N>,
) -> Result<(u32, PairTable), Memory>
    ensures { IfOk result (λ made. length made.1 ≡ made.0) }
{
    let (ring, mesh) = meshed(rt, alloc, name, steps)?;
    let count = ring.len();
    assert!(rt; count <= MAX_PAIRED);
    let board = Board::without_ends(&ring);
    let table = PairTable::build(alloc, &board, &mesh, steps)?;
    Ok((count, table))
}
