ghost use Rattle.std.specs.List.{range_with_len};
ghost use Rattle.std.specs.Prelude.{◌≡◌, ◌+◌, ◌≤◌, IfOk, map};
ghost use Rattle.geo_gen.specs.Comb.{above, comb_goal, comb_list, comb_start};
ghost use Rattle.geo_gen.specs.declared.combs.TheConstants.{MAX_TEETH};

use exact_plane::{Memory, Pt};
use std::alloc::Global;

/// The most teeth of a comb: one more would have more vertices than a polygon of version 1 of the script may have.
pub const MAX_TEETH: u32 = 2047;

/// The vertices of the comb of `k` teeth, counterclockwise from the left end of the lower row.
pub fn comb(alloc: Global, k: u32) -> Result<Vec<Pt>, Memory>
    requires some { 1 ≤ k }
    requires few { k ≤ MAX_TEETH }
    ensures ok { IfOk result (λ points. points.items ≡ comb_list k) }
{
    let mut points = row(alloc, k, 0)?;
    let mut back = row(alloc, k, 2)?;
    back.reverse();
    points.extend_from_slice(&back)?;
    Ok(points)
}

/// The middle of the left end of every comb.
pub fn comb_start() -> Pt
    ensures { result ≡ comb_start }
{
    above(0, 1)
}

/// The middle of the right end of the comb of `k` teeth.
pub fn comb_goal(k: u32) -> Pt
    requires few { k ≤ MAX_TEETH }
    ensures { result ≡ comb_goal k }
{
    above(k, 1)
}

// The points `y` above the lower row, from left to right.
fn row(alloc: Global, k: u32, y: u32) -> Result<Vec<Pt>, Memory>
    requires few { k ≤ MAX_TEETH }
    requires low { y ≤ 2 }
    ensures { IfOk result (λ points. points.items ≡ map (λ i. above i y) (range_with_len 0 (k + 1))) }
{
    let mut points = Vec::new(alloc);
    for i in 0..k + 1 {
        points.push(above(i, y))?;
    }
    Ok(points)
}

// The point `y` above the lower row, at its place `i`.
fn above(i: u32, y: u32) -> Pt
    requires place { i ≤ MAX_TEETH }
    requires low { y ≤ 2 }
    ensures { result ≡ above i y }
{
    Pt::of((4 * i) as i64, (6 * (i % 2) + y) as i64).unwrap()
}
