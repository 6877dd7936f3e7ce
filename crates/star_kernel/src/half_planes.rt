ghost use Rattle.std.specs.Prelude.{◌≡◌, ◌+◌, ◌-◌, ◌*◌, ◌^◌, ◌<◌, ◌≤◌, ℕ, IfOk, OnOk, length};
ghost use Rattle.plane.specs.Cut.{IsUncut};
ghost use Rattle.plane.specs.Point.{IsInBounds, whole};
ghost use Rattle.plane.specs.Region.{IsCornerList};
ghost use Rattle.rings.specs.Kernel.{IsInKernel, IsKernel};
ghost use Rattle.rings.specs.Ring.{vertex};
ghost use Rattle.star_kernel.specs.HalfPlanes.{IsLeftOfBelow};

use crate::directions::by_direction;
use exact_plane::{Hom, Memory, Steps};
use half_cut::Region;
use ring_check::Ring;
use std::alloc::Global;
use std::sync::ledger::Ledger;

// So many corners are looked at in no time.
const FEW: u32 = 32;

/// The corners of the kernel: nothing, a point, the two ends of a segment, or the corners of a strictly convex polygon,
/// counterclockwise from the lexicographically least.
pub fn kernel<L: Ledger>(
    alloc: Global,
    ring: &Ring,
    steps: &mut Steps<L>,
) -> Result<Vec<Hom>, Memory>
    ensures kernel { IfOk result (λ corners. IsKernel ring.now.corners corners.items) }
    ensures few { IfOk result (λ corners. length corners.items ≤ length ring.now.corners + 4) }
    ensures steps { (d : ℕ) → length ring.now.corners + 4 < 2 ^ d
        → steps.new ≤ steps.old + length ring.now.corners * (2 * d + 143) + 4 }
{
    coordinate_bounds(ring);
    let region = inner_side(alloc, ring, steps)?;
    corners_of(alloc, &region)
}

// That all vertices are within the limit. It takes no step.
fn coordinate_bounds(ring: &Ring)
    ensures { (k : ℕ) → k < length ring.now.corners → IsInBounds (vertex ring.now.corners k) }
{
    for k in 0..ring.len() {
        ring.corner(k).coordinate_bounds();
    }
}

// What is right of no edge: the square of all points, cut by the line of every edge. While little is left, as in most rings, the
// edges cut it as they come; once nothing is, no other is looked at.
fn inner_side<L: Ledger>(alloc: Global, ring: &Ring, steps: &mut Steps<L>) -> Result<Region, Memory>
    requires bounds { (k : ℕ) → k < length ring.now.corners → IsInBounds (vertex ring.now.corners k) }
    ensures kernel { IfOk result (λ region. IsCornerList (IsInKernel ring.now.corners) region.corners) }
    ensures few { IfOk result (λ region. length region.corners ≤ length ring.now.corners + 4) }
    ensures steps { (d : ℕ) → length ring.now.corners + 4 < 2 ^ d
        → steps.new ≤ steps.old + length ring.now.corners * (2 * d + 143) + 4 }
{
    let mut region = Region::all(alloc)?;
    let n = ring.len();
    let mut first = 0;
    while first < n && region.count() <= FEW {
        if region.count() == 0 {
            return Ok(region);
        }
        cut_along(alloc, ring, first, &mut region, steps)?;
        first += 1;
    }
    cut_by_rest(alloc, ring, first, region, steps)
}

// What is left of a region that the edges before number `first` have cut, where the others cut it too. In the order of their
// directions each cut is beside the one before.
fn cut_by_rest<L: Ledger>(
    alloc: Global,
    ring: &Ring,
    first: u32,
    mut region: Region,
    steps: &mut Steps<L>,
) -> Result<Region, Memory>
    requires within { first ≤ length ring.now.corners }
    requires cut { IsCornerList (IsLeftOfBelow ring.now.corners first) region.corners }
    requires bounds { (k : ℕ) → k < length ring.now.corners → IsInBounds (vertex ring.now.corners k) }
    requires few { length region.corners ≤ first + 4 }
    ensures kernel { IfOk result (λ region. IsCornerList (IsInKernel ring.now.corners) region.corners) }
    ensures few { IfOk result (λ region. length region.corners ≤ length ring.now.corners + 4) }
    ensures steps { (d : ℕ) → length ring.now.corners + 4 < 2 ^ d
        → steps.new ≤ steps.old + length region.corners + (length ring.now.corners - first) * (2 * d + 143) }
{
    // What holds of every ring is told with its length.
    let _corners = ring.len();
    let edges = by_direction(alloc, ring, first, steps)?;
    for i in 0..edges.len() {
        if region.count() == 0 {
            return Ok(region);
        }
        cut_along(alloc, ring, edges[i].number, &mut region, steps)?;
    }
    Ok(region)
}

// Cuts a region along an edge.
fn cut_along<L: Ledger>(
    alloc: Global,
    ring: &Ring,
    number: u32,
    region: &mut Region,
    steps: &mut Steps<L>,
) -> Result<(), Memory>
    requires number { number < length ring.now.corners }
    requires few { length region.old.corners < 2 ^ 31 }
    ensures cut { OnOk result (IsCornerList
        (IsUncut (whole (vertex ring.now.corners number)) (whole (vertex ring.now.corners (number + 1))) region.old.corners) region.new.corners) }
    ensures few { OnOk result (length region.new.corners ≤ length region.old.corners + 1) }
    ensures steps { (d : ℕ) → length region.old.corners < 2 ^ d
        → steps.new + length region.new.corners ≤ steps.old + length region.old.corners + 2 * d + 15 }
{
    // What holds of every ring is told with its length.
    let _corners = ring.len();
    region.cut_away(alloc, &ring.corner(number), &ring.next(number), steps)
}

// The corners of a region, as a list.
fn corners_of(alloc: Global, region: &Region) -> Result<Vec<Hom>, Memory>
    ensures { IfOk result (λ corners. corners.items ≡ region.now.corners) }
{
    let mut corners = Vec::with_capacity(alloc, region.count() as usize)?;
    for i in 0..region.count() {
        corners.push_reserved(region.corner(i));
    }
    Ok(corners)
}
