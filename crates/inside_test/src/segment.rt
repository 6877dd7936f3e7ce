// Whether a segment lies in a ring.
ghost use Rattle.std.specs.List.{AllAdjacentBelow};
ghost use Rattle.std.specs.Prelude.{◌↔◌, ◌+◌, ◌*◌, ◌-◌, ◌<◌, ◌≤◌, ◌^◌, ℕ};
ghost use Rattle.std.specs.Prelude.{IfNone, IfOk, IfSome, IsTrue, false, length, min};
ghost use Rattle.plane.specs.Line.{mediant};
ghost use Rattle.plane.specs.Point.{whole};
ghost use Rattle.rings.specs.Inside.{IsIn};
ghost use Rattle.rings.specs.Sees.{Sees};

use crate::breakpoint::Breakpoint;
use crate::edge_meetings::breakpoints;
use crate::position::{Position, place_hom};
use exact_plane::{Hom, Memory, Pt, Steps};
use ring_check::Ring;
use std::alloc::Global;
use std::sync::ledger::Ledger;

/// Whether the segment from `a` to `b` lies in the ring: each rational point of it does. It may run along edges and
/// touch them. For n vertices, n below 2 to the power d, it takes at most 2560 n n + 3000 n (d + 2) steps: each vertex can be where
/// the segment meets the boundary, and it is placed between each two of these points. No command reaches it: the command `check` calls
/// `holds_segment_within`, and finds the path between `a` and `b` if that returns `None`.
pub fn holds_segment<L: Ledger>(
    alloc: Global,
    ring: &Ring,
    a: &Pt,
    b: &Pt,
    steps: &mut Steps<L>,
) -> Result<bool, Memory>
    ensures holds { IfOk result (λ holds. IsTrue holds ↔ Sees ring.now.corners (whole a.now) (whole b.now)) }
    ensures steps { (d : ℕ) → let n = length ring.now.corners in n < 2 ^ d
        → steps.new ≤ steps.old + (2560 * (n * n) + 3000 * (n * (d + 2))) }
{
    let _ring_has_vertices = ring.len();
    match holds_segment_within(alloc, ring, a, b, usize::MAX, steps)? {
        Some(holds) => Ok(holds),
        None => unreachable!(),
    }
}

/// The same where the segment meets the boundary at no more than `most` points that are listed, its ends among them, and `None` where there
/// are more. It takes at most 1179 n + 386 steps for n vertices, and 1280 n + 65 for each of the points.
pub fn holds_segment_within<L: Ledger>(
    alloc: Global,
    ring: &Ring,
    a: &Pt,
    b: &Pt,
    most: usize,
    steps: &mut Steps<L>,
) -> Result<Option<bool>, Memory>
    ensures holds { IfOk result (λ found. IfSome found (λ holds. IsTrue holds ↔ Sees ring.now.corners (whole a.now) (whole b.now))) }
    ensures more { IfOk result (λ found. IfNone found (most < 2 * length ring.now.corners + 2)) }
    ensures steps { let n = length ring.now.corners in
        steps.new ≤ steps.old + (1179 * n + 386 + min most (2 * n + 2) * (1280 * n + 65)) }
{
    let Some(mut points) = breakpoints(alloc, ring, a, b, most, steps)? else {
        return Ok(None);
    };
    points.sort_unstable_by(|p, q| p.order(q));
    Ok(Some(holds_mediants(ring, &points, steps)))
}

// Whether the mediant of each two neighbours is in the ring.
fn holds_mediants<L: Ledger>(ring: &Ring, points: &[Breakpoint], steps: &mut Steps<L>) -> bool
    ensures hold { IsTrue result
        ↔ AllAdjacentBelow (λ p q. IsIn ring.now.corners (mediant p.point q.point)) points.now (length points.now) }
    ensures steps { steps.new ≤ steps.old + (length points.now - 1) * (1280 * length ring.now.corners + 65) }
{
    for i in 1..points.len() {
        if !holds_mediant(ring, &points[i - 1], &points[i], steps) {
            return false;
        }
    }
    true
}

// Whether the mediant of two points is in the ring.
fn holds_mediant<L: Ledger>(
    ring: &Ring,
    p: &Breakpoint,
    q: &Breakpoint,
    steps: &mut Steps<L>,
) -> bool
    ensures holds { IsTrue result ↔ IsIn ring.now.corners (mediant p.now.point q.now.point) }
    ensures steps { steps.new ≤ steps.old + (1280 * length ring.now.corners + 65) }
{
    let between = Hom::between(&p.point, &q.point, steps);
    match place_hom(ring, &between, steps) {
        Position::Inside | Position::Edge => true,
        Position::Outside => false,
    }
}
