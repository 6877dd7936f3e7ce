// What tells which points see each other.
ghost use Rattle.std.specs.Prelude.{◌≡◌, ◌+◌, ◌*◌, ◌<◌, ◌≤◌, ◌^◌, ◌↔◌, ℕ, IfOk, IsTrue, List, length};
ghost use Rattle.plane.specs.Point.{Point, whole};
ghost use Rattle.rings.specs.Sees.{Sees};
ghost use Rattle.taut_check.specs.Segments.{IsEnough};

use exact_plane::{Memory, Pt, Steps};
use inside_test::holds_segment;
use ring_check::Ring;
use std::alloc::Global;
use std::sync::ledger::Ledger;

/// What tells which points see each other in a ring.
pub trait Sight {
    /// It is of the ring with these vertices.
    ghost is_of: { Self → List Point → Type 0 };

    /// A question takes at most so many steps.
    ghost asks: { Self → ℕ → Type 0 };

    /// Whether two points see each other: each rational point of the segment between them is in the ring.
    fn sees<L: Ledger>(
        &self,
        alloc: Global,
        p: &Pt,
        q: &Pt,
        steps: &mut Steps<L>,
    ) -> Result<bool, Memory>
        ensures sees { (ring : List Point) → is_of self.now ring
            → IfOk result (λ sees. IsTrue sees ↔ Sees ring (whole p.now) (whole q.now)) }
        ensures steps { (most : ℕ) → asks self.now most → steps.new ≤ steps.old + most };
}

// By the points where the segment between them meets the edges.
#[derive(Clone, Copy)]
pub(crate) struct Segments<'a> {
    pub ring: &'a Ring,
}

impl<'a> Sight for Segments<'a> {
    ghost is_of = { λ segments ring. segments.ring.now.corners ≡ ring };

    ghost asks = { λ segments most. IsEnough (length segments.ring.now.corners) most };

    fn sees<L: Ledger>(
        &self,
        alloc: Global,
        p: &Pt,
        q: &Pt,
        steps: &mut Steps<L>,
    ) -> Result<bool, Memory> {
        holds_segment(alloc, self.ring, p, q, steps)
    }
}
