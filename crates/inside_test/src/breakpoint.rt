// The points at which a segment may enter or leave a ring, in a form that is compared with no step.
ghost use Rattle.std.specs.Prelude.{◌≡◌, ◌↔◌, ◌+◌};
ghost use Rattle.plane.specs.Order.{Precedes};
ghost use Rattle.plane.specs.Point.{IsPoint, IsSame};
ghost use Rattle.exact_plane.specs.Size.{IsNarrow, IsSized};

use exact_plane::{Hom, Steps, compare};
use std::cmp::Ordering;
use std::sync::ledger::Ledger;

// A rational point, and its parts.
#[derive(Drop)]
pub(crate) struct Breakpoint {
    pub point: Hom,
    pub x: i128,
    pub y: i128,
    pub w: i128,
    ghost x_is: { x ≡ point.X },
    ghost y_is: { y ≡ point.Y },
    ghost w_is: { w ≡ point.W },
    ghost sized: { IsSized point },
    ghost narrow: { IsNarrow point },
}

impl Breakpoint {
    // This point, whose parts are read once.
    pub(crate) fn of<L: Ledger>(point: Hom, steps: &mut Steps<L>) -> Breakpoint
        requires { IsNarrow point }
        ensures point { result.point ≡ point }
        ensures rational { IsPoint point }
        ensures steps { steps.new ≡ steps.old + 64 }
    {
        let (x, y, w) = point.parts(steps);
        Breakpoint { point, x, y, w }
    }

    // Compares x, then y.
    pub(crate) fn order(&self, other: &Breakpoint) -> Ordering
        ensures less { (result ≡ Ordering.Less) ↔ Precedes self.now.point other.now.point }
        ensures equal { (result ≡ Ordering.Equal) ↔ IsSame self.now.point other.now.point }
    {
        let by_x = compare(self.x, self.w, other.x, other.w);
        by_x.then(compare(self.y, self.w, other.y, other.w))
    }
}
