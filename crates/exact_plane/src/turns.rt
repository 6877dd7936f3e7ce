ghost use Rattle.std.specs.Prelude.{◌≡◌, ◌+◌, ◌↔◌, List, IsTrue};
ghost use Rattle.plane.specs.Point.{Point, whole};
ghost use Rattle.exact_plane.specs.Direction.{turn_of};
ghost use Rattle.exact_plane.specs.Spot.{IsNamed, point_named};

use crate::direction::Direction;
use crate::steps::Steps;
use std::sync::ledger::Ledger;

/// The name of a point. It tells nothing of coordinates.
#[derive(Clone, Copy, Debug, PartialEq, Eq)]
pub enum Spot {
    /// The corner with this number.
    Corner(u32),
    /// The point where a path begins.
    Start,
    /// The point where it ends.
    Goal,
}

/// Points that are asked about by their names: some corners, a start and a goal. It hands out no coordinate.
pub trait Turns {
    /// The corners, by their numbers.
    ghost corners: { Self → List Point };

    /// The point where a path begins.
    ghost start: { Self → Point };

    /// The point where it ends.
    ghost goal: { Self → Point };

    /// The turn on the way from `a` over `b` to `c`. It takes one step.
    fn turn<L: Ledger>(&self, a: Spot, b: Spot, c: Spot, steps: &mut Steps<L>) -> Direction
        requires a { IsNamed (corners self.now) a }
        requires b { IsNamed (corners self.now) b }
        requires c { IsNamed (corners self.now) c }
        ensures turn { let at = point_named (corners self.now) (start self.now) (goal self.now) in
            result ≡ turn_of (whole (at a)) (whole (at b)) (whole (at c)) }
        ensures steps { steps.new ≡ steps.old + 1 };

    /// Whether the two names stand for the same point. It takes one step.
    fn same<L: Ledger>(&self, a: Spot, b: Spot, steps: &mut Steps<L>) -> bool
        requires a { IsNamed (corners self.now) a }
        requires b { IsNamed (corners self.now) b }
        ensures same { let at = point_named (corners self.now) (start self.now) (goal self.now) in
            IsTrue result ↔ (at a ≡ at b) }
        ensures steps { steps.new ≡ steps.old + 1 };
}
