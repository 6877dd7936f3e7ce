// Edges by the coordinates of their ends, which are read once.
ghost use Rattle.std.specs.Prelude.{◌≡◌, ◌+◌, ◌<◌, ◌≤◌, ◌^◌, ◌-ℤ◌, ◌≤ℤ◌, IsTrue, length, pos, unsigned_abs};
ghost use Rattle.rings.specs.Ring.{vertex};
ghost use Rattle.edge_index.specs.Probes.{EnclosesEdge, IsProbe, at};

use crate::place::{Place, Probe, Stretch};
use exact_plane::{BoundingBox, Pt, Steps};
use std::sync::ledger::Ledger;

impl Place {
    // That of this point.
    pub fn of<L: Ledger>(p: &Pt, steps: &mut Steps<L>) -> Place
        ensures x { result.x ≡ p.now.x }
        ensures y { result.y ≡ p.now.y }
        ensures steps { steps.new ≡ steps.old + 64 }
    {
        let (x, y) = p.parts(steps);
        Place { x, y }
    }

    // From here to another.
    pub fn to(&self, other: &Place) -> Stretch
        ensures across { result.across ≡ other.now.x -ℤ self.now.x }
        ensures up { result.up ≡ other.now.y -ℤ self.now.y }
    {
        Stretch {
            across: other.x - self.x,
            up: other.y - self.y,
        }
    }
}

impl Probe {
    /// Returns edge `e` of a list. It takes 256 steps.
    #[tactic(auto, using(exact_plane::proofs::CrossProduct::products))]
    pub fn of<L: Ledger>(points: &[Pt], e: usize, steps: &mut Steps<L>) -> Probe
        requires { e < length points.now }
        ensures probe { IsProbe result (vertex points.now e) (vertex points.now (e + 1)) }
        ensures steps { steps.new ≡ steps.old + 256 }
    {
        let from = Place::of(&corner(points, e), steps);
        let to = Place::of(&corner(points, e + 1), steps);
        let bounds = box_of_edge(points, e, steps);
        let way = from.to(&to);
        Probe {
            from,
            to,
            bounds,
            way,
            here: way.up * from.x - way.across * from.y,
        }
    }

    // Whether the ends are equal.
    pub(crate) fn is_point(&self) -> bool
        ensures { at self.now.from ≡ at self.now.to → IsTrue result }
    {
        self.from.x == self.to.x && self.from.y == self.to.y
    }
}

impl Stretch {
    // That of edge `e`.
    pub fn of<L: Ledger>(points: &[Pt], e: usize, steps: &mut Steps<L>) -> Stretch
        requires { e < length points.now }
        ensures { steps.new ≡ steps.old + 128 }
    {
        let from = Place::of(&corner(points, e), steps);
        from.to(&Place::of(&corner(points, e + 1), steps))
    }

    // How far it goes across and upward together.
    pub fn length(&self) -> i64
        ensures fits { unsigned_abs result < 2 ^ 25 }
        ensures not_negative { pos 0 ≤ℤ result }
    {
        self.across.abs() + self.up.abs()
    }
}

// The box round an edge. It takes 128 steps.
fn box_of_edge<L: Ledger>(points: &[Pt], e: usize, steps: &mut Steps<L>) -> BoundingBox
    requires { e < length points.now }
    ensures encloses { EnclosesEdge points.now result e }
    ensures steps { steps.new ≡ steps.old + 128 }
{
    BoundingBox::of(&[corner(points, e), corner(points, e + 1)], steps)
}

/// Returns vertex `i` of a list, counted round: vertex 0 is also behind the last one.
pub fn corner(points: &[Pt], i: usize) -> Pt
    requires some { 0 < length points.now }
    requires range { i ≤ length points.now }
    ensures { result ≡ vertex points.now i }
{
    if i < points.len() {
        points[i]
    } else {
        points[0]
    }
}
