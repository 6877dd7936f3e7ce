ghost use Rattle.std.specs.Prelude.{◌≡◌};
ghost use Rattle.exact_plane.specs.Spot.{IsNamed, point_named};

use exact_plane::{Direction, Pt, Spot, Steps, Turns, order, turn};
use ring_check::Ring;
use std::cmp::Ordering;
use std::sync::ledger::Ledger;

/// The vertices of a ring, a start and a goal, to be asked about by their names.
#[derive(Drop)]
pub struct Board<'a> {
    ring: &'a Ring,
    start: Pt,
    goal: Pt,
}

impl<'a> Board<'a> {
    /// The board of these points.
    pub fn new(ring: &'a Ring, start: Pt, goal: Pt) -> Board<'a>
        ensures corners { ⟦<Board<'a> as Turns>⟧.corners result ≡ ring.now.corners }
        ensures start { ⟦<Board<'a> as Turns>⟧.start result ≡ start }
        ensures goal { ⟦<Board<'a> as Turns>⟧.goal result ≡ goal }
    {
        Board { ring, start, goal }
    }

    /// The board of a ring's vertices alone: its start and its goal are vertex 0.
    pub fn without_ends(ring: &'a Ring) -> Board<'a>
        ensures { ⟦<Board<'a> as Turns>⟧.corners result ≡ ring.now.corners }
    {
        let _ring_has_vertices = ring.len();
        let first = ring.corner(0);
        Board::new(ring, first, first)
    }

    /// The point with this name.
    pub fn point(&self, spot: Spot) -> Pt
        requires { IsNamed (⟦<Board<'a> as Turns>⟧.corners self.now) spot }
        ensures { result ≡ point_named (⟦<Board<'a> as Turns>⟧.corners self.now) (⟦<Board<'a> as Turns>⟧.start self.now) (⟦<Board<'a> as Turns>⟧.goal self.now) spot }
    {
        match spot {
            Spot::Corner(i) => self.ring.corner(i),
            Spot::Start => self.start,
            Spot::Goal => self.goal,
        }
    }
}

impl<'a> Turns for Board<'a> {
    ghost corners = { λ board. board.ring.now.corners };

    ghost start = { λ board. board.start };

    ghost goal = { λ board. board.goal };

    fn turn<L: Ledger>(&self, a: Spot, b: Spot, c: Spot, steps: &mut Steps<L>) -> Direction {
        turn(&self.point(a), &self.point(b), &self.point(c), steps)
    }

    fn same<L: Ledger>(&self, a: Spot, b: Spot, steps: &mut Steps<L>) -> bool {
        order(&self.point(a), &self.point(b), steps) == Ordering::Equal
    }
}
