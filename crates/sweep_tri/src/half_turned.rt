// A board after a half turn of the plane.
ghost use Rattle.sweep_tri.specs.HalfTurn.{all_half_turned, half_turned};

use exact_plane::{Direction, Spot, Steps, Turns};
use std::sync::ledger::Ledger;

// The board whose points are opposite to those of another one. They have the same turns, and the other lexicographic order.
#[derive(Drop)]
pub(crate) struct HalfTurned<'a, T: Turns> {
    pub(crate) board: &'a T,
}

impl<'a, T: Turns> Turns for HalfTurned<'a, T> {
    ghost corners = { λ turned. all_half_turned (T.corners turned.board.now) };

    ghost start = { λ turned. half_turned (T.start turned.board.now) };

    ghost goal = { λ turned. half_turned (T.goal turned.board.now) };

    fn turn<L: Ledger>(&self, a: Spot, b: Spot, c: Spot, steps: &mut Steps<L>) -> Direction {
        self.board.turn(a, b, c, steps)
    }

    fn same<L: Ledger>(&self, a: Spot, b: Spot, steps: &mut Steps<L>) -> bool {
        self.board.same(a, b, steps)
    }
}
