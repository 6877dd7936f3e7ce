// The vertices that are taken and still have triangles to come.
ghost use Rattle.std.specs.List.{All};
ghost use Rattle.std.specs.Prelude.{◌≡◌, ◌+◌, ◌<◌, ◌≤◌, ◌↔◌, ℕ, [], ◌∷◌, ◌++◌, IfOk, IsTrue, List, OnOk, length};
ghost use Rattle.meshes.specs.Fits.{IsCounterclockwiseTri};
ghost use Rattle.meshes.specs.declared.tri.Tri.{Tri};
ghost use Rattle.mono_fill.specs.Sides.{fan, other_chain_side};
ghost use Rattle.mono_fill.specs.Stacks.{ArePopped, Extends, IsSettled, last_of};

use crate::side::Side;
use exact_plane::{Direction, Memory, Spot, Steps, Turns};
use meshes::Tri;
use std::alloc::Global;
use std::sync::ledger::Ledger;

// Vertices that rise, of one chain but for the first.
#[derive(Drop)]
pub(crate) struct Stack {
    pub(crate) side: Side,
    pub(crate) vertices: Vec<u32>,
}

impl Stack {
    // The stack with the least vertex alone, with room for so many.
    pub(crate) fn new(alloc: Global, least: u32, room: usize) -> Result<Stack, Memory>
        ensures side { IfOk result (λ stack. stack.side ≡ Side.Lower) }
        ensures vertices { IfOk result (λ stack. stack.vertices.items ≡ least ∷ []) }
    {
        let mut vertices = Vec::with_capacity(alloc, room)?;
        vertices.push(least)?;
        Ok(Stack {
            side: Side::Lower,
            vertices,
        })
    }

    // Goes on to the vertex `x` of the same chain, and cuts off the triangles where the stack turns strictly inward to it.
    pub(crate) fn go_on<T: Turns, L: Ledger>(
        &mut self,
        board: &T,
        x: u32,
        out: &mut Vec<Tri>,
        steps: &mut Steps<L>,
    ) -> Result<(), Memory>
        requires some { 0 < length self.old.vertices.items }
        requires numbers { All (λ i. i < length (T.corners board.now)) self.old.vertices.items }
        requires number { x < length (T.corners board.now) }
        ensures side { self.new.side ≡ self.old.side }
        ensures gone_on { OnOk result ((kept : List ℕ) × (self.new.vertices.items ≡ kept ++ x ∷ [])
            × IsSettled (T.corners board.now) self.old.side x kept
            × ((tris : List Tri) × (out.new.items ≡ out.old.items ++ tris)
            × ArePopped (T.corners board.now) self.old.side x self.old.vertices.items kept tris)) }
        ensures extended { Extends out.old.items out.new.items }
        ensures steps { steps.new + length self.new.vertices.items ≤ steps.old + length self.old.vertices.items + 2 }
    {
        self.pop_to(board, x, out, steps)?;
        self.vertices.push(x)?;
        Ok(())
    }

    // Cuts off the triangles where the stack turns strictly inward to the vertex `x`.
    fn pop_to<T: Turns, L: Ledger>(
        &mut self,
        board: &T,
        x: u32,
        out: &mut Vec<Tri>,
        steps: &mut Steps<L>,
    ) -> Result<(), Memory>
        requires some { 0 < length self.old.vertices.items }
        requires numbers { All (λ i. i < length (T.corners board.now)) self.old.vertices.items }
        requires number { x < length (T.corners board.now) }
        ensures side { self.new.side ≡ self.old.side }
        ensures settled { OnOk result (IsSettled (T.corners board.now) self.old.side x self.new.vertices.items) }
        ensures popped { OnOk result ((tris : List Tri) × (out.new.items ≡ out.old.items ++ tris)
            × ArePopped (T.corners board.now) self.old.side x self.old.vertices.items self.new.vertices.items tris) }
        ensures extended { Extends out.old.items out.new.items }
        ensures steps { steps.new + length self.new.vertices.items ≤ steps.old + length self.old.vertices.items + 1 }
    {
        while self.vertices.len() > 1 {
            let top = self.vertices.len() - 1;
            let tri = self
                .side
                .triangle(self.vertices[top - 1], self.vertices[top], x);
            if !is_counterclockwise(board, &tri, steps) {
                break;
            }
            out.push(tri)?;
            self.vertices.truncate(top);
        }
        Ok(())
    }

    // Goes on to the vertex `x` of the other chain, and cuts off the fan to it.
    pub(crate) fn cross(&mut self, x: u32, out: &mut Vec<Tri>) -> Result<(), Memory>
        requires some { 0 < length self.old.vertices.items }
        ensures side { OnOk result (self.new.side ≡ other_chain_side self.old.side) }
        ensures vertices { OnOk result (self.new.vertices.items ≡ last_of self.old.vertices.items ∷ x ∷ []) }
        ensures fan { OnOk result (out.new.items ≡ out.old.items ++ fan self.old.side x self.old.vertices.items) }
        ensures extended { Extends out.old.items out.new.items }
    {
        self.fan(x, out)?;
        let top = self.vertices[self.vertices.len() - 1];
        self.vertices.clear();
        self.vertices.push(top)?;
        self.vertices.push(x)?;
        self.side = self.side.opposite();
        Ok(())
    }

    // Appends the triangles of the vertex `x` and each two vertices that follow one another.
    pub(crate) fn fan(&self, x: u32, out: &mut Vec<Tri>) -> Result<(), Memory>
        ensures fan { OnOk result (out.new.items ≡ out.old.items ++ fan self.now.side x self.now.vertices.items) }
        ensures extended { Extends out.old.items out.new.items }
    {
        for pair in self.vertices.windows(2) {
            out.push(self.side.triangle(pair[0], pair[1], x))?;
        }
        Ok(())
    }
}

// Whether the corners of a triangle run counterclockwise. It takes one step.
fn is_counterclockwise<T: Turns, L: Ledger>(board: &T, tri: &Tri, steps: &mut Steps<L>) -> bool
    requires a { tri.now.a < length (T.corners board.now) }
    requires b { tri.now.b < length (T.corners board.now) }
    requires c { tri.now.c < length (T.corners board.now) }
    ensures turn { IsTrue result ↔ IsCounterclockwiseTri (T.corners board.now) tri.now }
    ensures steps { steps.new ≡ steps.old + 1 }
{
    let turn = board.turn(
        Spot::Corner(tri.a),
        Spot::Corner(tri.b),
        Spot::Corner(tri.c),
        steps,
    );
    is_left(turn)
}

// Whether a turn is strictly to the left.
fn is_left(turn: Direction) -> bool
    ensures { IsTrue result ↔ (turn ≡ Direction.Left) }
{
    turn == Direction::Left
}
