// The funnel of a source at a diagonal, and the search in it.
ghost use Rattle.std.specs.Prelude.{◌≡◌, ◌≢◌, ◌+◌, ◌*◌, ◌^◌, ◌<◌, ◌≤◌, ◌↔◌, ℕ, List, IfOk, IsTrue, length, slice_index};
ghost use Rattle.plane.specs.Point.{Point, whole};
ghost use Rattle.rings.specs.Chain.{point_at};
ghost use Rattle.meshes.specs.Fits.{Fits, IsInTri, IsSideOfTwo};
ghost use Rattle.meshes.specs.Side.{tri_at};
ghost use Rattle.meshes.specs.declared.tri.Tri.{Tri};
ghost use Rattle.funnels.specs.Funnel.{IsPassed, IsReachedFrom};
ghost use Rattle.exact_plane.specs.Spot.{IsNamed, point_named};
ghost use Rattle.shared_seq.specs.Digits.{binary_digits};
ghost use Rattle.path_tree.specs.Listed.{AreNumbers, IsNextFunnel, IsFunnelAt, listed_points};
ghost use Rattle.path_tree.specs.Preceding.{IsPrecededBy};

use crate::name::spot;
use exact_plane::{Direction, Memory, Spot, Steps, Turns};
use shared_seq::SharedSeq;
use std::alloc::Global;
use std::marker::Model;
use std::sync::ledger::Ledger;

/// The funnel of a source at a diagonal: its points from the left end to the right one, by their numbers, where the count of
/// the corners stands for the source; and the place of its apex. No call changes a funnel.
#[derive(Drop)]
pub struct Funnel {
    list: SharedSeq,
    apex: u32,
}

// The edge before a place, by the numbers at its ends. Before the first place there is none.
#[derive(Clone, Copy)]
struct Edge {
    left: Option<u32>,
    right: u32,
    place: usize,
}

impl Model for Funnel {
    ghost use Rattle.path_tree.specs.Listed.{Listed};

    ghost Value = { Listed };

    ghost view = { λ funnel. record { list = funnel.list; apex = funnel.apex } };
}

impl Funnel {
    /// The first funnel: of the start in a triangle, at a side that another shares. It takes at most 195 steps.
    #[tactic(auto, using(crate::proofs::StepCounts::few_digits))]
    pub fn first<T: Turns, L: Ledger>(
        alloc: Global,
        board: &T,
        n: u32,
        left: u32,
        right: u32,
        steps: &mut Steps<L>,
    ) -> Result<Funnel, Memory>
        requires count { n ≡ length (T.corners board.now) }
        requires left { left < n }
        requires right { right < n }
        ensures funnel { IfOk result (λ f. (tris : List Tri) (home next : ℕ) → Fits (T.corners board.now) tris
            → IsInTri (T.corners board.now) (tri_at tris home) (whole (T.start board.now))
            → IsSideOfTwo tris right left home next → IsFunnelAt (T.corners board.now) (T.start board.now) left right 1 f) }
        ensures steps { steps.new ≤ steps.old + 195 }
    {
        let source = SharedSeq::single(alloc, n, steps)?;
        if board.same(Spot::Start, Spot::Corner(left), steps) {
            let list = source.push_back(alloc, right, steps)?;
            return Ok(Funnel { list, apex: 0 });
        }
        let front = source.push_front(alloc, left, steps)?;
        if board.same(Spot::Start, Spot::Corner(right), steps) {
            return Ok(Funnel {
                list: front,
                apex: 1,
            });
        }
        let list = front.push_back(alloc, right, steps)?;
        Ok(Funnel { list, apex: 1 })
    }

    /// The number of the point at a place.
    pub fn number<L: Ledger>(&self, place: usize, steps: &mut Steps<L>) -> u32
        requires { place < length self.now.list }
        ensures number { result ≡ slice_index self.now.list place }
        ensures steps { steps.new ≤ steps.old + 2 * binary_digits (length self.now.list) + 1 }
    {
        self.list.get(place, steps)
    }

    /// The place of the point from which `y` is reached. It takes at most b (4 b + 3) steps, b the number of binary digits of
    /// the count of the points.
    pub fn place<T: Turns, L: Ledger>(
        &self,
        board: &T,
        n: u32,
        y: Spot,
        steps: &mut Steps<L>,
    ) -> usize
        requires count { n ≡ length (T.corners board.now) }
        requires some { 0 < length self.now.list }
        requires numbers { AreNumbers n self.now.list }
        requires y_named { IsNamed (T.corners board.now) y }
        ensures reached { let at = point_named (T.corners board.now) (T.start board.now) (T.goal board.now) in
            IsReachedFrom (listed_points (T.corners board.now) (T.start board.now) self.now.list) self.now.apex result (whole (at y)) }
        ensures steps { let b = binary_digits (length self.now.list) in steps.new ≤ steps.old + b * (4 * b + 3) }
    {
        let mut search = self.list.search();
        let mut passed = None;
        while let Some(halves) = search.halves(steps) {
            let left = halves.before.last(steps).or(passed);
            let right = halves.value;
            let place = halves.after.low() - 1;
            if self.is_passed(board, n, Edge { left, right, place }, y, steps) {
                passed = Some(right);
                search = halves.after;
            } else {
                search = halves.before;
            }
        }
        search.low() - 1
    }

    // Whether the way to `y` passes an edge. The one before the first place counts as passed.
    fn is_passed<T: Turns, L: Ledger>(
        &self,
        board: &T,
        n: u32,
        edge: Edge,
        y: Spot,
        steps: &mut Steps<L>,
    ) -> bool
        requires within { edge.place < length self.now.list }
        requires left { IsPrecededBy self.now.list edge.place edge.left }
        requires right { edge.right ≡ slice_index self.now.list edge.place }
        requires count { n ≡ length (T.corners board.now) }
        requires numbers { AreNumbers n self.now.list }
        requires y_named { IsNamed (T.corners board.now) y }
        ensures passed { let at = point_named (T.corners board.now) (T.start board.now) (T.goal board.now) in
            0 < edge.place → (IsTrue result ↔ IsPassed (listed_points (T.corners board.now) (T.start board.now) self.now.list) self.now.apex edge.place (whole (at y))) }
        ensures first { edge.place ≡ 0 → IsTrue result }
        ensures steps { steps.new ≤ steps.old + 1 }
    {
        let Some(left) = edge.left else {
            return true;
        };
        let left = self.name(n, edge.place - 1, left);
        let right = self.name(n, edge.place, edge.right);
        if edge.place <= self.apex as usize {
            is_not_left(board.turn(right, left, y, steps))
        } else {
            board.turn(left, right, y, steps) == Direction::Right
        }
    }

    // The name of the point at a place, which has this number.
    fn name(&self, n: u32, place: usize, number: u32) -> Spot
        requires place { place < length self.now.list }
        requires number { number ≡ slice_index self.now.list place }
        requires numbers { AreNumbers n self.now.list }
        ensures named { (corners : List Point) → n ≡ length corners → IsNamed corners result }
        ensures point { (corners : List Point) (start goal : Point) → n ≡ length corners
            → point_named corners start goal result ≡ point_at (listed_points corners start self.now.list) place }
    {
        spot(number, n)
    }

    /// The funnel at the side from the left end to the corner `m` beyond, which is reached from the point at `place`.
    #[tactic(auto, using(shared_seq::proofs::Digits::binary_digits_sum))]
    pub fn to_right<L: Ledger>(
        &self,
        alloc: Global,
        place: usize,
        m: u32,
        steps: &mut Steps<L>,
    ) -> Result<Funnel, Memory>
        requires place { place < length self.now.list }
        requires apex { self.now.apex < length self.now.list }
        requires room { length self.now.list + 1 < 2 ^ 31 }
        ensures funnel { IfOk result (λ f. IsNextFunnel self.now place m (λ i j. (i, m)) f) }
        ensures steps { steps.new ≤ steps.old + 160 * (binary_digits (length self.now.list + 1) + 1) }
    {
        Ok(Funnel {
            list: self.list.take_then(alloc, place + 1, m, steps)?,
            apex: self.apex.min(place as u32),
        })
    }

    /// The funnel at the side from the corner `m` beyond to the right end.
    #[tactic(auto, using(shared_seq::proofs::Digits::binary_digits_sum))]
    pub fn to_left<L: Ledger>(
        &self,
        alloc: Global,
        place: usize,
        m: u32,
        steps: &mut Steps<L>,
    ) -> Result<Funnel, Memory>
        requires place { place < length self.now.list }
        requires apex { self.now.apex < length self.now.list }
        requires room { length self.now.list + 1 < 2 ^ 31 }
        ensures funnel { IfOk result (λ f. IsNextFunnel self.now place m (λ i j. (m, j)) f) }
        ensures steps { steps.new ≤ steps.old + 160 * (binary_digits (length self.now.list + 1) + 1) }
    {
        Ok(Funnel {
            list: self.list.then_skip(alloc, place, m, steps)?,
            apex: self.apex.saturating_sub(place as u32) + 1,
        })
    }
}

// Whether a turn goes straight on or to the right.
fn is_not_left(turn: Direction) -> bool
    ensures { IsTrue result ↔ (turn ≢ Direction.Left) }
{
    turn != Direction::Left
}
