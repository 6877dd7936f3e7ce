// The vertex of a piece that a diagonal from its first vertex goes to.
ghost use Rattle.std.specs.Prelude.{◌≡◌, ◌+◌, ◌-◌, ◌*◌, ◌<◌, ◌≤◌, ◌^◌, ◌↔◌, ◌*ℤ◌, ◌-ℤ◌, ℕ, IsTrue, IfSome, IfNone, length, unsigned_abs};
ghost use Rattle.plane.specs.Point.{whole};
ghost use Rattle.plane.specs.Triangle.{IsInTriangle, height_over};
ghost use Rattle.plane.specs.Turn.{IsLeft, determinant};
ghost use Rattle.rings.specs.Ring.{vertex};
ghost use Rattle.cut_tri.specs.Cut.{IsPlaceInCorner};
ghost use Rattle.cut_tri.specs.Corner.{IsFarther, IsFartherOf, IsFarthestBelow};
ghost use Rattle.cut_tri.specs.Piece.{HasNumbers, piece_vertex};

use exact_plane::{Pt, Steps, in_triangle};
use ring_check::Ring;
use std::sync::ledger::Ledger;

// The triangle at the first vertex of a piece, counterclockwise.
#[derive(Drop)]
struct Corner {
    u: Pt,
    v: Pt,
    w: Pt,
}

// A vertex in the triangle, and how far it is from the line through u and w.
#[derive(Clone, Copy)]
pub(crate) struct Candidate {
    height: i64,
    number: u32,
    place: usize,
}

impl Candidate {
    // Whether this one is farther; of two as far, the one with the lesser number is.
    fn is_farther(&self, other: &Candidate) -> bool
        ensures { IsTrue result ↔ IsFarther self.now other.now }
    {
        self.height > other.height || (self.height == other.height && self.number < other.number)
    }
}

// The place of the vertex in the closed triangle of the first vertex and the two beside it that is farthest from the line
// through those two, and none of the three; of several the one with the least number. It takes at most 259 steps for each of the others.
pub(crate) fn farthest<L: Ledger>(ring: &Ring, piece: &[u32], steps: &mut Steps<L>) -> Option<usize>
    requires some { 3 ≤ length piece.now }
    requires numbers { HasNumbers ring.now.corners piece.now }
    requires left { IsLeft (whole (piece_vertex ring.now.corners piece.now (length piece.now - 1))) (whole (piece_vertex ring.now.corners piece.now 0))
        (whole (piece_vertex ring.now.corners piece.now 1)) }
    ensures farthest { IfSome result (IsFarthestBelow ring.now.corners piece.now (length piece.now)) }
    ensures none { IfNone result ((j : ℕ) → j < length piece.now → ¬ (IsPlaceInCorner ring.now.corners piece.now j)) }
    ensures steps { steps.new ≤ steps.old + 259 * (length piece.now - 3) }
{
    let corner = Corner {
        u: ring.corner(piece[piece.len() - 1]),
        v: ring.corner(piece[0]),
        w: ring.corner(piece[1]),
    };
    let mut best: Option<Candidate> = None;
    for place in 2..piece.len() - 1 {
        if let Some(candidate) = corner.candidate(ring, piece[place], place, steps) {
            best = Some(farther(best, candidate));
        }
    }
    Some(best?.place)
}

// The farther of two.
fn farther(best: Option<Candidate>, candidate: Candidate) -> Candidate
    ensures { IsFartherOf best candidate result }
{
    match best {
        Some(best) if !candidate.is_farther(&best) => best,
        _ => candidate,
    }
}

impl Corner {
    // The vertex with this number, if it is in the closed triangle. It takes at most 259 steps.
    fn candidate<L: Ledger>(
        &self,
        ring: &Ring,
        number: u32,
        place: usize,
        steps: &mut Steps<L>,
    ) -> Option<Candidate>
        requires number { number < length ring.now.corners }
        requires counterclockwise { IsLeft (whole self.now.u) (whole self.now.v) (whole self.now.w) }
        ensures inside { IfSome result (λ candidate.
            IsInTriangle self.now.u self.now.v self.now.w (whole (vertex ring.now.corners number))) }
        ensures outside { IfNone result
            (¬ (IsInTriangle self.now.u self.now.v self.now.w (whole (vertex ring.now.corners number)))) }
        ensures candidate { IfSome result (λ candidate. candidate ≡ record {
          height = height_over self.now.u self.now.w (whole (vertex ring.now.corners number));
          number = number;
          place = place;
        }) }
        ensures steps { steps.new ≤ steps.old + 259 }
    {
        let p = ring.corner(number);
        if !in_triangle(&self.u, &self.v, &self.w, &p, steps) {
            return None;
        }
        let height = doubled_area(&self.w, &self.u, &p, steps);
        Some(Candidate {
            height,
            number,
            place,
        })
    }
}

// Twice the area of a triangle, positive where its corners run counterclockwise. It takes 256 steps.
#[tactic(auto, using(exact_plane::proofs::CrossProduct::cross_is_determinant))]
fn doubled_area<L: Ledger>(a: &Pt, b: &Pt, c: &Pt, steps: &mut Steps<L>) -> i64
    ensures area { result ≡ determinant (whole a.now) (whole b.now) (whole c.now) }
    ensures small { unsigned_abs result < 2 ^ 50 }
    ensures steps { steps.new ≡ steps.old + 256 }
{
    let (p, q) = (way(a, b, steps), way(a, c, steps));
    cross_product(p, q)
}

// The way from `a` to `b`. It takes 128 steps.
fn way<L: Ledger>(a: &Pt, b: &Pt, steps: &mut Steps<L>) -> (i64, i64)
    ensures x { result.0 ≡ b.now.x -ℤ a.now.x }
    ensures y { result.1 ≡ b.now.y -ℤ a.now.y }
    ensures x_is_small { unsigned_abs result.0 < 2 ^ 24 }
    ensures y_is_small { unsigned_abs result.1 < 2 ^ 24 }
    ensures steps { steps.new ≡ steps.old + 128 }
{
    let ((a_x, a_y), (b_x, b_y)) = (a.parts(steps), b.parts(steps));
    (b_x - a_x, b_y - a_y)
}

// The cross product of two ways.
#[tactic(auto, using(exact_plane::proofs::CrossProduct::cross_product))]
fn cross_product(p: (i64, i64), q: (i64, i64)) -> i64
    requires first_x { unsigned_abs p.0 < 2 ^ 24 }
    requires first_y { unsigned_abs p.1 < 2 ^ 24 }
    requires second_x { unsigned_abs q.0 < 2 ^ 24 }
    requires second_y { unsigned_abs q.1 < 2 ^ 24 }
    ensures product { result ≡ (p.0 *ℤ q.1) -ℤ (p.1 *ℤ q.0) }
    ensures small { unsigned_abs result < 2 ^ 50 }
{
    p.0 * q.1 - p.1 * q.0
}
