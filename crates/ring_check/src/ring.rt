// Simple polygons, made of lists of points.
ghost use Rattle.std.specs.Prelude.{◌≡◌, ◌+◌, ◌*◌, ◌-◌, ◌<◌, ◌≤◌, ◌^◌, ◌↔◌, ℕ, IfOk, OnOk, IsOk, IsTrue, Err, false, length, vec_len};
ghost use Rattle.plane.specs.Point.{whole};
ghost use Rattle.plane.specs.declared.limits.TheConstants.{MAX_CORNERS};
ghost use Rattle.rings.specs.Orientation.{IsCounterclockwise, IsReflex};
ghost use Rattle.rings.specs.Ring.{vertex};
ghost use Rattle.rings.specs.Simple.{IsLeastClash, IsSimple};
ghost use Rattle.exact_plane.specs.Direction.{turn_of};
ghost use Rattle.ring_check.specs.Order.{IsInOrder};
ghost use Rattle.ring_check.specs.Oriented.{given_edge, given_index, given_of, oriented};

use crate::clash::find_clash;
use crate::order::{copied, lexical_order};
use crate::orientation::{turn_back, turn_counterclockwise};
use crate::sweep::simple_order;
use exact_plane::{Direction, Memory, Pt, Steps, turn};
use plane::MAX_CORNERS;
use std::alloc::Global;
use std::marker::Model;
use std::sync::ledger::Ledger;

/// The vertices of a simple polygon in counterclockwise order, 3 to `MAX_CORNERS` of them. It is made of a list that may run
/// either way: vertex 0 is the first of the list, and a clockwise list is read backward from there. Edge i goes from
/// vertex i to the next, the last one back to vertex 0.
#[derive(Drop)]
pub struct Ring {
    corners: Vec<Pt>,
    is_turned: bool,
    // The vertices in lexicographic order, where the sweep that showed them to be simple has made it.
    order: Option<Vec<u32>>,
}

impl Model for Ring {
    ghost use Rattle.std.specs.Prelude.{◌≤◌, IfSome, vec_len};
    ghost use Rattle.plane.specs.declared.limits.TheConstants.{MAX_CORNERS};
    ghost use Rattle.rings.specs.Orientation.{IsCounterclockwise};
    ghost use Rattle.rings.specs.Simple.{IsSimple};
    ghost use Rattle.ring_check.specs.Order.{IsInOrder};
    ghost use Rattle.ring_check.specs.Oriented.{Oriented};

    ghost Value = { Oriented };

    ghost view = { λ ring. record { corners = ring.corners.items; is_turned = ring.is_turned } };

    ghost invariant = { λ ring. (3 ≤ vec_len ring.corners) × (vec_len ring.corners ≤ MAX_CORNERS)
        × IsSimple ring.corners.items × IsCounterclockwise ring.corners.items
        × IfSome ring.order (λ order. IsInOrder ring.corners.items order.items) };
}

/// Why a list of points is no ring.
#[derive(Clone, Copy, Debug, PartialEq, Eq)]
pub enum RingFault {
    /// There are fewer than 3 points.
    Few,
    /// There are more than `MAX_CORNERS` points.
    Many,
    /// Edges i < j of the list clash, and no lesser pair does.
    Clash(u32, u32),
}

impl Ring {
    /// The ring of this list. The list is dropped on a refusal. It takes at most 214 n n + 1400 n (d + 4) steps, n the number of points
    /// and n below 2 to the power d.
    pub fn of<L: Ledger>(mut points: Vec<Pt>, steps: &mut Steps<L>) -> Result<Ring, RingFault>
        ensures ring { IfOk result (λ ring. ring ≡ oriented points.items) }
        ensures accepted { IsOk result ↔ ((3 ≤ vec_len points) × (vec_len points ≤ MAX_CORNERS) × IsSimple points.items) }

        ensures few { (result ≡ Err RingFault.Few) ↔ (vec_len points < 3) }
        ensures many { (result ≡ Err RingFault.Many) ↔ (MAX_CORNERS < vec_len points) }
        ensures clash { (i j : ℕ) → (result ≡ Err (RingFault.Clash i j))
            ↔ ((3 ≤ vec_len points) × (vec_len points ≤ MAX_CORNERS) × IsLeastClash points.items i j) }
        ensures steps { (d : ℕ) → let n = vec_len points in n < 2 ^ d → steps.new ≤ steps.old + (214 * (n * n) + 1400 * (n * (d + 4))) }
    {
        if points.len() < 3 {
            return Err(RingFault::Few);
        }
        if points.len() > MAX_CORNERS {
            return Err(RingFault::Many);
        }
        let is_turned = turn_counterclockwise(&mut points, steps);
        match simple_order(*points.allocator(), &points, steps) {
            Some(order) => Ok(Ring {
                corners: points,
                is_turned,
                order: Some(order),
            }),
            None => {
                turn_back(&mut points, is_turned);
                Ring::of_pairs(points, steps)
            }
        }
    }

    // The ring of a list of this length, by a look at all pairs of edges. It takes at most 214 n n + 1300 n (d + 4) + 128 n steps.
    fn of_pairs<L: Ledger>(mut points: Vec<Pt>, steps: &mut Steps<L>) -> Result<Ring, RingFault>
        requires three { 3 ≤ vec_len points }
        requires most { vec_len points ≤ MAX_CORNERS }
        ensures ring { IfOk result (λ ring. ring ≡ oriented points.items) }
        ensures accepted { IsOk result ↔ IsSimple points.items }
        ensures clash { (i j : ℕ) → (result ≡ Err (RingFault.Clash i j)) ↔ IsLeastClash points.items i j }
        ensures length { (result ≡ Err RingFault.Few → ⊥) × (result ≡ Err RingFault.Many → ⊥) }
        ensures steps { (d : ℕ) → let n = vec_len points in n < 2 ^ d → steps.new ≤ steps.old + (214 * (n * n) + 1300 * (n * (d + 4)) + 128 * n) }
    {
        match find_clash(*points.allocator(), &points, steps) {
            Some((i, j)) => Err(RingFault::Clash(i as u32, j as u32)),
            None => {
                let is_turned = turn_counterclockwise(&mut points, steps);
                Ok(Ring {
                    corners: points,
                    is_turned,
                    order: None,
                })
            }
        }
    }

    /// Returns all vertices by their indices in lexicographic order: by x, then by y, as the ring keeps them or sorted. It takes O(n)
    /// steps, 1 to 64 for each vertex. After want of memory the ring is as before.
    pub fn lexical<L: Ledger>(
        &self,
        alloc: Global,
        steps: &mut Steps<L>,
    ) -> Result<Vec<u32>, Memory>
        ensures order { IfOk result (λ order. IsInOrder self.now.corners order.items) }
        ensures steps_least { OnOk result (steps.old + length self.now.corners ≤ steps.new) }
        ensures steps_most { steps.new ≤ steps.old + 64 * length self.now.corners }
    {
        let _is_simple = self.len();
        match &self.order {
            Some(order) => copied(alloc, order, steps),
            None => lexical_order(alloc, self.corners(), steps),
        }
    }

    /// How many vertices there are.
    pub fn len(&self) -> u32
        ensures number { result ≡ length self.now.corners }

        // What holds of every ring.
        ensures size { (3 ≤ length self.now.corners) × (length self.now.corners ≤ MAX_CORNERS) }
        ensures simple { IsSimple self.now.corners }
        ensures counterclockwise { IsCounterclockwise self.now.corners }
    {
        self.corners.len() as u32
    }

    /// Vertex `i`.
    pub fn corner(&self, i: u32) -> Pt
        requires { i < length self.now.corners }
        ensures { result ≡ vertex self.now.corners i }
    {
        self.corners[i as usize]
    }

    /// The vertex after vertex `i`, round the ring.
    pub fn next(&self, i: u32) -> Pt
        requires { i < length self.now.corners }
        ensures { result ≡ vertex self.now.corners (i + 1) }
    {
        let last = self.len() - 1;
        if i < last {
            self.corner(i + 1)
        } else {
            self.corner(0)
        }
    }

    /// The vertex before it.
    #[tactic(auto, using(rings::proofs::Vertices::vertex_mod))]
    pub fn previous(&self, i: u32) -> Pt
        requires { i < length self.now.corners }
        ensures { result ≡ vertex self.now.corners (i + (length self.now.corners - 1)) }
    {
        let n = self.len();
        self.corner((i + (n - 1)) % n)
    }

    /// The vertices, in their order.
    pub fn corners(&self) -> &[Pt]
        ensures { result.now ≡ self.now.corners }
    {
        &self.corners
    }

    /// Whether the list ran clockwise.
    pub fn is_turned(&self) -> bool
        ensures { result ≡ self.now.is_turned }
    {
        self.is_turned
    }

    /// The number of vertex `i` in the list.
    pub fn given_index(&self, i: u32) -> u32
        requires { i < length self.now.corners }
        ensures number { result ≡ given_index self.now i }
        ensures same { vertex (given_of self.now) result ≡ vertex self.now.corners i }
    {
        let n = self.len();
        if self.is_turned { (n - i) % n } else { i }
    }

    /// The number of edge `i` in the list, which has it in the other direction where it was turned round.
    pub fn given_edge(&self, i: u32) -> u32
        requires { i < length self.now.corners }
        ensures number { result ≡ given_edge self.now i }
        ensures same { self.now.is_turned ≡ false → (vertex (given_of self.now) result ≡ vertex self.now.corners i)
            × (vertex (given_of self.now) (result + 1) ≡ vertex self.now.corners (i + 1)) }
        ensures turned { IsTrue self.now.is_turned → (vertex (given_of self.now) result ≡ vertex self.now.corners (i + 1))
            × (vertex (given_of self.now) (result + 1) ≡ vertex self.now.corners i) }
    {
        if self.is_turned {
            self.len() - 1 - i
        } else {
            i
        }
    }

    /// Whether vertex `i` is reflex. It takes one step.
    pub fn is_reflex<L: Ledger>(&self, i: u32, steps: &mut Steps<L>) -> bool
        requires { i < length self.now.corners }
        ensures reflex { IsTrue result ↔ IsReflex self.now.corners i }
        ensures steps { steps.new ≡ steps.old + 1 }
    {
        let _is_counterclockwise = self.len();
        turns_right(&self.previous(i), &self.corner(i), &self.next(i), steps)
    }
}

// Whether the turn from `a` over `b` to `c` is to the right. It takes one step.
fn turns_right<L: Ledger>(a: &Pt, b: &Pt, c: &Pt, steps: &mut Steps<L>) -> bool
    ensures right { IsTrue result ↔ (turn_of (whole a.now) (whole b.now) (whole c.now) ≡ Direction.Right) }
    ensures steps { steps.new ≡ steps.old + 1 }
{
    turn(a, b, c, steps) == Direction::Right
}
