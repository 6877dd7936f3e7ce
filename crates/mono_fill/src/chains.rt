// The vertices of a monotone piece in lexicographic order.
ghost use Rattle.std.specs.List.{All};
ghost use Rattle.std.specs.Prelude.{◌≡◌, ℕ, ◌+◌, ◌<◌, ◌≤◌, length, slice_index};
ghost use Rattle.mono_fill.specs.Cursors.{ahead, at_least, one_more, read_from};
ghost use Rattle.mono_fill.specs.Sides.{other_chain_side};

use crate::side::Side;
use std::marker::Model;

// A cursor on each chain of a monotone piece.
#[derive(Drop)]
pub(crate) struct Chains<'a> {
    rank: &'a [u32],
    piece: &'a [u32],
    // The place of the least vertex.
    least: usize,
    // How many vertices after the least one are taken, of the lower chain and of the upper one.
    lower: usize,
    upper: usize,
}

impl<'a> Model for Chains<'a> {
    ghost use Rattle.std.specs.List.{All};
    ghost use Rattle.std.specs.Prelude.{◌+◌, ◌<◌, length};
    ghost use Rattle.mono_fill.specs.Cursors.{Cursors, read_from};

    ghost Value = { Cursors };

    ghost view = { λ s. record { ranks = s.rank.now; ring = read_from s.least s.piece.now; lower = s.lower; upper = s.upper } };

    ghost invariant = { λ s. (s.least < length s.piece.now) × (s.lower + s.upper + 1 < length s.piece.now) × All (λ i. i < length s.rank.now) s.piece.now };
}

impl<'a> Chains<'a> {
    // The cursors at the least vertex.
    pub(crate) fn new(rank: &'a [u32], piece: &'a [u32]) -> Chains<'a>
        requires some { 1 < length piece.now }
        requires numbers { All (λ i. i < length rank.now) piece.now }
        ensures { (place : ℕ) × (place < length piece.now) × (result ≡ at_least rank.now (read_from place piece.now))
            × ((k : ℕ) → k < length piece.now → slice_index rank.now (slice_index piece.now place) ≤ slice_index rank.now (slice_index piece.now k)) }
    {
        Chains {
            rank,
            piece,
            least: least_place(rank, piece),
            lower: 0,
            upper: 0,
        }
    }

    // The least vertex.
    pub(crate) fn first(&self) -> u32
        ensures vertex { result ≡ slice_index self.now.ring 0 }
        ensures ranked { result < length self.now.ranks }
    {
        self.piece[self.least]
    }

    // The vertex that comes next on this chain.
    pub(crate) fn ahead(&self, side: Side) -> u32
        ensures vertex { result ≡ ahead side self.now }
        ensures ranked { result < length self.now.ranks }
    {
        match side {
            Side::Lower => self.vertex(self.lower + 1),
            Side::Upper => self.vertex(self.piece.len() - self.upper - 1),
        }
    }

    // Takes the next vertex of both chains together, and says on which of them it is.
    pub(crate) fn take(&mut self) -> (Side, u32)
        requires { self.old.lower + self.old.upper + 2 < length self.old.ring }
        ensures vertex { result.1 ≡ ahead result.0 self.old }
        ensures ranked { result.1 < length self.old.ranks }
        ensures cursors { self.new ≡ one_more result.0 self.old }
        ensures next { slice_index self.old.ranks result.1 ≤ slice_index self.old.ranks (ahead (other_chain_side result.0) self.old) }
    {
        let low = self.ahead(Side::Lower);
        let high = self.ahead(Side::Upper);
        if self.rank[low as usize] < self.rank[high as usize] {
            self.lower += 1;
            (Side::Lower, low)
        } else {
            self.upper += 1;
            (Side::Upper, high)
        }
    }

    // The vertex so many places after the least one, counted round.
    fn vertex(&self, count: usize) -> u32
        requires { count < length self.now.ring }
        ensures vertex { result ≡ slice_index self.now.ring count }
        ensures ranked { result < length self.now.ranks }
    {
        let left = self.piece.len() - self.least;
        if count < left {
            self.piece[self.least + count]
        } else {
            self.piece[count - left]
        }
    }
}

// The place of the vertex with the least rank.
fn least_place(rank: &[u32], piece: &[u32]) -> usize
    requires some { 0 < length piece.now }
    requires numbers { All (λ i. i < length rank.now) piece.now }
    ensures place { result < length piece.now }
    ensures least { (k : ℕ) → k < length piece.now → slice_index rank.now (slice_index piece.now result) ≤ slice_index rank.now (slice_index piece.now k) }
{
    let mut least = 0;
    for place in 1..piece.len() {
        if rank[piece[place] as usize] < rank[piece[least] as usize] {
            least = place;
        }
    }
    least
}
