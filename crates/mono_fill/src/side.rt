ghost use Rattle.std.specs.Prelude.{◌≡◌};
ghost use Rattle.mono_fill.specs.Sides.{other_chain_side, triangle};

use meshes::Tri;

/// One of the two chains of a monotone piece, from its least vertex to its greatest.
#[derive(Clone, Copy, PartialEq, Eq)]
pub enum Side {
    /// The chain that the piece is above.
    Lower,
    /// The chain that the piece is under.
    Upper,
}

impl Side {
    /// The other one.
    pub fn opposite(self) -> Side
        ensures { result ≡ other_chain_side self }
    {
        match self {
            Side::Lower => Side::Upper,
            Side::Upper => Side::Lower,
        }
    }

    // The triangle of two vertices of this chain, `p` before `q`, and a later one `x`. It is counterclockwise exactly if the turn
    // from `p` over `q` to `x` is strictly inward.
    pub(crate) fn triangle(self, p: u32, q: u32, x: u32) -> Tri
        ensures { result ≡ triangle self p q x }
    {
        match self {
            Side::Lower => Tri { a: p, b: q, c: x },
            Side::Upper => Tri { a: q, b: p, c: x },
        }
    }
}
