// The sides and the corners of a triangle. Side 0 goes from `a` to `b`, side 1 from `b` to `c`, side 2 from `c` to `a`.
ghost use Rattle.std.specs.Prelude.{◌≡◌, ◌<◌, ◌↔◌, [], ◌∷◌, IfNone, IfSome, IsTrue, slice_index};
ghost use Rattle.meshes.specs.Mesh.{side_begin, side_end};
ghost use Rattle.meshes.specs.Side.{HasCorner, HasSide};
ghost use Rattle.tri_mesh.specs.Triangle.{IsSideNumber, side_opposite};

use meshes::Tri;

/// Returns the corners where side 0, 1 or 2 begins and ends. O(1).
pub fn side_ends(tri: &Tri, side: u32) -> (u32, u32)
    requires { side < 3 }
    ensures { result ≡ (side_begin tri.now side, side_end tri.now side) }
{
    let Tri { a, b, c } = *tri;
    (choice(side, a, b, c), choice(side, b, c, a))
}

/// Returns the corner opposite to side 0, 1 or 2. O(1).
pub fn corner_opposite(tri: &Tri, side: u32) -> u32
    requires { side < 3 }
    ensures { result ≡ side_opposite tri.now side }
{
    choice(side, tri.c, tri.a, tri.b)
}

/// Returns the number of the side from one corner to another, or none if the triangle has no such side. O(1).
pub fn side_number(tri: &Tri, from: u32, to: u32) -> Option<u32>
    ensures none { IfNone result (¬ HasSide tri.now from to) }
    ensures some { IfSome result (IsSideNumber tri.now from to) }
{
    if tri.a == from && tri.b == to {
        Some(0)
    } else if tri.b == from && tri.c == to {
        Some(1)
    } else if tri.c == from && tri.a == to {
        Some(2)
    } else {
        None
    }
}

/// Returns whether the triangle has a side from one corner to another. O(1).
pub fn has_side(tri: &Tri, from: u32, to: u32) -> bool
    ensures { IsTrue result ↔ HasSide tri.now from to }
{
    (tri.a == from && tri.b == to)
        || (tri.b == from && tri.c == to)
        || (tri.c == from && tri.a == to)
}

/// Returns whether the triangle has a corner. O(1).
pub fn has_corner(tri: &Tri, v: u32) -> bool
    ensures { IsTrue result ↔ HasCorner tri.now v }
{
    tri.a == v || tri.b == v || tri.c == v
}

// The first, second or third one. A choice between numbers that are there needs no jump.
fn choice(number: u32, first: u32, second: u32, third: u32) -> u32
    requires { number < 3 }
    ensures { result ≡ slice_index (first ∷ second ∷ third ∷ []) number }
{
    let later = if number == 1 { second } else { third };
    if number == 0 { first } else { later }
}
