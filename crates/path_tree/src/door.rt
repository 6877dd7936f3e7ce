// A triangle in an outward order, and the side over which it is entered.
ghost use Rattle.std.specs.Prelude.{◌≡◌, ◌<◌, length};
ghost use Rattle.meshes.specs.Mesh.{side_begin, side_end};
ghost use Rattle.meshes.specs.Side.{tri_at};
ghost use Rattle.path_tree.specs.Third.{side_third};

use tri_mesh::{Mesh, Outward};

/// The door of a triangle, the side over which it is entered: the corners at its left and its right end, and the third corner of
/// the triangle, which is behind it.
#[derive(Clone, Copy)]
pub struct Door {
    pub left: u32,
    pub right: u32,
    pub third: u32,
}

/// The triangle at place `p` of an order outward over a mesh.
#[derive(Clone, Copy)]
pub struct Visit<'a> {
    pub mesh: &'a Mesh,
    pub order: &'a [Outward],
    pub p: usize,
}

/// The door of a triangle in an order outward: the side that it shares with the one from which it is reached.
pub fn door_of(mesh: &Mesh, at: Outward) -> Door
    requires in_list { at.tri < length mesh.now }
    requires side { at.side < 3 }
    ensures left { result.left ≡ side_begin (tri_at mesh.now at.tri) at.side }
    ensures right { result.right ≡ side_end (tri_at mesh.now at.tri) at.side }
    ensures third { result.third ≡ side_third (tri_at mesh.now at.tri) at.side }
{
    let tri = mesh.tri(at.tri);
    let (left, right, third) = match at.side {
        0 => (tri.a, tri.b, tri.c),
        1 => (tri.b, tri.c, tri.a),
        _ => (tri.c, tri.a, tri.b),
    };
    Door { left, right, third }
}
