// The parting of the vertices into three classes, of which each triangle has one corner each.
ghost use Rattle.std.specs.Prelude.{◌≡◌, ◌-◌, ◌<◌, ℕ, IfOk, length, slice_index_or, slice_set};
ghost use Rattle.meshes.specs.Fits.{Fits};
ghost use Rattle.meshes.specs.Side.{tri_at};
ghost use Rattle.guards3.specs.Guards.{IsParting};
ghost use Rattle.guards3.specs.Parting.{AreGivenBy, AreMarks, HasCorners, corner_count};

use exact_plane::Memory;
use meshes::Tri;
use ring_check::Ring;
use std::alloc::Global;

// The class of each vertex. Vertices 0 and 1 have 0 and 1, and round the ring each later one has that of the vertex before the one
// before it, where an even number of triangles meets between them, and else the one that those two leave.
pub(crate) fn classes_of(alloc: Global, ring: &Ring, tris: &[Tri]) -> Result<Vec<u8>, Memory>
    requires { Fits ring.now.corners tris.now }
    ensures { IfOk result (λ classes. IsParting (length ring.now.corners) tris.now classes.items) }
{
    let mut classes = vec![in alloc; 0; ring.len() as usize]?;
    mark_corners(&mut classes, tris);
    give_classes(&mut classes);
    Ok(classes)
}

// Marks the vertices at which an odd number of triangles meets.
fn mark_corners(marks: &mut [u8], tris: &[Tri])
    requires none { (i : ℕ) → slice_index_or marks.old i 0 ≡ 0 }
    requires corners { (k : ℕ) → k < length tris.now → HasCorners (length marks.old) (tri_at tris.now k) }
    ensures count { length marks.new ≡ length marks.old }
    ensures marks { AreMarks marks.new (corner_count tris.now (length tris.now)) }
{
    for tri in tris {
        change(marks, tri.a);
        change(marks, tri.b);
        change(marks, tri.c);
    }
}

// Marks a vertex that is not marked, and the other way round.
fn change(marks: &mut [u8], i: u32)
    requires vertex { i < length marks.old }
    requires mark { slice_index_or marks.old i 0 < 2 }
    ensures { marks.new ≡ slice_set marks.old i (1 - slice_index_or marks.old i 0) }
{
    marks[i as usize] = 1 - marks[i as usize];
}

// Gives each vertex its class in place of its mark.
fn give_classes(classes: &mut [u8])
    requires { 2 < length classes.old }
    ensures count { length classes.new ≡ length classes.old }
    ensures given { AreGivenBy classes.old classes.new }
{
    let mut mark = classes[1];
    let (mut before, mut here) = (0, 1);
    classes[0] = before;
    classes[1] = here;
    for k in 0..classes.len() - 2 {
        let next = if mark == 0 { before } else { 3 - before - here };
        mark = classes[k + 2];
        classes[k + 2] = next;
        before = here;
        here = next;
    }
}
