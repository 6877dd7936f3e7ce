// The vertices of a class, by the numbers that they have in the list that the ring was made of.
ghost use Rattle.std.specs.Prelude.{◌≡◌, ◌<◌, IfOk, length};
ghost use Rattle.ring_check.specs.Oriented.{given_index};
ghost use Rattle.guards3.specs.Guards.{class_of, members};

use exact_plane::Memory;
use ring_check::Ring;
use std::alloc::Global;

// The members of a class, rising; there are `count` of them.
pub(crate) fn members(
    alloc: Global,
    ring: &Ring,
    classes: &[u8],
    class: u8,
    count: u32,
) -> Result<Vec<u32>, Memory>
    requires { length classes.now ≡ length ring.now.corners }
    ensures { IfOk result (λ found. found.items ≡ members ring.now classes.now class) }
{
    let mut found = Vec::with_capacity(alloc, count as usize)?;
    for number in 0..ring.len() {
        if class_at(ring, classes, number) == class {
            found.push(number)?;
        }
    }
    Ok(found)
}

// The class of the vertex with this number.
pub(crate) fn class_at(ring: &Ring, classes: &[u8], number: u32) -> u8
    requires size { length classes.now ≡ length ring.now.corners }
    requires number { number < length ring.now.corners }
    ensures { result ≡ class_of classes.now (given_index ring.now number) }
{
    classes[ring.given_index(number) as usize]
}
