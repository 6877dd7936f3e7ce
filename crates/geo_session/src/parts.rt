// Parts of the edges of a ring that is kept the other way round.
ghost use Rattle.std.specs.Prelude.{◌≡◌, ◌<◌, ℕ, IfOk, length};
ghost use Rattle.rings.specs.Visible.{part_at, turned_part, turned_parts};
ghost use Rattle.geo_session.specs.Parts.{given_parts};

use exact_plane::Memory;
use ring_check::Ring;
use see_cone::Part;
use std::alloc::Global;

// Parts of the edges of a ring, as parts of the edges of the list that it was made of.
pub(crate) fn given_parts(alloc: Global, parts: Vec<Part>, ring: &Ring) -> Result<Vec<Part>, Memory>
    requires { (k : ℕ) → k < length parts.items → (part_at parts.items k).edge < length ring.now.corners }
    ensures { IfOk result (λ given. given.items ≡ given_parts ring.now parts.items) }
{
    if ring.is_turned() {
        turned_parts(alloc, &parts, ring.len())
    } else {
        Ok(parts)
    }
}

// Parts of the edges of a ring with this many vertices, where it is read the other way round.
fn turned_parts(alloc: Global, parts: &[Part], size: u32) -> Result<Vec<Part>, Memory>
    requires { (k : ℕ) → k < length parts.now → (part_at parts.now k).edge < size }
    ensures { IfOk result (λ turned. turned.items ≡ turned_parts size parts.now) }
{
    let mut turned = Vec::with_capacity(alloc, parts.len())?;
    for part in parts {
        turned.push_reserved(turned_part(part, size));
    }
    turned.reverse();
    Ok(turned)
}

// One part.
fn turned_part(part: &Part, size: u32) -> Part
    requires { part.now.edge < size }
    ensures { result ≡ turned_part size part.now }
{
    Part {
        edge: size - 1 - part.edge,
        first: part.last,
        last: part.first,
    }
}
