//! The numbers of a reply, copied into a buffer of the caller.
ghost use Rattle.std.specs.Prelude.{◌≡◌, ℕ, List, ◌++◌, flat_map, map};
ghost use Rattle.geo_c.specs.Contents.{before_number, edge_of, numbers_of, side_numbers, sight_numbers};
ghost use Rattle.geo_c.specs.Filled.{filled_by};
ghost use Rattle.geo_c.specs.Put.{IsPut};

use crate::few::Few;
use crate::fill::{fill, put};
use crate::status::place_of;
use geo_reply::{Before, Reply, Side};
use see_cone::Part;

// No vertex has these numbers.

/// Nothing comes before the vertex: it is at the source.
pub(crate) const NOTHING: u32 = 4_294_967_295;

/// The source comes before it.
pub(crate) const SOURCE: u32 = 4_294_967_294;

/// Copies the first numbers of a reply, as many as fit.
pub(crate) fn fill_numbers(out: &mut [u32], reply: &Reply)
    ensures { out.new ≡ filled_by (numbers_of reply.now) out.old }
{
    match reply {
        Reply::Path(_) | Reply::Kernel(_) => {}
        Reply::Number(_, number) => Few::of_number(*number).copy(out),
        Reply::Refused(bad) => Few::of_bad(bad).copy(out),
        Reply::Place(position) => fill(out, &[u32::from(place_of(*position))]),
        Reply::Verdict(verdict) => Few::of_verdict(*verdict).copy(out),
        Reply::Tree(befores) => fill_befores(out, befores.as_slice()),
        Reply::View(parts) => fill_edges(out, parts.as_slice()),
        Reply::Hull(sides) => fill_sides(out, sides.as_slice()),
        Reply::Round(numbers) => fill(out, numbers.as_slice()),
        Reply::Guards(numbers) => fill(out, numbers.as_slice()),
        Reply::Sights(pairs) => fill_sights(out, pairs.as_slice()),
    }
}

fn fill_befores(out: &mut [u32], befores: &[Before])
    ensures { out.new ≡ filled_by (map before_number befores.now) out.old }
{
    let mut next = 0;
    for before in befores {
        put(out, &mut next, number_of(*before));
    }
}

// The number of what comes before a vertex.
fn number_of(before: Before) -> u32
    ensures { result ≡ before_number before }
{
    match before {
        Before::Nothing => NOTHING,
        Before::Source => SOURCE,
        Before::Vertex(j) => j,
    }
}

fn fill_edges(out: &mut [u32], parts: &[Part])
    ensures { out.new ≡ filled_by (map edge_of parts.now) out.old }
{
    let mut next = 0;
    for part in parts {
        put(out, &mut next, part.edge);
    }
}

fn fill_sides(out: &mut [u32], sides: &[Side])
    ensures { out.new ≡ filled_by (flat_map side_numbers sides.now) out.old }
{
    let mut next = 0;
    for side in sides {
        put_side(out, &mut next, side);
    }
}

// Puts the numbers of a side behind some others.
fn put_side(out: &mut [u32], next: &mut usize, side: &Side)
    ensures { (items before : List ℕ) → IsPut items before out.old next.old → IsPut (items ++ side_numbers side.now) before out.new next.new }
{
    put(out, next, side.start);
    put(out, next, side.end);
    put(out, next, side.path.as_slice().len() as u32);
}

fn fill_sights(out: &mut [u32], pairs: &[(u32, u32)])
    ensures { out.new ≡ filled_by (flat_map sight_numbers pairs.now) out.old }
{
    let mut next = 0;
    for pair in pairs {
        put_pair(out, &mut next, *pair);
    }
}

// Puts two numbers behind some others.
fn put_pair(out: &mut [u32], next: &mut usize, pair: (u32, u32))
    ensures { (items before : List ℕ) → IsPut items before out.old next.old → IsPut (items ++ sight_numbers pair) before out.new next.new }
{
    put(out, next, pair.0);
    put(out, next, pair.1);
}
