// Triangles, and what stands on them: each part is asked with one counter.
ghost use Rattle.std.specs.Prelude.{◌≡◌, ◌<◌};

use crate::guard_classes::meshes_have_guards;
use crate::monotone_pieces::monotone_pieces_are_filled;
use crate::pairs::paths_and_sights_of_all_pairs;
use crate::places::places_sleeves_and_turns;
use crate::triangles::meshes_know_their_neighbours;
use crate::triangulations::each_polygon_is_triangulated;
use crate::views::view_in_one_triangle;
use exact_plane::{Memory, Steps};
use std::alloc::Global;
use std::marker::Brand;
use std::process::Abort;
use std::sync::ledger::{Blank, Ledger};
use std::test::Fail;

#[test]
fn triangles_and_what_stands_on_them(rt: HostRuntime) -> Result<(), Fail> {
    all_parts::<Brand, _>(&rt, rt.alloc(), Blank::new(1))?;
    Ok(())
}

// With a counter over a ledger that nobody else counts in.
fn all_parts<L: Ledger, R: Abort>(rt: &R, alloc: Global, blank: Blank) -> Result<(), Memory>
    requires name { blank.name ≡ L.name }
    requires parts { blank.parts ≡ L.parts }
    requires countable { 0 < blank.parts }
{
    let mut steps = Steps::<L>::new(blank);
    let steps = &mut steps;
    meshes_know_their_neighbours(rt, alloc, steps)?;
    monotone_pieces_are_filled(rt, alloc, steps)?;
    each_polygon_is_triangulated(rt, alloc, steps)?;
    places_sleeves_and_turns(rt, alloc, steps)?;
    view_in_one_triangle(rt, alloc, steps)?;
    meshes_have_guards(rt, alloc, steps)?;
    paths_and_sights_of_all_pairs(rt, alloc, steps)
}
