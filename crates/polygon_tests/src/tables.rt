// Tables of questions with answers, a question a row: each is asked with one counter.
ghost use Rattle.std.specs.Prelude.{◌≡◌, ◌<◌};

use crate::chains::{CHAINS, L_BACKWARD, L_SHAPE};
use crate::points::{LIMITS, QUESTIONS};
use crate::rationals::{MEDIANTS, ORDERS};
use crate::segments::{IN_TEETH, IN_U, IN_WIDE, TEETH, U_SHAPE, WIDE};
use crate::{
    chains, combs, fractions, half_planes, kernels, lists, meetings, path_turns, points, rationals,
    segments, sequences,
};
use exact_plane::Steps;
use std::alloc::Global;
use std::marker::Brand;
use std::process::Abort;
use std::sync::ledger::{Blank, Ledger};

// What the rows of a table ask about.
#[derive(Clone, Copy)]
enum About {
    Points,
    Limits,
    Meetings,
    Orders,
    Turns,
    Mediants,
    Fractions,
    HalfPlanes,
    Sequences,
    Lists,
    Kept,
    Segments(&'static str),
    Chains(&'static str),
    Kernels,
    PathTurns,
    Combs,
}

const TABLES: [(About, &str); 19] = [
    (About::Points, QUESTIONS),
    (About::Limits, LIMITS),
    (About::Meetings, meetings::MEETINGS),
    (About::Orders, ORDERS),
    (About::Turns, rationals::TURNS),
    (About::Mediants, MEDIANTS),
    (About::Fractions, fractions::FRACTIONS),
    (About::HalfPlanes, half_planes::CUTS),
    (About::Sequences, sequences::CALLS),
    (About::Lists, lists::LISTS),
    (About::Kept, lists::KEPT),
    (About::Segments(U_SHAPE), IN_U),
    (About::Segments(TEETH), IN_TEETH),
    (About::Segments(WIDE), IN_WIDE),
    (About::Chains(L_SHAPE), CHAINS),
    (About::Chains(L_BACKWARD), CHAINS),
    (About::Kernels, kernels::KERNELS),
    (About::PathTurns, path_turns::TURNS),
    (About::Combs, combs::COMBS),
];

#[test]
fn each_row_is_answered(rt: HostRuntime) {
    all_tables::<Brand, _>(&rt, rt.alloc(), Blank::new(1));
}

// With a counter over a ledger that nobody else counts in.
fn all_tables<L: Ledger, R: Abort>(rt: &R, alloc: Global, blank: Blank)
    requires name { blank.name ≡ L.name }
    requires parts { blank.parts ≡ L.parts }
    requires countable { 0 < blank.parts }
{
    let mut steps = Steps::<L>::new(blank);
    for (about, table) in TABLES {
        for row in table.split('\n') {
            assert!(rt; is_answered(alloc, about, row, &mut steps), "{row}");
        }
    }
    assert!(rt; are_long_ones_answered(alloc, &mut steps));
}

fn is_answered<L: Ledger>(alloc: Global, about: About, row: &str, steps: &mut Steps<L>) -> bool {
    match about {
        About::Points => points::is_answered(alloc, row, steps),
        About::Limits => points::is_limit(row, steps),
        About::Meetings => meetings::is_met(alloc, row, steps),
        About::Orders => rationals::is_ordered(row, steps),
        About::Turns => rationals::is_turned(row, steps),
        About::Mediants => rationals::has_mediant(row, steps),
        About::Fractions => fractions::is_lowest(row),
        About::HalfPlanes => half_planes::is_left(alloc, row, steps),
        About::Sequences => sequences::is_made(alloc, row, steps),
        About::Lists => lists::is_judged(alloc, row, steps),
        About::Kept => lists::is_kept(alloc, row, steps),
        About::Segments(ring) => segments::is_held(alloc, ring, row, steps),
        About::Chains(ring) => chains::is_judged(alloc, ring, row, steps),
        About::Kernels => kernels::is_kernel(alloc, row, steps),
        About::PathTurns => path_turns::is_turned(alloc, row, steps),
        About::Combs => combs::is_comb(alloc, row, steps),
    }
}

// What is too long for a row.
fn are_long_ones_answered<L: Ledger>(alloc: Global, steps: &mut Steps<L>) -> bool {
    sequences::is_joined_again(alloc, steps) == Some(true)
        && chains::is_longest_judged(alloc, L_SHAPE, steps)
        && chains::is_longest_judged(alloc, L_BACKWARD, steps)
        && chains::is_way_of_comb_judged(alloc, steps) == Some(true)
        && combs::is_greatest(alloc, steps)
}
