//! How much a reply holds.
ghost use Rattle.std.specs.Prelude.{◌≡◌, ◌<◌, ◌^◌, flat_map, length};
ghost use Rattle.geo_c.specs.Contents.{counts_of, fractions_of, numbers_of, points_of, side_points};

use crate::few::Few;
use geo_reply::{Reply, Side};

/// How many numbers, points and fractions a reply holds. In C it is a struct of three `size_t`.
#[repr(C)]
#[derive(Clone, Copy)]
pub struct GeoCounts {
    pub numbers: usize,
    pub points: usize,
    pub fractions: usize,
}

/// How much a reply holds.
pub(crate) fn counts_of(reply: &Reply) -> GeoCounts
    ensures { result ≡ counts_of reply.now }
{
    GeoCounts {
        numbers: count_numbers(reply),
        points: count_points(reply),
        fractions: count_fractions(reply),
    }
}

fn count_numbers(reply: &Reply) -> usize
    ensures { result ≡ length (numbers_of reply.now) }
{
    match reply {
        Reply::Path(_) | Reply::Kernel(_) => 0,
        Reply::Number(_, number) => Few::of_number(*number).count(),
        Reply::Place(_) => 1,
        Reply::Refused(bad) => Few::of_bad(bad).count(),
        Reply::Verdict(verdict) => Few::of_verdict(*verdict).count(),
        Reply::Tree(befores) => befores.as_slice().len(),
        Reply::View(parts) => parts.as_slice().len(),
        Reply::Hull(sides) => 3 * sides.as_slice().len(),
        Reply::Round(numbers) => numbers.as_slice().len(),
        Reply::Guards(numbers) => numbers.as_slice().len(),
        Reply::Sights(pairs) => 2 * pairs.as_slice().len(),
    }
}

fn count_points(reply: &Reply) -> usize
    ensures { result ≡ length (points_of reply.now) }
{
    match reply {
        Reply::Path(points) => points.as_slice().len(),
        Reply::Hull(sides) => count_side_points(sides.as_slice()),
        _ => 0,
    }
}

// How many points all sides have together.
fn count_side_points(sides: &[Side]) -> usize
    requires { length sides.now < 2 ^ 32 }
    ensures { result ≡ length (flat_map side_points sides.now) }
{
    let mut count = 0;
    for side in sides {
        count += side.path.as_slice().len();
    }
    count
}

fn count_fractions(reply: &Reply) -> usize
    ensures { result ≡ length (fractions_of reply.now) }
{
    match reply {
        Reply::View(parts) => 4 * parts.as_slice().len(),
        Reply::Kernel(corners) => 2 * corners.as_slice().len(),
        _ => 0,
    }
}
