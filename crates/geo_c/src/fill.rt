//! Answers that are copied into a buffer of the caller.
ghost use Rattle.std.specs.Prelude.{◌≡◌, List, ◌++◌, [], ◌∷◌, flat_map};
ghost use Rattle.plane.specs.Point.{Point};
ghost use Rattle.geo_c.specs.Contents.{fractions_of, points_of, side_points};
ghost use Rattle.geo_c.specs.Filled.{filled_by};
ghost use Rattle.geo_c.specs.Put.{IsPut};

use crate::fractions::{GeoFraction, fill_corners, fill_parts};
use crate::point::GeoPoint;
use exact_plane::{Pt, Steps};
use geo_reply::{Reply, Side};
use std::cmp::min;
use std::sync::ledger::Ledger;

/// Copies the front of some items, as much as fits.
pub(crate) fn fill<T: Copy>(out: &mut [T], items: &[T])
    ensures { out.new ≡ filled_by items.now out.old }
{
    let count = min(out.len(), items.len());
    out[..count].copy_from_slice(&items[..count]);
}

/// Copies the first points, as many as fit.
pub(crate) fn fill_points<L: Ledger>(out: &mut [GeoPoint], points: &[Pt], steps: &mut Steps<L>)
    ensures { out.new ≡ filled_by points.now out.old }
{
    let count = min(out.len(), points.len());
    'points: for i in 0..count {
        let (x, y) = points[i].parts(steps);
        out[i] = GeoPoint { x, y };
    }
}

/// Puts one item more into a buffer, where it fits; `next` is the place of the next one.
pub(crate) fn put<T: Copy>(out: &mut [T], next: &mut usize, item: T)
    ensures { (items before : List T) → IsPut items before out.old next.old → IsPut (items ++ item ∷ []) before out.new next.new }
{
    if *next < out.len() {
        out[*next] = item;
        *next += 1;
    }
}

/// Copies the first points of a reply, as many as fit.
pub(crate) fn fill_reply_points<L: Ledger>(
    out: &mut [GeoPoint],
    reply: &Reply,
    steps: &mut Steps<L>,
)
    ensures { out.new ≡ filled_by (points_of reply.now) out.old }
{
    match reply {
        Reply::Path(points) => fill_points(out, points.as_slice(), steps),
        Reply::Hull(sides) => fill_side_points(out, sides.as_slice(), steps),
        _ => {}
    }
}

/// Copies the first fractions of a reply, as many as fit.
pub(crate) fn fill_reply_fractions<L: Ledger>(
    out: &mut [GeoFraction],
    reply: &Reply,
    steps: &mut Steps<L>,
)
    ensures { out.new ≡ filled_by (fractions_of reply.now) out.old }
{
    match reply {
        Reply::View(parts) => fill_parts(out, parts.as_slice(), steps),
        Reply::Kernel(corners) => fill_corners(out, corners.as_slice(), steps),
        _ => {}
    }
}

fn fill_side_points<L: Ledger>(out: &mut [GeoPoint], sides: &[Side], steps: &mut Steps<L>)
    ensures { out.new ≡ filled_by (flat_map side_points sides.now) out.old }
{
    let mut next = 0;
    for side in sides {
        put_points(out, &mut next, side.path.as_slice(), steps);
    }
}

// Puts points behind some others.
fn put_points<L: Ledger>(
    out: &mut [GeoPoint],
    next: &mut usize,
    points: &[Pt],
    steps: &mut Steps<L>,
)
    ensures { (items before : List Point) → IsPut items before out.old next.old → IsPut (items ++ points.now) before out.new next.new }
{
    for point in points {
        let (x, y) = point.parts(steps);
        put(out, next, GeoPoint { x, y });
    }
}
