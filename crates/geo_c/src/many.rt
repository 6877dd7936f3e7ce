//! Many questions in one call.
ghost use Rattle.std.specs.Prelude.{◌≡◌, ◌<◌, ◌≤◌, ◌+◌, ◌⊎◌, IfOk, None, OnErr, length, take};
ghost use Rattle.plane.specs.declared.limits.TheConstants.{MAX_CORNERS};
ghost use Rattle.geo_c.specs.Held.{talk_of};
ghost use Rattle.geo_c.specs.Many.{ArePathsTold, ArePlacesTold, Buffers, IsPathFound, IsPlaceFound, asked_pairs, place_number};
ghost use Rattle.geo_c.specs.Room.{IsPathPut};
ghost use Rattle.geo_c.specs.Told.{TellsResult};
ghost use Rattle.geo_c.specs.declared.status.TheConstants.{MEMORY, OK};

use crate::fill::fill_points;
use crate::handle::GeoSession;
use crate::point::GeoPoint;
use crate::status::{MEMORY, OK, place_of, status_of};
use exact_plane::{Memory, Pt, Steps};
use geo_text::Bad;
use std::alloc::Global;
use std::cmp::min;
use std::marker::Brand;
use std::sync::ledger::{Blank, Ledger};

/// Where each of some points lies in the polygon: the number of its place, or the status of the refusal. `places` takes those of the
/// first points, as many as fit, and is as before after that.
#[unsafe(no_mangle)]
pub extern "C" fn geo_session_places(
    alloc: Global,
    session: &mut GeoSession,
    points: &[GeoPoint],
    places: &mut [u8],
)
    ensures places { ArePlacesTold (talk_of session.old.held) (take (length places.old) points.now) places.old places.new }
    ensures same { session.new.held ≡ session.old.held }
{
    tell_places::<Brand>(alloc, session, points, places, Blank::new(1));
}

fn tell_places<L: Ledger>(
    alloc: Global,
    session: &mut GeoSession,
    points: &[GeoPoint],
    places: &mut [u8],
    blank: Blank,
)
    requires name { blank.name ≡ L.name }
    requires parts { blank.parts ≡ L.parts }
    requires countable { 0 < blank.parts }
    ensures places { ArePlacesTold (talk_of session.old.held) (take (length places.old) points.now) places.old places.new }
    ensures same { session.new.held ≡ session.old.held }
{
    let mut steps = Steps::<L>::new(blank);
    'points: for i in 0..min(points.len(), places.len()) {
        places[i] = tell_place(alloc, session, &points[i], &mut steps);
    }
}

// The number of a point's place, or the status of the refusal.
fn tell_place<L: Ledger>(
    alloc: Global,
    session: &mut GeoSession,
    point: &GeoPoint,
    steps: &mut Steps<L>,
) -> u8
    ensures place { TellsResult (IsPlaceFound (talk_of session.old.held) point.now) (λ found. result ≡ place_number found) }
    ensures same { session.new.held ≡ session.old.held }
{
    match session.place(alloc, point.x, point.y, steps) {
        Ok(position) => place_of(position),
        Err(bad) => status_of(&bad),
    }
}

/// What the version of the script tells of the paths between pairs of points, `ends[2 * k]` and `ends[2 * k + 1]`, in turn, as many as
/// fit `statuses` and `lengths`, and while the points of the next path fit what is left of `points`. `done` is how many are told. For
/// each there is a status, the count of its points (0 with a refusal), and its points behind those of the paths before; after that the
/// buffers are as before. Any one path fits into `MAX_CORNERS + 2` points. Where memory is wanted, the paths that are told are whole.
#[unsafe(no_mangle)]
pub extern "C" fn geo_session_paths(
    alloc: Global,
    session: &mut GeoSession,
    ends: &[GeoPoint],
    points: &mut [GeoPoint],
    statuses: &mut [u8],
    lengths: &mut [usize],
    done: &mut usize,
) -> u8
    ensures paths { let before : Buffers = record { points = points.old; statuses = statuses.old; lengths = lengths.old } in
        let after : Buffers = record { points = points.new; statuses = statuses.new; lengths = lengths.new } in
        ArePathsTold (talk_of session.old.held) (asked_pairs ends.now before) result done.new before after }
    // Where there is room for the points of any path, one is told.
    ensures progress { let before : Buffers = record { points = points.old; statuses = statuses.old; lengths = lengths.old } in
        result ≡ OK → MAX_CORNERS + 2 ≤ length points.old → 0 < length (asked_pairs ends.now before) → 0 < done.new }
    ensures only { (result ≡ OK) ⊎ (result ≡ MEMORY) }
    ensures same { session.new.held ≡ session.old.held }
{
    tell_paths::<Brand>(
        alloc,
        session,
        ends,
        points,
        statuses,
        lengths,
        done,
        Blank::new(1),
    )
}

fn tell_paths<L: Ledger>(
    alloc: Global,
    session: &mut GeoSession,
    ends: &[GeoPoint],
    points: &mut [GeoPoint],
    statuses: &mut [u8],
    lengths: &mut [usize],
    done: &mut usize,
    blank: Blank,
) -> u8
    requires name { blank.name ≡ L.name }
    requires parts { blank.parts ≡ L.parts }
    requires countable { 0 < blank.parts }
    ensures paths { let before : Buffers = record { points = points.old; statuses = statuses.old; lengths = lengths.old } in
        let after : Buffers = record { points = points.new; statuses = statuses.new; lengths = lengths.new } in
        ArePathsTold (talk_of session.old.held) (asked_pairs ends.now before) result done.new before after }
    ensures progress { let before : Buffers = record { points = points.old; statuses = statuses.old; lengths = lengths.old } in
        result ≡ OK → MAX_CORNERS + 2 ≤ length points.old → 0 < length (asked_pairs ends.now before) → 0 < done.new }
    ensures only { (result ≡ OK) ⊎ (result ≡ MEMORY) }
    ensures same { session.new.held ≡ session.old.held }
{
    let mut steps = Steps::<L>::new(blank);
    let mut used = 0;
    *done = 0;
    'pairs: for k in 0..min(ends.len() / 2, min(statuses.len(), lengths.len())) {
        let rest = &mut points[used..];
        match tell_path(
            alloc,
            session,
            &ends[2 * k],
            &ends[2 * k + 1],
            rest,
            &mut steps,
        ) {
            Ok(Some((status, length))) => {
                statuses[k] = status;
                lengths[k] = length;
                used += length;
                *done = k + 1;
            }
            Ok(None) => return OK,
            Err(Memory) => return MEMORY,
        }
    }
    OK
}

// The status of the path between two points and the count of its points, which stand in the front of `points`; or nothing where
// they do not fit.
fn tell_path<L: Ledger>(
    alloc: Global,
    session: &mut GeoSession,
    from: &GeoPoint,
    to: &GeoPoint,
    points: &mut [GeoPoint],
    steps: &mut Steps<L>,
) -> Result<Option<(u8, usize)>, Memory>
    ensures path { IfOk result (λ told. TellsResult (IsPathFound (talk_of session.old.held) (from.now, to.now))
        (IsPathPut told points.old points.new)) }
    ensures few { IfOk result (λ told. told ≡ None → length points.old < MAX_CORNERS + 2) }
    ensures memory { OnErr result (points.new ≡ points.old) }
    ensures same { session.new.held ≡ session.old.held }
{
    let found = session.path(alloc, (from.x, from.y), (to.x, to.y), steps)?;
    Ok(put_path(&found, points, steps))
}

// The same for a path that is found.
fn put_path<L: Ledger>(
    found: &Result<Vec<Pt>, Bad>,
    points: &mut [GeoPoint],
    steps: &mut Steps<L>,
) -> Option<(u8, usize)>
    ensures put { IsPathPut result points.old points.new found.now }
{
    match found {
        Ok(path) if points.len() < path.len() => None,
        Ok(path) => {
            fill_points(points, path, steps);
            Some((OK, path.len()))
        }
        Err(bad) => Some((status_of(bad), 0)),
    }
}
