// Paths in polygons that a session holds, as each version tells them.
use crate::full_chains::FULL_CHAINS;
use crate::polygons::{At, at, ats_of, points_of, polygon};
use exact_plane::{Memory, Pt, Steps};
use geo_session::Session;
use geo_text::{Command, Points, Version};
use plane::MAX_CORNERS;
use std::alloc::Global;
use std::process::Abort;
use std::sync::ledger::Ledger;

// In each row a name, a polygon, and the path between the first point and the last.
const CHAINS: &str = "round a corner: L: 4,1 2,2 1,4
and back: L: 1,4 2,2 4,1
to the corner: L: 4,1 2,2
from the corner: L: 2,2 1,4
nowhere: L: 1,1
in one triangle: L: 3,1 4,1
along an edge: L: 0,0 4,0
round two corners: U: 6,4 4,2 2,2 0,4";

pub(crate) fn paths<N: Ledger, R: Abort>(
    rt: &R,
    alloc: Global,
    steps: &mut Steps<N>,
) -> Result<(), Memory> {
    tells(rt, alloc, Version::One, CHAINS, steps)?;
    tells(rt, alloc, Version::Two, FULL_CHAINS, steps)
}

// In this version of the script each row of a table is told.
fn tells<N: Ledger, R: Abort>(
    rt: &R,
    alloc: Global,
    version: Version,
    table: &str,
    steps: &mut Steps<N>,
) -> Result<(), Memory> {
    for row in table.split("\n") {
        let (name, rest) = row.split_once(": ").expect(rt, "a name");
        assert!(rt; is_told(rt, alloc, version, rest, steps)?, "{name}");
    }
    Ok(())
}

fn is_told<N: Ledger, R: Abort>(
    rt: &R,
    alloc: Global,
    version: Version,
    row: &str,
    steps: &mut Steps<N>,
) -> Result<bool, Memory> {
    let (name, chain) = row.split_once(": ").expect(rt, "a polygon");
    let want = ats_of(rt, alloc, chain)?;
    let found = told_in(rt, alloc, version, name, &want, steps)?;
    Ok(found.as_slice() == want.as_slice())
}

// What a session of this version that holds the polygon with this name tells of the path between the ends of a list of points.
fn told_in<N: Ledger, R: Abort>(
    rt: &R,
    alloc: Global,
    version: Version,
    name: &str,
    ends: &[At],
    steps: &mut Steps<N>,
) -> Result<Vec<At>, Memory> {
    let mut session = Session::new();
    hold(rt, alloc, &mut session, version, name, steps)?;
    told(rt, alloc, &session, ends, steps)
}

// The session is of this version and holds the polygon with this name.
fn hold<N: Ledger, R: Abort>(
    rt: &R,
    alloc: Global,
    session: &mut Session,
    version: Version,
    name: &str,
    steps: &mut Steps<N>,
) -> Result<(), Memory> {
    let points = points_named(rt, alloc, name)?;
    assert!(rt; points.len() >= 3);
    assert!(rt; points.len() <= MAX_CORNERS);
    let mut out = Vec::new(alloc);
    if version == Version::Two {
        session.answer(alloc, Command::Two, &mut out, steps)?;
    }
    session.answer(alloc, Command::Polygon(Points::of(points)), &mut out, steps)?;
    assert!(rt; session.version() == version);
    Ok(())
}

fn points_named<R: Abort>(rt: &R, alloc: Global, name: &str) -> Result<Vec<Pt>, Memory> {
    let list = polygon(rt, alloc, name)?;
    points_of(rt, alloc, &list)
}

// What is told of the path between the ends of a list of points.
fn told<N: Ledger, R: Abort>(
    rt: &R,
    alloc: Global,
    session: &Session,
    ends: &[At],
    steps: &mut Steps<N>,
) -> Result<Vec<At>, Memory> {
    let first = ends.first().expect(rt, "a start");
    let last = ends.last().expect(rt, "a goal");
    let (from, to) = (at(rt, first.0, first.1), at(rt, last.0, last.1));
    let found = match session.version() {
        Version::One => session.chain(alloc, &from, &to, steps)?,
        Version::Two => session.path(alloc, &from, &to, steps)?,
    };
    parts_of(alloc, &found.ok().expect(rt, "both in the polygon"), steps)
}

fn parts_of<N: Ledger>(
    alloc: Global,
    points: &[Pt],
    steps: &mut Steps<N>,
) -> Result<Vec<At>, Memory> {
    let mut parts = Vec::new(alloc);
    for point in points {
        parts.push(point.parts(steps))?;
    }
    Ok(parts)
}
