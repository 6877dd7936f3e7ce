// Many questions in one call, and fractions of more than 64 bits.
ghost use Rattle.std.specs.Prelude.{◌≡◌, ◌<◌};

use crate::fractions::{GeoFraction, fill_corners};
use crate::handle::GeoSession;
use crate::many::{geo_session_paths, geo_session_places};
use crate::point::GeoPoint;
use crate::session::{geo_session_answer, geo_session_clear};
use crate::status::{NO_POLYGON, OK};
use crate::tests::L;
use exact_plane::{Hom, Steps};
use std::marker::Brand;
use std::process::Abort;
use std::sync::ledger::{Blank, Ledger};
use std::test::Fail;

#[test]
fn many_questions(rt: HostRuntime) -> Result<(), Fail> {
    let alloc = rt.alloc();
    let mut session = GeoSession::empty(alloc);
    let points = [(1, 1), (4, 1), (3, 3), (1, 1_000_001), (0, 0)].map(at);
    let mut places = [9; 4];
    geo_session_places(alloc, &mut session, &points, &mut places);
    assert!(rt; places == [NO_POLYGON, NO_POLYGON, NO_POLYGON, 32]);
    let mut needed = 0;
    assert!(rt; geo_session_answer(alloc, &mut session, L, &mut needed) == OK);
    geo_session_places(alloc, &mut session, &points, &mut places);
    assert!(rt; places == [1, 2, 0, 32]);
    geo_session_places(alloc, &mut session, &[at((3, 3))], &mut places);
    assert!(rt; places == [0, 2, 0, 32]);
    let ends = [
        (4, 1),
        (1, 4),
        (4, 1),
        (3, 3),
        (0, 0),
        (4, 0),
        (1, 4),
        (4, 1),
        (0, 0),
    ]
    .map(at);
    let mut told = [(7, 7); 6].map(at);
    let (mut statuses, mut lengths, mut done) = ([9; 5], [9; 5], 9);
    let status = geo_session_paths(
        alloc,
        &mut session,
        &ends,
        &mut told,
        &mut statuses,
        &mut lengths,
        &mut done,
    );
    assert!(rt; status == OK && done == 3);
    assert!(rt; statuses == [OK, 22, OK, 9, 9] && lengths == [3, 0, 2, 9, 9]);
    assert!(rt; are(&told, &[(4, 1), (2, 2), (1, 4), (0, 0), (4, 0), (7, 7)]));
    geo_session_clear(alloc, &mut session);
    large_fractions::<_, Brand>(&rt, Blank::new(1));
    Ok(())
}

fn at((x, y): (i64, i64)) -> GeoPoint {
    GeoPoint { x, y }
}

fn are(points: &[GeoPoint], want: &[(i64, i64)]) -> bool {
    points.len() == want.len() && points.iter().zip(want).all(|(p, w)| (p.x, p.y) == *w)
}

// The numerator is -(2^70 + 1), which is -65 * 2^64 + (2^64 - 1).
fn large_fractions<R: Abort, B: Ledger>(rt: &R, blank: Blank)
    requires name { blank.name ≡ B.name }
    requires parts { blank.parts ≡ B.parts }
    requires countable { 0 < blank.parts }
{
    let mut steps = Steps::<B>::new(blank);
    let mut out = [GeoFraction {
        high: 7,
        low: 7,
        denominator: 7,
    }; 3];
    let corner = Hom::of_parts(-(1 << 70) - 1, 10, 4);
    assert!(rt; corner.is_some());
    if let Some(corner) = corner {
        fill_corners(&mut out, &[corner], &mut steps);
    }
    let parts = out.map(|f| (f.high, f.low, f.denominator));
    assert!(rt; parts == [(-65, u64::MAX, 4), (0, 5, 2), (7, 7, 7)]);
}
