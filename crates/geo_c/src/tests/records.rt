// Records in numbers that are answered.
use crate::ask::{geo_session_ask, geo_session_fractions};
use crate::counts::GeoCounts;
use crate::fractions::GeoFraction;
use crate::handle::GeoSession;
use crate::numbers::{NOTHING, SOURCE};
use crate::session::geo_session_clear;
use crate::status::OK;
use crate::tests::L;
use crate::tests::row::{Row, asked, asks};
use std::process::Abort;
use std::test::Fail;

#[test]
fn records_in_numbers(rt: HostRuntime) -> Result<(), Fail> {
    let rows: [Row; 14] = [
        asks((9, &[], OK), &[2, 0], &[], 0, b"", b""),
        asks(
            (0, &[0, 0, 4, 0, 4, 2, 2, 2, 2, 4, 0, 4], OK),
            &[6, 0],
            &[],
            0,
            L,
            b"polygon,6\n",
        ),
        asks((1, &[1, 1], OK), &[1], &[], 0, b"inside,1,1\n", b"inside\n"),
        asks(
            (2, &[1, 4, 4, 1], OK),
            &[2, 0],
            &[],
            0,
            b"check,1,4,4,1\n",
            b"not,leaves,0\n",
        ),
        asks(
            (3, &[1, 4, 4, 1], OK),
            &[],
            &[(1, 4), (2, 2), (4, 1)],
            0,
            b"path,1,4,4,1\n",
            b"path,3,1,4,2,2,4,1\n",
        ),
        asks(
            (4, &[2, 4], OK),
            &[SOURCE, 3, 3, SOURCE, NOTHING, SOURCE],
            &[],
            0,
            b"tree,2,4\n",
            b"tree,6\nfrom,0,s\nfrom,1,3\nfrom,2,3\nfrom,3,s\nfrom,4,-\nfrom,5,s\n",
        ),
        asks(
            (5, &[4, 1], OK),
            &[],
            &[(2, 4), (2, 2), (4, 1)],
            0,
            b"reach,4,1\n",
            b"path,3,2,4,2,2,4,1\n",
        ),
        asks(
            (6, &[1, 1], OK),
            &[0, 1, 2, 3, 4, 5],
            &[],
            24,
            b"see,1,1\n",
            b"see,6\npart,0,0,0,4,0\npart,1,4,0,4,2\npart,2,4,2,2,2\npart,3,2,2,2,4\npart,4,2,4,0,4\npart,5,0,4,0,0\n",
        ),
        asks(
            (7, &[], OK),
            &[],
            &[],
            8,
            b"kernel\n",
            b"kernel,4\ncorner,0,0\ncorner,2,0\ncorner,2,2\ncorner,0,2\n",
        ),
        asks(
            (8, &[4, 2, 2, 4, 1, 2], OK),
            &[0, 1, 3, 1, 2, 2, 2, 0, 3],
            &[
                (4, 2),
                (2, 2),
                (2, 4),
                (2, 4),
                (1, 2),
                (1, 2),
                (2, 2),
                (4, 2),
            ],
            0,
            b"hull,4,2,2,4,1,2\n",
            b"hull,3\nside,0,1,3,4,2,2,2,2,4\nside,1,2,2,2,4,1,2\nside,2,0,3,1,2,2,2,4,2\n",
        ),
        asks(
            (10, &[4, 2, 2, 4, 1, 2], OK),
            &[0, 1, 2],
            &[],
            0,
            b"round,4,2,2,4,1,2\n",
            b"round,3,0,1,2\n",
        ),
        asks((11, &[], OK), &[3], &[], 0, b"guards\n", b"guards,1,3\n"),
        asks(
            (12, &[1, 4], OK),
            &[],
            &[(4, 0), (2, 2), (2, 4)],
            0,
            b"pair,1,4\n",
            b"path,3,4,0,2,2,2,4\n",
        ),
        asks(
            (13, &[], OK),
            &[
                0, 1, 0, 2, 0, 3, 0, 4, 0, 5, 1, 2, 1, 3, 1, 5, 2, 3, 3, 4, 3, 5, 4, 5,
            ],
            &[],
            0,
            b"sights\n",
            b"sights,12\nsight,0,1\nsight,0,2\nsight,0,3\nsight,0,4\nsight,0,5\nsight,1,2\nsight,1,3\nsight,1,5\nsight,2,3\nsight,3,4\nsight,3,5\nsight,4,5\n",
        ),
    ];
    let alloc = rt.alloc();
    let mut session = GeoSession::empty(alloc);
    for row in &rows {
        asked(&rt, alloc, &mut session, row);
    }
    let mut counts = GeoCounts {
        numbers: 7,
        points: 7,
        fractions: 7,
    };
    assert!(rt; geo_session_ask(alloc, &mut session, 7, &[], &mut counts) == OK);
    let mut out = [GeoFraction {
        high: 7,
        low: 7,
        denominator: 7,
    }; 9];
    geo_session_fractions(alloc, &mut session, &mut out);
    let told = out.map(|f| (f.high, f.low, f.denominator));
    let want = [0, 0, 2, 0, 2, 2, 0, 2].map(|low| (0, low, 1));
    assert!(rt; &told[..8] == want.as_slice() && told[8] == (7, 7, 7));
    geo_session_clear(alloc, &mut session);
    Ok(())
}
