// Records in numbers that are refused.
use crate::ask::geo_session_ask;
use crate::counts::GeoCounts;
use crate::handle::GeoSession;
use crate::session::geo_session_clear;
use crate::status::{CLASH, FEW, FIELDS, MANY, NO_POLYGON, NO_TREE, OK, RANGE, WORD};
use crate::tests::L;
use crate::tests::row::{Row, asked, asks};
use std::process::Abort;
use std::test::Fail;

#[test]
fn refusals_in_numbers(rt: HostRuntime) -> Result<(), Fail> {
    let alloc = rt.alloc();
    let mut session = GeoSession::empty(alloc);
    let rows: [Row; 12] = [
        asks(
            (1, &[1, 1], NO_POLYGON),
            &[],
            &[],
            0,
            b"inside,1,1\n",
            b"bad,no_polygon\n",
        ),
        asks((9, &[], WORD), &[], &[], 0, b"geo,2\n", b"bad,word\n"),
        asks((14, &[], WORD), &[], &[], 0, b"more\n", b"bad,word\n"),
        asks(
            (3, &[1, 4, 4], FIELDS),
            &[],
            &[],
            0,
            b"path,1,4,4\n",
            b"bad,fields\n",
        ),
        asks(
            (0, &[0, 0, 4, 0], FEW),
            &[],
            &[],
            0,
            b"polygon,0,0,4,0\n",
            b"bad,few\n",
        ),
        asks(
            (3, &[1, 4, 4, -1_000_001], 34),
            &[4],
            &[],
            0,
            b"path,1,4,4,-1000001\n",
            b"bad,range,4\n",
        ),
        asks(
            (2, &[0, 0, 0, 0, 0, 0, 0, 0, 0, 1_000_001], RANGE),
            &[10],
            &[],
            0,
            b"check,0,0,0,0,0,0,0,0,0,1000001\n",
            b"bad,range,10\n",
        ),
        asks(
            (0, &[0, 0, 4, 4, 4, 0, 0, 4], CLASH),
            &[0, 2],
            &[],
            0,
            b"polygon,0,0,4,4,4,0,0,4\n",
            b"bad,clash,0,2\n",
        ),
        asks(
            (0, &[0, 0, 4, 0, 4, 2, 2, 2, 2, 4, 0, 4], OK),
            &[6, 0],
            &[],
            0,
            L,
            b"polygon,6\n",
        ),
        asks(
            (5, &[1, 1], NO_TREE),
            &[],
            &[],
            0,
            b"reach,1,1\n",
            b"bad,no_tree\n",
        ),
        asks(
            (3, &[1, 1, 3, 3], 22),
            &[2],
            &[],
            0,
            b"path,1,1,3,3\n",
            b"bad,outside,2\n",
        ),
        asks(
            (12, &[0, 6], 42),
            &[2],
            &[],
            0,
            b"pair,0,6\n",
            b"bad,index,2\n",
        ),
    ];
    for row in &rows {
        asked(&rt, alloc, &mut session, row);
    }
    let mut counts = GeoCounts {
        numbers: 7,
        points: 7,
        fractions: 7,
    };
    let many = vec![in alloc; 0; 2 * 4097]?;
    assert!(rt; geo_session_ask(alloc, &mut session, 0, &many, &mut counts) == MANY);
    assert!(rt; (counts.numbers, counts.points, counts.fractions) == (0, 0, 0));
    geo_session_clear(alloc, &mut session);
    Ok(())
}
