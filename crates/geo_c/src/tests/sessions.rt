// A session in pieces, with questions between them.
use crate::handle::GeoSession;
use crate::point::GeoPoint;
use crate::session::{
    geo_session_answer, geo_session_clear, geo_session_inside, geo_session_path, geo_session_reach,
    geo_session_text,
};
use crate::status::{NO_POLYGON, NO_TREE, OK};
use crate::tests::L;
use std::process::Abort;
use std::test::Fail;

#[test]
fn a_session(rt: HostRuntime) -> Result<(), Fail> {
    let alloc = rt.alloc();
    let mut session = GeoSession::empty(alloc);
    let mut place = 9;
    let mut needed = 0;
    let mut points = [GeoPoint { x: 7, y: 7 }; 4];
    assert_eq!(rt;
        geo_session_inside(alloc, &mut session, 1, 1, &mut place),
        NO_POLYGON
    );
    assert_eq!(rt;
        geo_session_inside(alloc, &mut session, 1, 1_000_001, &mut place),
        32
    );
    assert_eq!(rt; place, 9);
    assert_eq!(rt; geo_session_answer(alloc, &mut session, L, &mut needed), OK);
    assert_eq!(rt; needed, 10);
    let mut out = [b'?'; 12];
    geo_session_text(alloc, &mut session, &mut out);
    assert_eq!(rt; &out[..], b"polygon,6\n??".as_slice());
    geo_session_text(alloc, &mut session, &mut out[..3]);
    for (x, y, want) in [(1, 1, 1), (4, 1, 2), (3, 3, 0)] {
        assert_eq!(rt;
            geo_session_inside(alloc, &mut session, x, y, &mut place),
            OK
        );
        assert_eq!(rt; place, want, "{x},{y}");
    }
    assert_eq!(rt;
        geo_session_path(alloc, &mut session, 4, 1, 1, 4, &mut points, &mut needed),
        OK
    );
    assert_eq!(rt; needed, 3);
    check(&rt, &points, [(4, 1), (2, 2), (1, 4), (7, 7)]);
    assert_eq!(rt;
        geo_session_path(alloc, &mut session, 4, 1, 3, 3, &mut points, &mut needed),
        22
    );
    assert_eq!(rt;
        geo_session_reach(alloc, &mut session, 0, 4, &mut points[..2], &mut needed),
        NO_TREE
    );
    assert_eq!(rt;
        geo_session_answer(alloc, &mut session, b"tree,1,4\n", &mut needed),
        OK
    );
    assert_eq!(rt;
        geo_session_reach(alloc, &mut session, 4, 1, &mut points[..2], &mut needed),
        OK
    );
    assert_eq!(rt; needed, 3);
    check(&rt, &points, [(1, 4), (2, 2), (1, 4), (7, 7)]);
    geo_session_clear(alloc, &mut session);
    assert_eq!(rt;
        geo_session_reach(alloc, &mut session, 4, 1, &mut points, &mut needed),
        NO_POLYGON
    );
    Ok(())
}

#[test]
fn a_mark_in_a_later_piece_is_text(rt: HostRuntime) -> Result<(), Fail> {
    let alloc = rt.alloc();
    let mut session = GeoSession::empty(alloc);
    let mut needed = 0;
    let mut out = [b'?'; 9];
    let marked = b"\xEF\xBB\xBFkernel\n";
    assert!(rt; geo_session_answer(alloc, &mut session, marked, &mut needed) == OK);
    assert!(rt; needed == 15, "{needed}");
    assert!(rt; geo_session_answer(alloc, &mut session, marked, &mut needed) == OK);
    assert!(rt; needed == 9, "{needed}");
    geo_session_text(alloc, &mut session, &mut out);
    assert!(rt; &out[..] == b"bad,word\n".as_slice());
    geo_session_clear(alloc, &mut session);
    Ok(())
}

fn check<R: Abort>(rt: &R, points: &[GeoPoint; 4], want: [(i64, i64); 4]) {
    for i in 0..4 {
        let point = &points[i];
        assert_eq!(rt; (point.x, point.y), want[i]);
    }
}
