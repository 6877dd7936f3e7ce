// The texts of answers: refusals, points and rational points.
ghost use Rattle.std.specs.Prelude.{◌≡◌, ◌+◌};

use crate::polygons::{ats_of, points_of};
use exact_plane::{Hom, Memory, Pt, Steps};
use geo_text::{Bad, Points, put_bad, put_hom, put_index, put_line_end, put_pt, put_word};
use std::alloc::Global;
use std::process::Abort;
use std::sync::ledger::Ledger;

const REFUSALS: [Bad; 12] = [
    Bad::Word,
    Bad::Fields,
    Bad::Few,
    Bad::Many,
    Bad::Number(1),
    Bad::Range(32_768),
    Bad::Clash(0, 4_294_967_295),
    Bad::NoPolygon,
    Bad::Outside(2),
    Bad::NoTree,
    Bad::Index(1),
    Bad::Large,
];

// The lines of these refusals, in turn.
const LINES: &str = "\
bad,word
bad,fields
bad,few
bad,many
bad,number,1
bad,range,32768
bad,clash,0,4294967295
bad,no_polygon
bad,outside,2
bad,no_tree
bad,index,1
bad,large
";

#[test]
fn refusals(rt: HostRuntime) {
    assert!(rt; are_lines(rt.alloc()) == Some(true));
    assert!(rt; is_put(rt.alloc()) == Some(true));
    assert!(rt; Points::of(Vec::new(rt.alloc())).as_slice().is_empty());
}

fn are_lines(alloc: Global) -> Option<bool> {
    let mut out = Vec::new(alloc);
    for bad in &REFUSALS {
        put_bad(&mut out, bad).ok()?;
    }
    Some(out.as_slice() == LINES.as_bytes())
}

fn is_put(alloc: Global) -> Option<bool> {
    let mut out = Vec::new(alloc);
    put_word(&mut out, "polygon").ok()?;
    put_index(&mut out, 4096).ok()?;
    put_line_end(&mut out).ok()?;
    Some(out.as_slice() == b"polygon,4096\n".as_slice())
}

// A point, or two lines by two points each, and the text of the point, or of the point where the lines meet.
const POINTS: &str = "\
the origin | 0,0 | at,0,0
x and y | 12,3 | at,12,3
a minus at x | -4,5 | at,-4,5
a minus at y | 40,-50 | at,40,-50
the corner at the limit | 1000000,1000000 | at,1000000,1000000
the opposite corner | -1000000,-1000000 | at,-1000000,-1000000
a corner at the limit of version 2 | 8388607,-8388607 | at,8388607,-8388607
halves | 5,1 3,2 0,0 0,1 | at,0,7/2
quarters | 0,5 3,1 0,0 6,0 | at,15/4,0
a minus | -1,0 0,1 0,0 -1,1 | at,-1/2,1/2
whole numbers | 0,0 6,2 3,0 3,5 | at,3,1
the origin | 0,0 4,0 0,0 0,3 | at,0,0
long numbers | -1000000,-1000000 1000000,999999 -1000000,1000000 999999,-1000000 | at,-1000000/7999996000001,-3999999000000/7999996000001
the longest numbers | -8388607,-8388607 8388607,8388606 -8388607,8388607 8388606,-8388607 | at,-8388607/562949785649165,-281474901213189/562949785649165
past the limits | -1000000,-1000000 1000000,999999 -1000000,-999999 999999,1000000 | at,-3000000,-2999999";

pub(crate) fn points<L: Ledger, R: Abort>(rt: &R, alloc: Global, steps: &mut Steps<L>) {
    for row in POINTS.split('\n') {
        assert!(rt; is_point_text(rt, alloc, row, steps), "{row}");
    }
}

fn is_point_text<L: Ledger, R: Abort>(
    rt: &R,
    alloc: Global,
    row: &str,
    steps: &mut Steps<L>,
) -> bool {
    if let Some((_, rest)) = row.split_once(" | ")
        && let Some((list, want)) = rest.split_once(" | ")
        && let Ok(list) = ats_of(rt, alloc, list)
        && let Ok(points) = points_of(rt, alloc, &list)
    {
        let mut out = Vec::new(alloc);
        put_word(&mut out, "at").is_ok()
            && put_met(&mut out, &points, steps).is_some()
            && out.as_slice() == want.as_bytes()
    } else {
        false
    }
}

// The text of the point, or of the point where two lines meet.
fn put_met<L: Ledger>(out: &mut Vec<u8>, points: &[Pt], steps: &mut Steps<L>) -> Option<()> {
    match points {
        [point] => put_counted(out, point, steps).ok(),
        [a, b, c, d] => put_hom(out, &Hom::meet(a, b, c, d, steps)?, steps).ok(),
        _ => None,
    }
}

// The text of a point takes 64 steps, whatever point it is.
fn put_counted<L: Ledger>(out: &mut Vec<u8>, point: &Pt, steps: &mut Steps<L>) -> Result<(), Memory>
    ensures { steps.new ≡ steps.old + 64 }
{
    put_pt(out, point, steps)
}
