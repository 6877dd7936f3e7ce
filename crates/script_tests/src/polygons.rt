// Polygons with names.
use exact_plane::{Memory, Pt};
use std::alloc::Global;
use std::process::Abort;

pub(crate) type At = (i64, i64);

const POLYGONS: &str = "L: 0,0 4,0 4,2 2,2 2,4 0,4
L clockwise: 0,0 0,4 2,4 2,2 4,2 4,0
U: 0,0 6,0 6,4 4,4 4,2 2,2 2,4 0,4
Z: 0,0 2,0 2,1 4,1 4,2 1,2 1,1 0,1
gate: 0,0 2,0 3,2 4,0 9,0 9,4 7,4 6,2 5,4 0,4
flat: 0,0 2,0 4,0 6,0 6,4 0,4
bend: 0,0 12,0 12,8 8,8 8,4 4,4 4,8 0,8 0,7 2,6 0,5
bend clockwise: 0,0 0,5 2,6 0,7 0,8 4,8 4,4 8,4 8,8 12,8 12,0
tips: 0,0 1,0 2,2 3,0 4,2 5,0 6,2 7,0 8,0 8,4 0,4
three: 0,0 3,0 3,1 4,0 12,0 12,8 11,8 10,6 9,8 8,8 8,4 6,4 4,4 4,8 0,8 0,7 2,6 0,5
fan: 0,0 4,0 5,2 6,0 10,0 10,4 8,5 6,6 4,6 2,5 0,4
wide: -8388607,-8388607 0,-8388607 8388607,-8388607 8388607,8388607 -8388607,8388607
slant: 0,0 2,-2 3,2 5,-1 8,-1 9,6 11,-1 13,8 13,12 7,12 6,4 5,12 0,12";

// The polygon with this name.
pub(crate) fn polygon<R: Abort>(rt: &R, alloc: Global, name: &str) -> Result<Vec<At>, Memory> {
    for row in POLYGONS.split("\n") {
        let (first, vertices) = row.split_once(": ").expect(rt, "a name");
        if first == name {
            return ats_of(rt, alloc, vertices);
        }
    }
    panic!(rt; "no polygon {name}")
}

// The points of a text.
pub(crate) fn ats_of<R: Abort>(rt: &R, alloc: Global, text: &str) -> Result<Vec<At>, Memory> {
    let mut list = Vec::new(alloc);
    for point in text.split(" ") {
        let (x, y) = point.split_once(",").expect(rt, "two numbers");
        list.push((number(rt, x), number(rt, y)))?;
    }
    Ok(list)
}

fn number<R: Abort>(rt: &R, text: &str) -> i64 {
    text.parse::<i64>().ok().expect(rt, "a number")
}

pub(crate) fn points_of<R: Abort>(rt: &R, alloc: Global, list: &[At]) -> Result<Vec<Pt>, Memory> {
    let mut points = Vec::new(alloc);
    for (x, y) in list {
        points.push(at(rt, *x, *y))?;
    }
    Ok(points)
}

pub(crate) fn at<R: Abort>(rt: &R, x: i64, y: i64) -> Pt {
    Pt::of(x, y).expect(rt, "within the limit")
}
