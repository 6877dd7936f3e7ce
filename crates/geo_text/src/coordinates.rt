// The numbers and the points of a record.
ghost use Rattle.std.specs.List.{All};
ghost use Rattle.std.specs.Prelude.{◌≡◌, ◌+◌, ◌≤◌, ◌<◌, ◌^◌, IfNone, IfOk, length};
ghost use Rattle.plane.specs.Point.{IsInLimit};
ghost use Rattle.plane.specs.declared.limits.TheConstants.{MAX_COORDINATE};
ghost use Rattle.geo_text.specs.Capped.{Reads, after_word};
ghost use Rattle.geo_text.specs.Reading.{pairs_of, point_read_at, range_fault as fault_of_range};

use crate::command::Bad;
use crate::fields::field;
use crate::number::number;
use crate::points::Points;
use csv::ByteRecord;
use exact_plane::{Memory, Pt};
use std::alloc::Global;

// Reads the numbers that the fields after the word are, or the first field that is none.
pub fn read_numbers(row: &ByteRecord, numbers: &mut Vec<i64>) -> Result<Result<(), Bad>, Memory>
    requires { length (after_word row.now) < 2 ^ 31 }
    ensures { IfOk result (Reads (after_word row.now) numbers.new.items) }
{
    numbers.clear();
    for place in 1..row.len() {
        let Some(z) = number(field(row, place)) else {
            return Ok(Err(Bad::Number(place as u32)));
        };
        numbers.push(z)?;
    }
    Ok(Ok(()))
}

// The first of some numbers that passes the limit, if one does.
pub fn range_fault(limit: u64, numbers: &[i64]) -> Option<Bad>
    requires limit { limit ≤ MAX_COORDINATE }
    requires few { length numbers.now < 2 ^ 31 }
    ensures fault { result ≡ fault_of_range limit 1 numbers.now }
    ensures none { IfNone result (All IsInLimit numbers.now) }
{
    for place in 0..numbers.len() {
        if numbers[place].unsigned_abs() > limit {
            return Some(Bad::Range(place as u32 + 1));
        }
    }
    None
}

// The points that each two of the numbers are.
pub fn points(alloc: Global, numbers: &[i64]) -> Result<Points, Memory>
    requires { All IsInLimit numbers.now }
    ensures { IfOk result (λ points. points ≡ pairs_of numbers.now) }
{
    let count = numbers.len() / 2;
    let mut points = Vec::with_capacity(alloc, count)?;
    for k in 0..count {
        points.push(point_from(numbers, 2 * k))?;
    }
    Ok(Points::of(points))
}

// The point that the number at a place and the next one are.
pub fn point_from(numbers: &[i64], place: usize) -> Pt
    requires within { place + 1 < length numbers.now }
    requires small { All IsInLimit numbers.now }
    ensures { result ≡ point_read_at place numbers.now }
{
    point(numbers[place], numbers[place + 1])
}

// The point with these coordinates.
pub fn point(x: i64, y: i64) -> Pt
    requires x { IsInLimit x }
    requires y { IsInLimit y }
    ensures { result ≡ record { x = x; y = y } }
{
    Pt::of(x, y).unwrap()
}
