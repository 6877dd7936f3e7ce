// A record in numbers beside the same record as text.
use crate::ask::{geo_session_ask, geo_session_numbers, geo_session_points};
use crate::counts::GeoCounts;
use crate::handle::GeoSession;
use crate::point::GeoPoint;
use crate::session::{geo_session_answer, geo_session_text};
use crate::status::OK;
use std::alloc::Global;
use std::process::Abort;

// A record in numbers, its status and what its reply holds; and the answer to the same record as text.
#[derive(Drop)]
pub(crate) struct Row<'a> {
    word: u8,
    fields: &'a [i64],
    status: u8,
    numbers: &'a [u32],
    points: &'a [(i64, i64)],
    fractions: usize,
    record: &'a [u8],
    text: &'a [u8],
}

pub(crate) fn asks<'a>(
    asked: (u8, &'a [i64], u8),
    numbers: &'a [u32],
    points: &'a [(i64, i64)],
    fractions: usize,
    record: &'a [u8],
    text: &'a [u8],
) -> Row<'a> {
    let (word, fields, status) = asked;
    Row {
        word,
        fields,
        status,
        numbers,
        points,
        fractions,
        record,
        text,
    }
}

// A record is asked in numbers and as text.
pub(crate) fn asked<R: Abort>(rt: &R, alloc: Global, session: &mut GeoSession, row: &Row) {
    let mut counts = GeoCounts {
        numbers: 7,
        points: 7,
        fractions: 7,
    };
    assert!(rt;
        geo_session_ask(alloc, session, row.word, row.fields, &mut counts) == row.status,
        "{}",
        row.word
    );
    assert!(rt; counts.numbers == row.numbers.len(), "{}", row.word);
    assert!(rt; counts.points == row.points.len(), "{}", row.word);
    assert!(rt; counts.fractions == row.fractions, "{}", row.word);
    let mut numbers = [7; 24];
    geo_session_numbers(alloc, session, &mut numbers);
    for (number, want) in numbers.iter().zip(row.numbers) {
        assert!(rt; *number == *want, "{}", row.word);
    }
    let mut points = [GeoPoint { x: 7, y: 7 }; 8];
    geo_session_points(alloc, session, &mut points);
    for (point, want) in points.iter().zip(row.points) {
        assert!(rt; (point.x, point.y) == *want, "{}", row.word);
    }
    let mut needed = 0;
    assert!(rt; geo_session_answer(alloc, session, row.record, &mut needed) == OK);
    let mut text = [b'?'; 160];
    geo_session_text(alloc, session, &mut text);
    assert!(rt; text.get(..needed) == Some(row.text), "{}", row.word);
}
