// Rows of tables, read from text: points, rings, rational points and answers.
use exact_plane::{Direction, Hom, Pt, Steps};
use ring_check::Ring;
use std::alloc::Global;
use std::cmp::Ordering;
use std::sync::ledger::Ledger;

// The name of a row, what is given, and what is wanted.
pub(crate) fn row_of(row: &str) -> Option<(&str, &str, &str)> {
    if let Some((name, rest)) = row.split_once(" | ")
        && let Some((given, want)) = rest.split_once(" | ")
    {
        Some((name, given, want))
    } else {
        None
    }
}

// A point: two numbers with a comma between them.
pub(crate) fn point_of(word: &str) -> Option<Pt> {
    if let Some((x, y)) = word.split_once(',')
        && let Ok(x) = x.parse()
        && let Ok(y) = y.parse()
    {
        Pt::of(x, y)
    } else {
        None
    }
}

// Points with blanks between them.
pub(crate) fn points_of(alloc: Global, list: &str) -> Option<Vec<Pt>> {
    let mut points = Vec::new(alloc);
    for word in list.split_whitespace() {
        if let Some(point) = point_of(word)
            && points.push(point).is_ok()
        {
            continue;
        }
        return None;
    }
    Some(points)
}

// The ring of these points.
pub(crate) fn ring_of<L: Ledger>(alloc: Global, list: &str, steps: &mut Steps<L>) -> Option<Ring> {
    match points_of(alloc, list) {
        Some(points) => Ring::of(points, steps).ok(),
        None => None,
    }
}

pub(crate) fn yes_or_no(answer: bool) -> &'static str {
    if answer { "yes" } else { "no" }
}

pub(crate) fn direction(direction: Direction) -> &'static str {
    match direction {
        Direction::Left => "left",
        Direction::Right => "right",
        Direction::Straight => "straight",
    }
}

pub(crate) fn ordering(ordering: Ordering) -> &'static str {
    match ordering {
        Ordering::Less => "less",
        Ordering::Equal => "equal",
        Ordering::Greater => "greater",
    }
}

// Whether the numbers are X, Y and W of a rational point, or multiples of them.
pub(crate) fn is_same<L: Ledger>(p: &Hom, numbers: &str, steps: &mut Steps<L>) -> bool {
    let (px, py, pw) = p.parts(steps);
    match parts_of(numbers) {
        Some((x, y, w)) => is_equal((px, pw), (x, w)) && is_equal((py, pw), (y, w)),
        None => false,
    }
}

// Whether two fractions are equal, where products have no overflow.
fn is_equal(one: (i128, i128), other: (i128, i128)) -> bool {
    one.0.wrapping_mul(other.1) == other.0.wrapping_mul(one.1)
}

// X, Y and W of a rational point.
pub(crate) type Parts = (i128, i128, i128);

pub(crate) fn parts_of(numbers: &str) -> Option<Parts> {
    if let Some((x, rest)) = numbers.split_once(',')
        && let Some((y, w)) = rest.split_once(',')
        && let Some(x) = number_of(x)
        && let Some(y) = number_of(y)
        && let Some(w) = number_of(w)
    {
        Some((x, y, w))
    } else {
        None
    }
}

pub(crate) fn number_of(word: &str) -> Option<i128> {
    word.parse().ok()
}
