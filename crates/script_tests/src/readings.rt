// What a script reads as, a line for each record.
use exact_plane::{Memory, Pt, Steps};
use geo_text::{Command, Points, Script, put_bad, put_line_end, put_word};
use itoa::Buffer;
use std::alloc::Global;
use std::sync::ledger::Ledger;

pub(crate) fn readings<L: Ledger>(
    alloc: Global,
    bytes: &[u8],
    steps: &mut Steps<L>,
) -> Result<Vec<u8>, Memory> {
    let mut script = Script::open(alloc, bytes);
    let mut out = Vec::new(alloc);
    for _ in 0..u64::MAX {
        match script.next_command()? {
            Some(Ok(command)) => put_command(&mut out, command, steps)?,
            Some(Err(bad)) => put_bad(&mut out, &bad)?,
            None => break,
        }
    }
    Ok(out)
}

// A line: the word, and each point, or two numbers, behind a space.
fn put_command<L: Ledger>(
    out: &mut Vec<u8>,
    command: Command,
    steps: &mut Steps<L>,
) -> Result<(), Memory> {
    put_words(out, command, steps)?;
    put_line_end(out)
}

fn put_words<L: Ledger>(
    out: &mut Vec<u8>,
    command: Command,
    steps: &mut Steps<L>,
) -> Result<(), Memory> {
    match command {
        Command::Polygon(points) => put_list(out, "polygon", points, steps),
        Command::Inside(point) => put_named(out, "inside", &[point], steps),
        Command::Check(points) => put_list(out, "check", points, steps),
        Command::Path(from, to) => put_named(out, "path", &[from, to], steps),
        Command::Tree(point) => put_named(out, "tree", &[point], steps),
        Command::Reach(point) => put_named(out, "reach", &[point], steps),
        Command::See(point) => put_named(out, "see", &[point], steps),
        Command::Kernel => put_word(out, "kernel"),
        Command::Hull(points) => put_list(out, "hull", points, steps),
        Command::Two => put_word(out, "two"),
        Command::Round(points) => put_list(out, "round", points, steps),
        Command::Guards => put_word(out, "guards"),
        Command::Pair(i, j) => put_pair(out, i, j),
        Command::Sights => put_word(out, "sights"),
    }
}

fn put_list<L: Ledger>(
    out: &mut Vec<u8>,
    word: &str,
    points: Points,
    steps: &mut Steps<L>,
) -> Result<(), Memory> {
    put_named(out, word, points.into_vec().as_slice(), steps)
}

fn put_named<L: Ledger>(
    out: &mut Vec<u8>,
    word: &str,
    points: &[Pt],
    steps: &mut Steps<L>,
) -> Result<(), Memory> {
    put_word(out, word)?;
    put_points(out, points, steps)
}

fn put_pair(out: &mut Vec<u8>, i: i64, j: i64) -> Result<(), Memory> {
    put_word(out, "pair")?;
    put_numbers(out, i, j)
}

fn put_points<L: Ledger>(
    out: &mut Vec<u8>,
    points: &[Pt],
    steps: &mut Steps<L>,
) -> Result<(), Memory> {
    for point in points {
        put_point(out, point, steps)?;
    }
    Ok(())
}

fn put_point<L: Ledger>(out: &mut Vec<u8>, point: &Pt, steps: &mut Steps<L>) -> Result<(), Memory> {
    let (x, y) = point.parts(steps);
    put_numbers(out, x, y)
}

fn put_numbers(out: &mut Vec<u8>, x: i64, y: i64) -> Result<(), Memory> {
    put_word(out, " ")?;
    put_word(out, Buffer::new().format(x))?;
    put_word(out, ",")?;
    put_word(out, Buffer::new().format(y))
}
