// Scripts and what they read as: a line for each record, with the points of a command or the refusal. Each row is a name, a
// script, a line with an equals sign, and the reading.
mod causes;
mod commands;
mod fields;
mod long;
mod version_2;

use crate::readings::readings;
use causes::CAUSES;
use commands::COMMANDS;
use exact_plane::Steps;
use fields::FIELDS;
use long::LONG;
use std::alloc::{AllocError, Global};
use std::process::Abort;
use std::sync::ledger::Ledger;
use version_2::VERSION_2;

// Scripts that are no text, have empty lines or end without a line feed.
#[rattlefmt::skip]
const OTHERS: [(&str, &[u8], &[u8]); 6] = [
    ("nothing", b"", b""),
    ("no last line feed", b"polygon,0,0,4,0,0,3", b"polygon 0,0 4,0 0,3\n"),
    ("ends of lines", b"a\rb\nc\r\n\n\r\n\rkernel", b"bad,word\nbad,word\nbad,word\nkernel\n"),
    ("not text", b"\xFF\xFE\npolygon,0,0,\xFF,0,1,1\n", b"bad,word\nbad,number,3\n"),
    ("no last line feed in version 2", b"geo,2", b"two\n"),
    ("empty lines in version 2", b"\n\r\ngeo,2\nkernel\n", b"two\nkernel\n"),
];

pub(crate) fn scripts<L: Ledger, R: Abort>(rt: &R, alloc: Global, steps: &mut Steps<L>) {
    for table in [FIELDS, COMMANDS, CAUSES, VERSION_2, LONG] {
        for row in table.split("\n\n") {
            assert!(rt; is_read(alloc, row, steps), "{row}");
        }
    }
    for (name, script, want) in OTHERS {
        assert!(rt; reads_as(alloc, script, want, steps), "{name}");
    }
}

fn is_read<L: Ledger>(alloc: Global, row: &str, steps: &mut Steps<L>) -> bool {
    if let Some((_, rest)) = row.split_once('\n')
        && let Some((script, want)) = rest.split_once("\n=\n")
        && let Some(script) = expanded(alloc, script)
        && let Some(want) = expanded(alloc, want)
    {
        reads_as(alloc, &script, &want, steps)
    } else {
        false
    }
}

fn reads_as<L: Ledger>(alloc: Global, script: &[u8], want: &[u8], steps: &mut Steps<L>) -> bool {
    match readings(alloc, script, steps) {
        Ok(found) => found.as_slice() == want,
        Err(_) => false,
    }
}

// A text and a last line feed, with the part in brackets, if there is one, as often as the text says.
fn expanded(alloc: Global, text: &str) -> Option<Vec<u8>> {
    let (front, rest) = text.split_once('[').unwrap_or((text, "*0]"));
    if let Some((part, rest)) = rest.split_once('*')
        && let Some((count, end)) = rest.split_once(']')
        && let Ok(count) = count.parse()
    {
        repeated(alloc, front, part, count, end).ok()
    } else {
        None
    }
}

fn repeated(
    alloc: Global,
    front: &str,
    part: &str,
    count: usize,
    end: &str,
) -> Result<Vec<u8>, AllocError> {
    let mut all = Vec::from_slice(alloc, front.as_bytes())?;
    for _ in 0..count {
        all.extend_from_slice(part.as_bytes())?;
    }
    all.extend_from_slice(end.as_bytes())?;
    all.push(b'\n')?;
    Ok(all)
}
