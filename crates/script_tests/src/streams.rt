// Sources and sinks over memory, read and written whole.
ghost use Rattle.std.specs.Prelude.{◌≤◌};

use geo_io::{
    Failed, MemorySink, MemorySource, ReadEnd, Sink, Source, SureSink, SureSource, read_all,
    write_all,
};
use std::alloc::Global;

const TEXT: &str = "abcdefg";

// How many bytes a call gives at most, and the limit.
#[test]
fn reads_all_bytes_within_the_limit(rt: HostRuntime) {
    for (piece, limit) in [(1, 7), (3, 7), (7, 8), (100, 7)] {
        assert!(rt; reads(rt.alloc(), piece, limit), "in pieces of {piece}");
    }
}

fn source(alloc: Global, piece: usize, failing: &[u64]) -> Option<MemorySource>
    requires { 1 ≤ piece }
{
    let bytes = Vec::from_slice(alloc, TEXT.as_bytes()).ok()?;
    Some(MemorySource::new(bytes, piece, Vec::from_slice(alloc, failing).ok()?))
}

fn reads(alloc: Global, piece: usize, limit: usize) -> bool {
    if 1 <= piece
        && limit <= 8
        && let Some(mut source) = source(alloc, piece, &[])
        && let Ok(bytes) = read_all(alloc, &mut source, limit)
    {
        bytes.as_slice() == TEXT.as_bytes()
    } else {
        false
    }
}

// How many bytes a call gives at most, the call that fails, the limit, the refusal, and what the source has left.
#[test]
fn stops_at_a_fault_and_past_the_limit(rt: HostRuntime) {
    for (piece, failing, limit, end, left) in [
        (3, 1, 7, ReadEnd::Fault, "abcdefg"),
        (3, 2, 7, ReadEnd::Fault, "defg"),
        (3, 2, 2, ReadEnd::TooLong, "defg"),
        (2, 9, 3, ReadEnd::TooLong, "efg"),
        (7, 9, 6, ReadEnd::TooLong, ""),
        (1, 9, 0, ReadEnd::TooLong, "bcdefg"),
    ] {
        assert!(rt;
            stops(rt.alloc(), piece, failing, limit, end, left),
            "at {left}"
        );
    }
}

fn stops(
    alloc: Global,
    piece: usize,
    failing: u64,
    limit: usize,
    end: ReadEnd,
    left: &str,
) -> bool {
    if 1 <= piece
        && limit <= 8
        && let Some(mut source) = source(alloc, piece, &[failing])
        && let Err(found) = read_all(alloc, &mut source, limit)
    {
        found == end && source.left() == left.as_bytes()
    } else {
        false
    }
}

// The room, how many bytes a call takes at most, the call that fails, the answer, and what the sink took.
#[test]
fn writes_all_bytes_or_their_front(rt: HostRuntime) {
    for (room, piece, failing, written, taken) in [
        (7, 1, 9, Ok(()), "abcdefg"),
        (7, 3, 9, Ok(()), "abcdefg"),
        (100, 100, 9, Ok(()), "abcdefg"),
        (5, 2, 9, Err(Failed), "abcde"),
        (0, 1, 9, Err(Failed), ""),
        (7, 3, 2, Err(Failed), "abc"),
    ] {
        let is_written = writes(rt.alloc(), room, piece, failing, written, taken);
        assert!(rt; is_written, "with room {room}");
    }
}

fn writes(
    alloc: Global,
    room: usize,
    piece: usize,
    failing: u64,
    written: Result<(), Failed>,
    taken: &str,
) -> bool {
    if 1 <= piece
        && let Ok(failing) = Vec::from_slice(alloc, &[failing])
        && let Ok(mut sink) = MemorySink::with_room(alloc, room, piece, failing)
    {
        write_all(&mut sink, TEXT.as_bytes()) == written && sink.taken() == taken.as_bytes()
    } else {
        false
    }
}

// The room of each call, what it gives, and what is left then.
#[test]
fn a_sure_source_gives_all_that_fits(rt: HostRuntime) {
    let mut source = sure(rt.alloc()).expect(&rt, "memory");
    for (room, given, left) in [
        (3, "abc", "defg"),
        (1, "d", "efg"),
        (9, "efg", ""),
        (2, "", ""),
    ] {
        assert!(rt; gives(&mut source, room, given), "at {given}");
        assert!(rt; source.left() == left.as_bytes(), "at {given}");
    }
}

fn sure(alloc: Global) -> Option<SureSource> {
    Some(SureSource::new(Vec::from_slice(alloc, TEXT.as_bytes()).ok()?))
}

fn gives(source: &mut SureSource, room: usize, given: &str) -> bool {
    let mut bytes = [0u8; 9];
    if let Some(into) = bytes.get_mut(..room)
        && !into.is_empty()
        && let Ok(count) = source.read_some(into)
    {
        count == given.len() && into.get(..count) == Some(given.as_bytes())
    } else {
        false
    }
}

#[test]
fn from_a_sure_source_to_a_sure_sink(rt: HostRuntime) {
    assert!(rt; passes(rt.alloc()));
    assert!(rt; SureSink::new().write_some(TEXT.as_bytes()) == Ok(7));
}

fn passes(alloc: Global) -> bool {
    if let Some(mut source) = sure(alloc)
        && let Ok(bytes) = read_all(alloc, &mut source, 7)
    {
        bytes.as_slice() == TEXT.as_bytes() && write_all(&mut SureSink::new(), &bytes) == Ok(())
    } else {
        false
    }
}
