// Whole runs over torn streams: each call of the source and of the sink fails in turn, and each room is too small in turn.

use crate::runs::{Outcome, are_answers, torn};
use exact_plane::Memory;
use geo_io::{SureSink, SureSource};
use geo_run::{RunFault, geo_main, sure_sink_main, sure_source_main};
use std::alloc::{AllocError, Global};
use std::test::Fail;

const SCRIPT: &[u8] = b"polygon,0,0,4,0,4,2,2,2,2,4,0,4\npath,4,1,1,4\n";

const ANSWERS: &[u8] = b"polygon,6\npath,3,4,1,2,2,1,4\n";

// What fails: the read with a number, the write with a number, or the last write, for which there is too little room.
#[derive(Clone, Copy)]
enum Fails {
    Read,
    Write,
    Room,
}

// How a run over the script ends: the answer, how many bytes of the output were written, and how many were not read.
type Ends = (Result<(), RunFault>, usize, usize);

// A run over the script with this number: a byte a call where a call fails, or with so much room.
fn run_with(alloc: Global, fails: Fails, n: usize) -> Result<Outcome, Memory> {
    match fails {
        Fails::Read => torn(alloc, SCRIPT, (n as u64, 1), 100, (0, 10)),
        Fails::Write => torn(alloc, SCRIPT, (0, 10), 100, (n as u64, 1)),
        Fails::Room => torn(alloc, SCRIPT, (0, 10), n, (0, 10)),
    }
}

// How it ends. No read fails but one of the first 46, no write but one of the first 29, and 29 bytes are room enough.
fn end_of(fails: Fails, n: usize) -> Ends {
    match fails {
        Fails::Read if 0 < n && n < 47 => (Err(RunFault::ReadFault), 0, 46 - n),
        Fails::Write if 0 < n && n < 30 => (Err(RunFault::WriteFault), n - 1, 0),
        Fails::Room if n < 29 => (Err(RunFault::WriteFault), n, 0),
        _ => (Ok(()), 29, 0),
    }
}

fn ends_so(alloc: Global, fails: Fails, n: usize) -> Result<bool, Memory> {
    let (answer, taken, left) = end_of(fails, n);
    let ended = run_with(alloc, fails, n)?;
    Ok(
        ended.answer == answer
            && ended.left == left
            && Some(ended.taken.as_slice()) == ANSWERS.get(..taken),
    )
}

// Each read and each write fails in turn, none before the first and none after the last; and each room is too small in turn.
#[test]
fn each_call_fails_in_turn(rt: HostRuntime) -> Result<(), Fail> {
    for (name, fails, count) in [
        ("read", Fails::Read, 48),
        ("write", Fails::Write, 31),
        ("room", Fails::Room, 30),
    ] {
        for n in 0..count {
            assert!(rt; ends_so(rt.alloc(), fails, n)?, "{name} {n}");
        }
    }
    Ok(())
}

// The second read of another script fails, and the third write.
#[test]
fn a_read_and_a_write_fail(rt: HostRuntime) -> Result<(), Fail> {
    let ended = torn(rt.alloc(), b"polygon,0,0", (2, 11), 100, (0, 10))?;
    assert!(rt; ended.answer == Err(RunFault::ReadFault) && ended.left == 0);
    assert!(rt; ended.taken.is_empty());
    let ended = torn(rt.alloc(), SCRIPT, (0, 11), 100, (3, 10))?;
    assert!(rt; ended.answer == Err(RunFault::WriteFault) && ended.left == 0);
    assert!(rt; ended.taken.as_slice() == b"polygon,6\npath,3,4,1".as_slice());
    Ok(())
}

#[test]
fn the_limit_of_a_script(rt: HostRuntime) -> Result<(), Fail> {
    let rows = [
        (8_388_608, (0, 1 << 20), Ok(()), 0),
        (8_388_609, (0, 1 << 20), Err(RunFault::TooLong), 0),
        (
            8_388_609,
            (1, 8_388_609),
            Err(RunFault::ReadFault),
            8_388_609,
        ),
    ];
    for (count, read, answer, left) in rows {
        let script = vec![in rt.alloc(); b'\n'; count]?;
        assert!(rt; read.1 >= 1);
        let ended = torn(rt.alloc(), &script, read, 8, (0, 8))?;
        assert!(rt;
            ended.answer == answer && ended.taken.is_empty() && ended.left == left,
            "{count} line feeds"
        );
    }
    Ok(())
}

#[test]
fn no_fault_over_a_sure_source_and_sink(rt: HostRuntime) -> Result<(), Fail> {
    let alloc = rt.alloc();
    assert!(rt; geo_main(alloc, &[], &mut sure(alloc)?, &mut SureSink::new()).is_ok());
    assert!(rt; sure_source_main(alloc, &[], &mut sure(alloc)?, &mut SureSink::new()).is_ok());
    assert!(rt; sure_sink_main(alloc, &[], &mut sure(alloc)?, &mut SureSink::new()).is_ok());
    Ok(())
}

fn sure(alloc: Global) -> Result<SureSource, AllocError> {
    Ok(SureSource::new(Vec::from_slice(alloc, SCRIPT)?))
}
