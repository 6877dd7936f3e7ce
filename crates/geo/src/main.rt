//! Answers questions about a simple polygon: a script of commands on standard input, the answers on standard output.
#![tactic(auto)]

use geo_io::{StdSink, StdSource};
use geo_run::geo_main;
use std::alloc::Global;
use std::env;
use std::io::ErrorKind;
use std::process::ExitCode;

fn main(rt: HostRuntime) -> ExitCode {
    match env::args(&rt) {
        Ok(args) => execute(&rt, args),
        Err(error) if error.kind() == ErrorKind::OutOfMemory => ExitCode::from(5),
        Err(_) => ExitCode::from(6),
    }
}

fn execute(rt: &HostRuntime, args: env::Args) -> ExitCode {
    keep_pages(rt.alloc());
    let words = match args.skip(1).collect::<Vec<String>>(rt.alloc()) {
        Ok(words) => words,
        Err(_) => return ExitCode::from(5),
    };
    let mut source = StdSource::new(rt.stdin());
    let mut sink = StdSink::new(rt.stdout());
    match geo_main(rt.alloc(), &words, &mut source, &mut sink) {
        Ok(()) => ExitCode::SUCCESS,
        Err(fault) => ExitCode::from(fault.status()),
    }
}

// How many bytes the C library may keep for the next record.
const KEPT: usize = 8 << 20;

// Takes a block that nobody touches, and gives it back. From then on glibc keeps what is freed, where it holds no more than that, and
// a record finds the pages of the one before; else it would have them from the system anew. Nothing else depends on it, nor on whether
// the block is there.
fn keep_pages(alloc: Global) {
    let _ = Vec::<u8>::with_capacity(alloc, KEPT);
}
