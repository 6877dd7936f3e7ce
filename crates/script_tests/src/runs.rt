// Runs over scripts in memory, and how a table of scripts with their answers is asked.
ghost use Rattle.std.specs.Prelude.{◌≤◌};

use crate::paths::PATHS;
use crate::places::PLACES;
use crate::refusals::REFUSALS;
use crate::strange_records::STRANGE;
use crate::versions::VERSIONS;
use crate::views::VIEWS;
use exact_plane::Memory;
use geo_io::{MemorySink, MemorySource};
use geo_run::{RunFault, geo_main};
use std::alloc::Global;
use std::process::Abort;
use std::test::Fail;

// The number of a call that fails (none does at 0), and how many bytes a call moves at most.
pub(crate) type Tear = (u64, usize);

// What a run answered, what the sink took, and how much the source has left.
#[derive(Drop)]
pub(crate) struct Outcome {
    pub(crate) answer: Result<(), RunFault>,
    pub(crate) taken: Vec<u8>,
    pub(crate) left: usize,
}

// A run over the script, with a sink of some room.
pub(crate) fn torn(
    alloc: Global,
    script: &[u8],
    read: Tear,
    room: usize,
    write: Tear,
) -> Result<Outcome, Memory>
    requires read { 1 ≤ read.1 }
    requires write { 1 ≤ write.1 }
{
    let failing = Vec::from_slice(alloc, &[read.0])?;
    let mut source = MemorySource::new(Vec::from_slice(alloc, script)?, read.1, failing);
    let failing = Vec::from_slice(alloc, &[write.0])?;
    let mut sink = MemorySink::with_room(alloc, room, write.1, failing)?;
    let answer = geo_main(alloc, &[], &mut source, &mut sink);
    Ok(Outcome {
        answer,
        taken: Vec::from_slice(alloc, sink.taken())?,
        left: source.left().len(),
    })
}

// A run over the script in which no call fails, in pieces of a few bytes, with a sink of some room.
pub(crate) fn run(alloc: Global, script: &[u8], room: usize) -> Result<Outcome, Memory> {
    torn(alloc, script, (0, 7), room, (0, 5))
}

// Whether the run over the script meets no fault, reads all and writes these answers.
pub(crate) fn is_answered(alloc: Global, script: &[u8], answers: &str) -> Result<bool, Memory> {
    let ended = run(alloc, script, 4096)?;
    Ok(ended.answer.is_ok() && ended.left == 0 && are_answers(&ended.taken, answers))
}

// What `sights` answers in an L that is given counterclockwise from its corner.
#[rattlefmt::skip]
const SIGHTS: &str = "\
sights,12
sight,0,1
sight,0,2
sight,0,3
sight,0,4
sight,0,5
sight,1,2
sight,1,3
sight,1,5
sight,2,3
sight,3,4
sight,3,5
sight,4,5
";

// Whether these are the answers of a row, in which a line `[sights of an L]` stands for what `sights` answers there.
pub(crate) fn are_answers(taken: &[u8], answers: &str) -> bool {
    match answers.split_once("[sights of an L]\n") {
        Some((front, rest)) => are_around_sights(taken, front, rest),
        None => taken == answers.as_bytes(),
    }
}

fn are_around_sights(taken: &[u8], front: &str, rest: &str) -> bool {
    if let Some(taken) = taken.strip_prefix(front.as_bytes())
        && let Some(taken) = taken.strip_prefix(SIGHTS.as_bytes())
    {
        taken == rest.as_bytes()
    } else {
        false
    }
}

// Each table, with the number of its rows.
#[test]
fn each_script_is_answered(rt: HostRuntime) -> Result<(), Fail> {
    for (table, count) in [
        (PLACES, 16),
        (PATHS, 19),
        (VIEWS, 18),
        (REFUSALS, 14),
        (STRANGE, 3),
        (VERSIONS, 15),
    ] {
        all_answered(&rt, rt.alloc(), table, count)?;
    }
    assert!(rt;
        is_answered(rt.alloc(), b"\xff", "bad,word\n")?,
        "a byte that begins no character"
    );
    Ok(())
}

// Each script of the table is answered so. A row is a line `# NAME`, the script up to a `=`, and after a line feed the
// answers; an empty line is before each next row. A script ends with a line feed where the `=` is a line of its own.
fn all_answered(rt: &impl Abort, alloc: Global, table: &str, count: usize) -> Result<(), Memory> {
    assert!(rt; table.split("\n# ").skip(1).count() == count);
    for row in table.split("\n# ").skip(1) {
        let (name, script, answers) = parts(row).unwrap_or((row, "", "no answers"));
        let answered = is_answered(alloc, script.as_bytes(), answers)?;
        assert!(rt; answered, "{name}");
    }
    Ok(())
}

// The name, the script or the piece, and the answers of a row.
pub(crate) fn parts(row: &str) -> Option<(&str, &str, &str)> {
    if let Some((name, rest)) = row.split_once("\n")
        && let Some((script, answers)) = rest.split_once("=\n")
    {
        Some((name, script, answers))
    } else {
        None
    }
}
