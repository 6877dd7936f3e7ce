// A session that is asked again after want of memory.
ghost use Rattle.std.specs.Prelude.{◌≡◌, ◌<◌};

use crate::runs::are_answers;
use exact_plane::{Memory, Steps};
use geo_script::answer_next;
use geo_session::Session;
use geo_text::Script;
use std::alloc::Global;
use std::marker::Brand;
use std::process::Abort;
use std::sync::ledger::{Blank, Ledger};
use std::test::Fail;

// Records, each with its answer: a line `# RECORD`, the answer, and an empty line before the next.
#[rattlefmt::skip]
const ASKED: &str = "
# polygon,0,0,9000,0,9000,4000,5000,4000,5000,4200,9000,4200,9000,8000,0,8000,0,4200,3000,4200,3000,4000,0,4000
polygon,12

# path,8000,1000,8000,7000
path,4,8000,1000,5000,4000,5000,4200,8000,7000

# check,8000,1000,5000,4000,5000,4200,8000,7000
taut

# inside,7000,4100
outside

# polygon,0,0,4,4,4,0,0,4
bad,clash,0,2

# kernel
kernel,0

# guards
guards,3,1,4,7

# polygon,0,0,5,0,5,2,3,2,3,5,0,5
polygon,6

# see,5,1
see,5
part,0,0,0,5,0
part,1,5,0,5,2
part,2,5,2,3,2
part,3,3,2,3,2
part,5,0,7/2,0,0

# frob,1
bad,word

# hull,1,1,4,1,1,4
hull,3
side,0,1,2,1,1,4,1
side,1,2,2,4,1,1,4
side,2,0,2,1,4,1,1

# round,1,1,4,1,1,4
round,3,0,1,2

# polygon,0,0,4,0,4,2,2,2,2,4,0,4
polygon,6

# tree,4,1
tree,6
from,0,s
from,1,s
from,2,s
from,3,s
from,4,3
from,5,3

# tree,3,3
bad,outside,1

# reach,1,4
path,3,4,1,2,2,1,4

# polygon,0,0,4,0,4,2,2,2,2,4,0,4
polygon,6

# reach,1,4
bad,no_tree

# pair,2,4
path,3,4,2,2,2,2,4

# sights
[sights of an L]

# polygon,0,0,0,4,4,0
polygon,3

# sights
sights,3
sight,0,1
sight,0,2
sight,1,2
";

// Where memory is refused, a session can be asked again. None is refused here: `checks/memory` refuses each allocation of
// this test in turn.
#[test]
fn asked_again(rt: HostRuntime) -> Result<(), Fail> {
    assert!(rt; ASKED.split("\n# ").skip(1).count() == 22);
    ask_all::<Brand>(&rt, rt.alloc(), Blank::new(1))?;
    Ok(())
}

// With a counter over a ledger that nobody else counts in.
fn ask_all<N: Ledger>(rt: &impl Abort, alloc: Global, blank: Blank) -> Result<(), Memory>
    requires name { blank.name ≡ N.name }
    requires parts { blank.parts ≡ N.parts }
    requires countable { 0 < blank.parts }
{
    let mut steps = Steps::<N>::new(blank);
    let mut session = Session::new();
    ask_each(rt, alloc, &mut session, &mut steps)
}

fn ask_each<N: Ledger>(
    rt: &impl Abort,
    alloc: Global,
    session: &mut Session,
    steps: &mut Steps<N>,
) -> Result<(), Memory> {
    for row in ASKED.split("\n# ").skip(1) {
        let (record, want) = row.split_once("\n").unwrap_or((row, "no answer"));
        let mut out = Vec::new(alloc);
        if ask(alloc, session, record, &mut out, steps).is_err() {
            assert!(rt; out.is_empty(), "{record}");
            ask(alloc, session, record, &mut out, steps)?;
        }
        assert!(rt; are_answers(&out, want), "{record}");
    }
    Ok(())
}

fn ask<N: Ledger>(
    alloc: Global,
    session: &mut Session,
    record: &str,
    out: &mut Vec<u8>,
    steps: &mut Steps<N>,
) -> Result<(), Memory> {
    let mut script = Script::open(alloc, record.as_bytes());
    answer_next(alloc, &mut script, session, out, steps)?;
    Ok(())
}
