// What takes a counter: how scripts read, how points are written, and paths of a session.
ghost use Rattle.std.specs.Prelude.{◌≡◌, ◌<◌};

use crate::answers::points;
use crate::chains::paths;
use crate::scripts::scripts;
use exact_plane::{Memory, Steps};
use std::alloc::Global;
use std::marker::Brand;
use std::process::Abort;
use std::sync::ledger::{Blank, Ledger};
use std::test::Fail;

#[test]
fn scripts_points_and_paths(rt: HostRuntime) -> Result<(), Fail> {
    all_tables::<Brand, _>(&rt, rt.alloc(), Blank::new(1))?;
    Ok(())
}

// With a counter over a ledger that nobody else counts in.
fn all_tables<N: Ledger, R: Abort>(rt: &R, alloc: Global, blank: Blank) -> Result<(), Memory>
    requires name { blank.name ≡ N.name }
    requires parts { blank.parts ≡ N.parts }
    requires countable { 0 < blank.parts }
{
    let mut steps = Steps::<N>::new(blank);
    let steps = &mut steps;
    scripts(rt, alloc, steps);
    points(rt, alloc, steps);
    paths(rt, alloc, steps)
}
