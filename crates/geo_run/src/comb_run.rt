// A run over the comb.
ghost use Rattle.std.specs.Prelude.{◌≡◌, ◌+◌, ◌≤◌, None, Some, IfOk, length};
ghost use Rattle.plane.specs.declared.limits.TheConstants.{MAX_CORNERS};
ghost use Rattle.rings.specs.Chain.{IsPath};
ghost use Rattle.geo_gen.specs.Comb.{comb_goal, comb_list, comb_start};
ghost use Rattle.geo_gen.specs.declared.combs.TheConstants.{MAX_TEETH};
ghost use Rattle.geo_run.specs.Comb.{IsCombText};

use exact_plane::{Memory, Pt, Steps};
use geo_gen::{comb, comb_goal, comb_ring, comb_start};
use geo_session::Session;
use geo_text::{Command, Points, put_index, put_line_end, put_word};
use std::alloc::Global;
use std::sync::ledger::Ledger;

/// The line of the comb of `k` teeth.
pub(crate) fn comb_line<L: Ledger>(
    alloc: Global,
    k: u32,
    steps: &mut Steps<L>,
) -> Result<Vec<u8>, Memory>
    requires some { 1 ≤ k }
    requires few { k ≤ MAX_TEETH }
    ensures { IfOk result (λ line. IsCombText k line.items) }
{
    comb_ring(k);
    let points = comb(alloc, k)?;
    let count = points.len() as u32;
    let session = session_with(alloc, k, points, steps)?;
    let path = path_through(alloc, k, &session, steps)?;
    let mut line = Vec::new(alloc);
    put_word(&mut line, "comb")?;
    put_index(&mut line, k)?;
    put_index(&mut line, count)?;
    put_index(&mut line, path.len() as u32)?;
    put_line_end(&mut line)?;
    Ok(line)
}

// A session that holds the comb of `k` teeth.
fn session_with<L: Ledger>(
    alloc: Global,
    k: u32,
    points: Vec<Pt>,
    steps: &mut Steps<L>,
) -> Result<Session, Memory>
    requires some { 1 ≤ k }
    requires few { k ≤ MAX_TEETH }
    requires comb { points.items ≡ comb_list k }
    ensures { IfOk result (λ session. session.state.kept ≡ Some (record { ring = comb_list k; source = None })) }
{
    comb_ring(k);
    let mut session = Session::new();
    let mut answer = Vec::new(alloc);
    session.answer(
        alloc,
        Command::Polygon(Points::of(points)),
        &mut answer,
        steps,
    )?;
    Ok(session)
}

// The path from the one end of the comb to the other.
fn path_through<L: Ledger>(
    alloc: Global,
    k: u32,
    session: &Session,
    steps: &mut Steps<L>,
) -> Result<Vec<Pt>, Memory>
    requires some { 1 ≤ k }
    requires few { k ≤ MAX_TEETH }
    requires held { session.now.state.kept ≡ Some (record { ring = comb_list k; source = None }) }
    ensures path { IfOk result (λ points. IsPath (comb_list k) comb_start (comb_goal k) points.items) }
    ensures few { IfOk result (λ points. length points.items ≤ MAX_CORNERS + 1) }
{
    comb_ring(k);
    let found = session.chain(alloc, &comb_start(), &comb_goal(k), steps)?;
    Ok(found.unwrap())
}
