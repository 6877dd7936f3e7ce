// What a command is answered, and what changes once that is written.
ghost use Rattle.std.specs.Prelude.{◌≡◌, ◌+◌, ◌≤◌, IfOk, None, Option, Some, length};
ghost use Rattle.plane.specs.declared.limits.TheConstants.{MAX_CORNERS};
ghost use Rattle.geo_text.specs.Reading.{IsWellSized};
ghost use Rattle.geo_text.specs.Version.{version_of};
ghost use Rattle.geo_session.specs.Asking.{IsAskedOf, IsPlain, Suits, held_after, seen_of, version_after};
ghost use Rattle.geo_session.specs.Held.{HeldRing, kept_in};
ghost use Rattle.geo_session.specs.Paced.{IsPaced, polygon_steps};
ghost use Rattle.geo_session.specs.Reply.{IsReplyIn};

use crate::grown::Grown;
use crate::held::Held;
use crate::paths::path_reply;
use exact_plane::{Memory, Steps};
use geo_reply::Reply;
use geo_text::{Bad, Command, Points, Version, Word};
use pair_cut::PairTable;
use ring_check::{Ring, RingFault};
use std::alloc::Global;
use std::sync::ledger::Ledger;

// The reply to a command, and what it changes.
#[derive(Drop)]
pub(crate) struct Asked {
    pub(crate) reply: Reply,
    pub(crate) change: Change,
}

// What is kept once a reply is written.
#[derive(Drop)]
pub(crate) enum Change {
    Nothing,
    // Version 2, with no polygon.
    Two,
    // A polygon, in the place of the one before.
    Polygon(Box<Held>),
    // A tree in the polygon, in the place of the one before.
    Tree(Grown),
    // The table of the paths between all pairs of vertices.
    Table(PairTable),
}

// What a command is answered in this version, where this polygon is held.
pub(crate) fn ask<L: Ledger>(
    alloc: Global,
    version: Version,
    held: &Option<Held>,
    command: Command,
    steps: &mut Steps<L>,
) -> Result<Asked, Memory>
    requires { IsWellSized command }
    ensures asked { IfOk result (IsAskedOf version held.now command) }
    ensures paced { IsPaced (seen_of version held.now) command steps.old steps.new }
{
    let Some(held) = held else {
        return ask_without(alloc, command, steps);
    };
    match command {
        Command::Two => Ok(begun()),
        Command::Polygon(points) => ask_polygon(alloc, points, steps),
        Command::Tree(s) => held.tree(alloc, &s, steps),
        Command::Pair(i, j) => held.pair(alloc, version, i, j, steps),
        Command::Sights => held.sights(alloc, steps),
        Command::Inside(p) => Ok(unchanged(Reply::Place(held.place(&p, steps)))),
        Command::Check(points) => told(held.judge(alloc, points.as_slice(), steps)),
        Command::Path(s, t) => told(path_reply(held.path(alloc, version, &s, &t, steps))),
        Command::Reach(t) => told(path_reply(held.reach(alloc, version, &t, steps))),
        Command::See(q) => told(held.view(alloc, &q, steps)),
        Command::Kernel => told(held.kernel(alloc, steps)),
        Command::Hull(points) => told(held.hull(alloc, version, points.as_slice(), steps)),
        Command::Round(points) => told(held.round(alloc, points.as_slice(), steps)),
        Command::Guards => told(held.guards(alloc, steps)),
    }
}

// What a command is answered where no polygon is held.
fn ask_without<L: Ledger>(
    alloc: Global,
    command: Command,
    steps: &mut Steps<L>,
) -> Result<Asked, Memory>
    requires { IsWellSized command }
    ensures asked { IfOk result (λ asked. (version : Version) → IsAskedOf version None command asked) }
    ensures paced { (version : Version) → IsPaced (seen_of version None) command steps.old steps.new }
{
    match command {
        Command::Two => Ok(begun()),
        Command::Polygon(points) => ask_polygon(alloc, points, steps),
        _other => Ok(unchanged(Reply::Refused(Bad::NoPolygon))),
    }
}

// Version 2 begins, with no polygon.
fn begun() -> Asked
    ensures { result ≡ record { reply = Reply.Number Word.Two 2; change = Change.Two } }
{
    Asked {
        reply: Reply::Number(Word::Two, 2),
        change: Change::Two,
    }
}

// The reply of a command that changes nothing.
fn told(reply: Result<Reply, Memory>) -> Result<Asked, Memory>
    ensures { (version : Version) → (held : HeldRing) → (asked : Command) → IsPlain asked → IfOk reply (IsReplyIn version (kept_in held) asked)
        → IfOk result (IsAskedOf version (Some held) asked) }
{
    match reply {
        Ok(reply) => Ok(unchanged(reply)),
        Err(memory) => Err(memory),
    }
}

// A list of points is accepted, and held, or refused by its least clash.
fn ask_polygon<L: Ledger>(
    alloc: Global,
    points: Points,
    steps: &mut Steps<L>,
) -> Result<Asked, Memory>
    requires { (3 ≤ length points) × (length points ≤ MAX_CORNERS) }
    ensures asked { IfOk result (λ asked. (version : Version) → (held : Option HeldRing) → IsAskedOf version held (Command.Polygon points) asked) }
    ensures steps { steps.new ≤ steps.old + polygon_steps (length points) }
{
    match Ring::of(points.into_vec(), steps) {
        Ok(ring) => Ok(Asked {
            reply: Reply::Number(Word::Polygon, u64::from(ring.len())),
            change: Change::Polygon(Box::new(alloc, Held::of(alloc, ring, steps)?)?),
        }),
        Err(RingFault::Clash(i, j)) => Ok(unchanged(Reply::Refused(Bad::Clash(i, j)))),
        Err(RingFault::Few | RingFault::Many) => unreachable!(),
    }
}

// A reply that changes nothing.
pub(crate) fn unchanged(reply: Reply) -> Asked
    ensures { result ≡ record { reply = reply; change = Change.Nothing } }
{
    Asked {
        reply,
        change: Change::Nothing,
    }
}

// Keeps what changes.
pub(crate) fn commit(two: &mut bool, held: &mut Option<Held>, change: Change)
    requires { Suits change held.old }
    ensures version { version_of two.new ≡ version_after change (version_of two.old) }
    ensures held { held.new ≡ held_after change held.old }
{
    match change {
        Change::Nothing => {}
        Change::Two => {
            *two = true;
            *held = None;
        }
        Change::Polygon(new) => *held = Some(Box::into_inner(new)),
        Change::Tree(grown) => {
            if let Some(held) = held {
                held.keep(grown);
            }
        }
        Change::Table(table) => {
            if let Some(held) = held {
                held.prepare(table);
            }
        }
    }
}
