// Paths between points of the polygon, and the vertices that they touch.
ghost use Rattle.std.specs.Prelude.{◌≡◌, ◌+◌, ◌-◌, ◌*◌, ◌≤◌, ◌<◌, ◌^◌, ◌++◌, IfOk, OnErr, length, vec_capacity};
ghost use Rattle.plane.specs.declared.limits.TheConstants.{MAX_CORNERS};
ghost use Rattle.rings.specs.Chain.{IsPath};
ghost use Rattle.rings.specs.Full.{IsFull};
ghost use Rattle.shared_seq.specs.Digits.{binary_digits};
ghost use Rattle.geo_text.specs.Version.{by_version};
ghost use Rattle.ring_check.specs.Oriented.{given_of};
ghost use Rattle.exact_plane.specs.Spot.{point_named};
ghost use Rattle.exact_plane.specs.Names.{AreNamed, named_points};
ghost use Rattle.geo_session.specs.Held.{IsLocated};
ghost use Rattle.geo_session.specs.Path.{IsPathReply, IsReachReply, path_of};
ghost use Rattle.geo_session.specs.Reply.{IsReplyIn};
ghost use Rattle.geo_session.specs.Shown.{IsShown};
ghost use Rattle.geo_session.specs.Sleeves.{IsPathAlong, IsPathBetween, Leads};
ghost use Rattle.geo_session.specs.State.{Kept};
ghost use Rattle.geo_session.specs.Told.{reply_of};

use crate::grown::Located;
use crate::held::Held;
use dual_tree::{Board, locate, sleeve, touched};
use exact_plane::{Memory, Pt, Spot, Steps, Turns};
use funnel_walk::{FunnelBox, walk};
use geo_reply::{Reply, Row};
use geo_text::{Bad, Command, Version};
use std::alloc::Global;
use std::sync::ledger::Ledger;
use tri_mesh::Sleeve;

impl Held {
    // The triangle of a point, or the refusal where it is not in the polygon, by its number among the points that are asked for.
    pub(crate) fn find<L: Ledger>(
        &self,
        number: u32,
        point: &Pt,
        steps: &mut Steps<L>,
    ) -> Result<u32, Bad>
        ensures found { IsLocated self.now number point.now result }
        ensures steps { steps.new ≤ steps.old + 3 * (length self.now.ring.corners - 2) }
    {
        match locate(&self.mesh, &self.ring, point, steps) {
            Some(tri) => Ok(tri),
            None => Err(Bad::Outside(number)),
        }
    }

    // What is told of the taut chain from one point to another. In version 1 all memory is taken before the walk.
    pub(crate) fn path<L: Ledger>(
        &self,
        alloc: Global,
        version: Version,
        s: &Pt,
        t: &Pt,
        steps: &mut Steps<L>,
    ) -> Result<Result<Vec<Pt>, Bad>, Memory>
        ensures answer { IfOk result (λ found. IsPathReply version (given_of self.now.ring) s.now t.now (reply_of path_of found)) }
        ensures few { IfOk result (λ found. IfOk found (λ points. length points.items ≤ MAX_CORNERS + by_version version 1 2)) }
        ensures steps { steps.new ≤ steps.old + by_version version 10 30 * length self.now.ring.corners }
        ensures memory { version ≡ Version.One → OnErr result (steps.new ≤ steps.old + 6 * (length self.now.ring.corners - 2)) }
    {
        let from = match self.find(1, s, steps) {
            Ok(from) => from,
            Err(bad) => return Ok(Err(bad)),
        };
        let to = match self.find(2, t, steps) {
            Ok(to) => to,
            Err(bad) => return Ok(Err(bad)),
        };
        let sleeve = sleeve(alloc, &self.mesh, from, to)?;
        let chain = self.chain_along(alloc, &sleeve, s, t, steps)?;
        match version {
            Version::One => Ok(Ok(chain)),
            Version::Two => {
                let full = self.full_along(alloc, &sleeve, &chain, steps)?;
                Ok(Ok(full))
            }
        }
    }

    // What is told of the taut chain from the source of the tree to a point.
    pub(crate) fn reach<L: Ledger>(
        &self,
        alloc: Global,
        version: Version,
        t: &Pt,
        steps: &mut Steps<L>,
    ) -> Result<Result<Vec<Pt>, Bad>, Memory>
        ensures answer { IfOk result (λ found. IsReachReply version (given_of self.now.ring) self.now.source t.now (reply_of path_of found)) }
        ensures few { IfOk result (λ found. IfOk found (λ points. length points.items ≤ MAX_CORNERS + 3)) }
        ensures steps { let n = length self.now.ring.corners in let b = binary_digits n in
            steps.new ≤ steps.old + (by_version version 3 23 * n + 24 * (b * b)) }
    {
        let Some(grown) = &self.grown else {
            return Ok(Err(Bad::NoTree));
        };
        let tri = match self.find(1, t, steps) {
            Ok(tri) => tri,
            Err(bad) => return Ok(Err(bad)),
        };
        let goal = Located { point: *t, tri };
        let chain = grown.chain_to(alloc, &self.ring, &self.mesh, goal, steps)?;
        let points = self.shown(alloc, version, (grown.home, tri), chain, steps)?;
        Ok(Ok(points))
    }

    // What is told of a taut chain from a point in one triangle to a point in another.
    pub(crate) fn shown<L: Ledger>(
        &self,
        alloc: Global,
        version: Version,
        tris: (u32, u32),
        chain: Vec<Pt>,
        steps: &mut Steps<L>,
    ) -> Result<Vec<Pt>, Memory>
        requires { IsPathBetween self.now.ring.corners self.now.tris tris.0 tris.1 chain.items }
        ensures shown { IfOk result (λ points. IsShown version self.now.ring.corners chain.items points.items) }
        ensures few { length chain.items ≤ MAX_CORNERS + 3 → IfOk result (λ points. length points.items ≤ MAX_CORNERS + 3) }
        ensures steps { steps.new ≤ steps.old + by_version version 0 20 * length self.now.ring.corners }
    {
        match version {
            Version::One => Ok(chain),
            Version::Two => {
                let sleeve = sleeve(alloc, &self.mesh, tris.0, tris.1)?;
                self.full_along(alloc, &sleeve, &chain, steps)
            }
        }
    }

    // The taut chain from one point to another along a sleeve. It takes all its memory before the walk.
    pub(crate) fn chain_along<L: Ledger>(
        &self,
        alloc: Global,
        sleeve: &Sleeve,
        s: &Pt,
        t: &Pt,
        steps: &mut Steps<L>,
    ) -> Result<Vec<Pt>, Memory>
        requires { Leads self.now.ring.corners self.now.tris sleeve.now s.now t.now }
        ensures path { IfOk result (λ points. IsPath self.now.ring.corners s.now t.now points.items) }
        ensures few { IfOk result (λ points. length points.items ≤ MAX_CORNERS + 1) }
        ensures steps { steps.new ≤ steps.old + 4 * length self.now.ring.corners }
        ensures memory { OnErr result (steps.new ≡ steps.old) }
    {
        let _few_vertices = self.ring.len();
        let mut room = FunnelBox::with_room(alloc, sleeve.len())?;
        let mut names = Vec::with_capacity(alloc, sleeve.len() + 4)?;
        let mut points = Vec::with_capacity(alloc, sleeve.len() + 4)?;
        let board = Board::new(&self.ring, *s, *t);
        walk(&mut room, &board, &self.mesh, sleeve, &mut names, steps);
        put_points(&mut points, &names, &board);
        Ok(points)
    }

    // A taut chain along a sleeve, with all vertices that it touches.
    pub(crate) fn full_along<L: Ledger>(
        &self,
        alloc: Global,
        sleeve: &Sleeve,
        chain: &[Pt],
        steps: &mut Steps<L>,
    ) -> Result<Vec<Pt>, Memory>
        requires { IsPathAlong self.now.ring.corners self.now.tris sleeve.now chain.now }
        ensures full { IfOk result (λ points. IsFull self.now.ring.corners chain.now points.items) }
        ensures few { IfOk result (λ points. length points.items ≤ MAX_CORNERS + 2) }
        ensures steps { steps.new ≤ steps.old + 20 * length self.now.ring.corners }
    {
        let mut points = Vec::with_capacity(alloc, self.ring.len() as usize + 2)?;
        touched(&self.ring, &self.mesh, sleeve, chain, &mut points, steps);
        Ok(points)
    }
}

// Appends the points that the names stand for.
pub(crate) fn put_points<'a>(points: &mut Vec<Pt>, names: &[Spot], board: &Board<'a>)
    requires named { AreNamed (⟦<Board<'a> as Turns>⟧.corners board.now) names.now }
    requires room { length points.old.items + length names.now ≤ vec_capacity points.old }
    ensures points { points.new.items ≡ points.old.items ++ named_points (point_named (⟦<Board<'a> as Turns>⟧.corners board.now)
        (⟦<Board<'a> as Turns>⟧.start board.now) (⟦<Board<'a> as Turns>⟧.goal board.now)) names.now }
    ensures same_room { vec_capacity points.new ≡ vec_capacity points.old }
{
    for name in names {
        points.push_reserved(board.point(*name));
    }
}

// What is told of a path, or the refusal, as a reply.
pub(crate) fn path_reply(found: Result<Result<Vec<Pt>, Bad>, Memory>) -> Result<Reply, Memory>
    requires { IfOk found (λ told. IfOk told (λ points. length points.items < 2 ^ 32)) }
    ensures { (version : Version) → (kept : Kept) → (asked : Command) → IfOk found (λ told. IsReplyIn version kept asked (reply_of path_of told))
        → IfOk result (IsReplyIn version kept asked) }
{
    match found {
        Ok(Ok(points)) => Ok(Reply::Path(Row::of(points))),
        Ok(Err(bad)) => Ok(Reply::Refused(bad)),
        Err(memory) => Err(memory),
    }
}
