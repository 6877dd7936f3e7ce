// Pairs of vertices by their numbers in the list that the ring was made of: the paths between them, and which see each other.
ghost use Rattle.std.specs.List.{All};
ghost use Rattle.std.specs.Prelude.{◌≡◌, ◌↔◌, ◌+◌, ◌*◌, ◌≤◌, ◌<◌, IfNone, IfOk, IfSome, IsTrue, Some, length, map};
ghost use Rattle.plane.specs.declared.limits.TheConstants.{MAX_CORNERS};
ghost use Rattle.rings.specs.Chain.{IsPath};
ghost use Rattle.rings.specs.Ring.{vertex};
ghost use Rattle.geo_text.specs.Version.{by_version};
ghost use Rattle.shared_seq.specs.Digits.{binary_digits};
ghost use Rattle.pair_cut.specs.Pairs.{AreSights, IsMadeFor};
ghost use Rattle.pair_cut.specs.declared.table.TheConstants.{MAX_PAIRED};
ghost use Rattle.ring_check.specs.Oriented.{given_of};
ghost use Rattle.geo_session.specs.Asking.{AreAsked, IsAskedOf, seen_of};
ghost use Rattle.geo_session.specs.Paced.{IsPaced};
ghost use Rattle.geo_session.specs.Pairs.{IsIndex, IsSmall, IsVertexNumber};
ghost use Rattle.geo_session.specs.Path.{TellsPath};
ghost use Rattle.geo_session.specs.Shown.{IsShown};
ghost use Rattle.geo_session.specs.Told.{Tells};

use crate::ask::{Asked, Change, unchanged};
use crate::held::Held;
use dual_tree::{Board, sleeve};
use exact_plane::{Memory, Pt, Steps};
use geo_reply::{Reply, Row};
use geo_text::{Bad, Command, Version};
use pair_cut::{MAX_PAIRED, PairTable};
use ring_check::Ring;
use std::alloc::Global;
use std::sync::ledger::Ledger;
use tri_mesh::triangle_at;

impl Held {
    // The path between two vertices, and the table of all pairs to be kept where it is new.
    pub(crate) fn pair<L: Ledger>(
        &self,
        alloc: Global,
        version: Version,
        i: i64,
        j: i64,
        steps: &mut Steps<L>,
    ) -> Result<Asked, Memory>
        ensures asked { IfOk result (IsAskedOf version (Some self.now) (Command.Pair i j)) }
        ensures paced { IsPaced (seen_of version (Some self.now)) (Command.Pair i j) steps.old steps.new }
    {
        let pair = match self.asked(i, j) {
            Ok(pair) => pair,
            Err(bad) => return Ok(unchanged(Reply::Refused(bad))),
        };
        if let Some(table) = &self.pairs {
            return Ok(unchanged(self.joined(alloc, version, table, pair, steps)?));
        }
        let table = self.new_table(alloc, steps)?;
        let reply = self.joined(alloc, version, &table, pair, steps)?;
        Ok(Asked {
            reply,
            change: Change::Table(table),
        })
    }

    // The pairs of vertices that see each other, and the table of all pairs to be kept where it is new.
    pub(crate) fn sights<L: Ledger>(
        &self,
        alloc: Global,
        steps: &mut Steps<L>,
    ) -> Result<Asked, Memory>
        ensures asked { (version : Version) → IfOk result (IsAskedOf version (Some self.now) Command.Sights) }
        ensures paced { (version : Version) → IsPaced (seen_of version (Some self.now)) Command.Sights steps.old steps.new }
    {
        if self.is_large() {
            return Ok(unchanged(Reply::Refused(Bad::Large)));
        }
        if let Some(table) = &self.pairs {
            return Ok(unchanged(self.seeing(alloc, table)?));
        }
        let table = self.new_table(alloc, steps)?;
        let reply = self.seeing(alloc, &table)?;
        Ok(Asked {
            reply,
            change: Change::Table(table),
        })
    }

    // Whether there are too many vertices for a table of all pairs.
    fn is_large(&self) -> bool
        ensures { IsTrue result ↔ (¬ IsSmall (given_of self.now.ring)) }
    {
        self.ring.len() > MAX_PAIRED
    }

    // The vertices with these two numbers, or why there are none.
    fn asked(&self, i: i64, j: i64) -> Result<(u32, u32), Bad>
        ensures { AreAsked (given_of self.now.ring) i j result }
    {
        if self.is_large() {
            return Err(Bad::Large);
        }
        let Some(from) = self.vertex_number(i) else {
            return Err(Bad::Index(1));
        };
        let Some(to) = self.vertex_number(j) else {
            return Err(Bad::Index(2));
        };
        Ok((from, to))
    }

    // The number, if there is a vertex with it.
    fn vertex_number(&self, z: i64) -> Option<u32>
        ensures some { IfSome result (IsVertexNumber (given_of self.now.ring) z) }
        ensures none { IfNone result (¬ IsIndex (given_of self.now.ring) z) }
    {
        let count = self.ring.len();
        match u32::try_from(z) {
            Ok(k) if k < count => Some(k),
            _ => None,
        }
    }

    // A table of all pairs.
    fn new_table<L: Ledger>(&self, alloc: Global, steps: &mut Steps<L>) -> Result<PairTable, Memory>
        requires { length self.now.ring.corners ≤ MAX_PAIRED }
        ensures made { IfOk result (IsMadeFor self.now.ring.corners) }
        ensures steps { let n = length self.now.ring.corners in let b = binary_digits n in steps.new ≤ steps.old + 200 * (n * n) * (b * b) }
    {
        let board = Board::without_ends(&self.ring);
        PairTable::build(alloc, &board, &self.mesh, steps)
    }

    // What is told of the path between two vertices, with the table of all pairs.
    fn joined<L: Ledger>(
        &self,
        alloc: Global,
        version: Version,
        table: &PairTable,
        pair: (u32, u32),
        steps: &mut Steps<L>,
    ) -> Result<Reply, Memory>
        requires made { IsMadeFor self.now.ring.corners table.now }
        requires first { pair.0 < length self.now.ring.corners }
        requires second { pair.1 < length self.now.ring.corners }
        ensures shown { IfOk result (let ring = given_of self.now.ring in TellsPath version ring (vertex ring pair.0) (vertex ring pair.1)) }
        ensures steps { steps.new ≤ steps.old + by_version version 0 20 * length self.now.ring.corners }
    {
        let _few_vertices = self.ring.len();
        let (from, to) = (self.ring.given_index(pair.0), self.ring.given_index(pair.1));
        let names = table.pair(alloc, from, to)?;
        let chain = corners_of(alloc, &self.ring, &names)?;
        let points = self.shown_at(alloc, version, (from, to), chain, steps)?;
        Ok(Reply::Path(Row::of(points)))
    }

    // What is told of the path between two vertices.
    fn shown_at<L: Ledger>(
        &self,
        alloc: Global,
        version: Version,
        pair: (u32, u32),
        chain: Vec<Pt>,
        steps: &mut Steps<L>,
    ) -> Result<Vec<Pt>, Memory>
        requires first { pair.0 < length self.now.ring.corners }
        requires second { pair.1 < length self.now.ring.corners }
        requires path { IsPath self.now.ring.corners (vertex self.now.ring.corners pair.0) (vertex self.now.ring.corners pair.1) chain.items }
        ensures shown { IfOk result (λ points. IsShown version self.now.ring.corners chain.items points.items) }
        ensures few { length chain.items ≤ MAX_CORNERS → IfOk result (λ points. length points.items ≤ MAX_CORNERS + 2) }
        ensures steps { steps.new ≤ steps.old + by_version version 0 20 * length self.now.ring.corners }
    {
        match version {
            Version::One => Ok(chain),
            Version::Two => {
                let (from, to) = (
                    triangle_at(&self.mesh, pair.0),
                    triangle_at(&self.mesh, pair.1),
                );
                let sleeve = sleeve(alloc, &self.mesh, from, to)?;
                self.full_along(alloc, &sleeve, &chain, steps)
            }
        }
    }

    // The pairs of vertices that see each other, with the table of all pairs.
    fn seeing(&self, alloc: Global, table: &PairTable) -> Result<Reply, Memory>
        requires { IsMadeFor self.now.ring.corners table.now }
        ensures { IfOk result (Tells Reply.Sights (AreSights (given_of self.now.ring))) }
    {
        let _few_vertices = self.ring.len();
        let pairs = table.sights(alloc)?;
        if self.ring.is_turned() {
            let given = turned_pairs(alloc, &self.ring, &pairs)?;
            Ok(Reply::Sights(Row::of(given)))
        } else {
            Ok(Reply::Sights(Row::of(pairs)))
        }
    }
}

// The vertices with these numbers.
fn corners_of(alloc: Global, ring: &Ring, names: &[u32]) -> Result<Vec<Pt>, Memory>
    requires { All (λ x. x < length ring.now.corners) names.now }
    ensures { IfOk result (λ points. points.items ≡ map (vertex ring.now.corners) names.now) }
{
    let mut points = Vec::with_capacity(alloc, names.len())?;
    for name in names {
        points.push_reserved(ring.corner(*name));
    }
    Ok(points)
}

// The pairs that see each other in the list that a ring was made of, where it was turned round: in order again.
fn turned_pairs(alloc: Global, ring: &Ring, pairs: &[(u32, u32)]) -> Result<Vec<(u32, u32)>, Memory>
    requires sights { AreSights ring.now.corners pairs.now }
    ensures { IfOk result (λ turned. AreSights (given_of ring.now) turned.items) }
{
    let mut turned = Vec::with_capacity(alloc, pairs.len())?;
    for (i, j) in pairs {
        let (i, j) = (ring.given_index(*i), ring.given_index(*j));
        turned.push_reserved((i.min(j), i.max(j)));
    }
    turned.sort_unstable();
    Ok(turned)
}
