// The tree of a source in the polygon.
ghost use Rattle.std.specs.Prelude.{◌≡◌, ◌+◌, ◌*◌, ◌<◌, ◌≤◌, List, IfOk, Some, length};
ghost use Rattle.plane.specs.Point.{whole};
ghost use Rattle.plane.specs.declared.limits.TheConstants.{MAX_CORNERS};
ghost use Rattle.rings.specs.Chain.{IsPath};
ghost use Rattle.rings.specs.Ring.{vertex};
ghost use Rattle.meshes.specs.Fits.{Fits};
ghost use Rattle.meshes.specs.declared.tri.Tri.{Tri};
ghost use Rattle.shared_seq.specs.Digits.{binary_digits};
ghost use Rattle.geo_text.specs.declared.version.Version.{Version};
ghost use Rattle.ring_check.specs.Oriented.{given_of};
ghost use Rattle.dual_tree.specs.Location.{IsLeastHolding};
ghost use Rattle.geo_session.specs.Asking.{IsAskedOf, seen_of};
ghost use Rattle.geo_session.specs.Held.{IsTreeOf};
ghost use Rattle.geo_session.specs.Paced.{IsPaced};
ghost use Rattle.geo_session.specs.Tree.{AreFrom, IsFrom};

use crate::ask::{Asked, Change, unchanged};
use crate::held::Held;
use crate::paths::put_points;
use dual_tree::Board;
use exact_plane::{Memory, Pt, Spot, Steps};
use geo_reply::{Before, Reply, Row};
use geo_text::Command;
use path_tree::PathTree;
use ring_check::Ring;
use std::alloc::Global;
use std::sync::ledger::Ledger;
use tri_mesh::Mesh;

// A point of a polygon, its triangle, and the paths from it to every vertex.
#[derive(Drop)]
pub(crate) struct Grown {
    pub(crate) source: Pt,
    pub(crate) home: u32,
    tree: PathTree,
}

// A point of a polygon, and the least triangle that holds it.
#[derive(Clone, Copy)]
pub(crate) struct Located {
    pub(crate) point: Pt,
    pub(crate) tri: u32,
}

impl Grown {
    // The tree of a point in triangle `home`.
    fn of<L: Ledger>(
        alloc: Global,
        ring: &Ring,
        mesh: &Mesh,
        home: u32,
        source: &Pt,
        steps: &mut Steps<L>,
    ) -> Result<Grown, Memory>
        requires fits { Fits ring.now.corners mesh.now }
        requires home { IsLeastHolding ring.now.corners mesh.now (whole source.now) home }
        ensures source { IfOk result (λ grown. grown.source ≡ source.now) }
        ensures grown { IfOk result (IsTreeOf ring.now.corners mesh.now) }
        ensures steps { let n = length ring.now.corners in let b = binary_digits n in steps.new ≤ steps.old + 200 * n * (b * b) }
    {
        let board = Board::new(ring, *source, *source);
        let tree = PathTree::build(alloc, &board, mesh, home, steps)?;
        Ok(Grown {
            source: *source,
            home,
            tree,
        })
    }

    // What comes before each vertex on its path from the source, by the list that the ring was made of.
    fn befores(&self, alloc: Global, ring: &Ring) -> Result<Vec<Before>, Memory>
        requires { (tris : List Tri) × IsTreeOf ring.now.corners tris self.now }
        ensures from { IfOk result (λ befores. AreFrom (given_of ring.now) self.now.source befores.items) }
        ensures few { IfOk result (λ befores. length befores.items ≤ MAX_CORNERS) }
    {
        let mut befores = Vec::with_capacity(alloc, ring.len() as usize)?;
        for i in 0..ring.len() {
            befores.push_reserved(self.before_at(ring, i));
        }
        Ok(befores)
    }

    // What comes before vertex `i`.
    fn before_at(&self, ring: &Ring, i: u32) -> Before
        requires vertex { i < length ring.now.corners }
        requires grown { (tris : List Tri) × IsTreeOf ring.now.corners tris self.now }
        ensures { IsFrom (given_of ring.now) self.now.source (vertex (given_of ring.now) i) result }
    {
        let _ring_is_simple = ring.len();
        match self.tree.parent(ring.given_index(i)) {
            Some(Spot::Corner(c)) => Before::Vertex(ring.given_index(c)),
            Some(Spot::Start) => Before::Source,
            // This never comes, since no path goes on past its goal.
            Some(Spot::Goal) => Before::Source,
            None => Before::Nothing,
        }
    }

    // The path from the source to a point. It takes all its memory first.
    pub(crate) fn chain_to<L: Ledger>(
        &self,
        alloc: Global,
        ring: &Ring,
        mesh: &Mesh,
        goal: Located,
        steps: &mut Steps<L>,
    ) -> Result<Vec<Pt>, Memory>
        requires fits { Fits ring.now.corners mesh.now }
        requires grown { IsTreeOf ring.now.corners mesh.now self.now }
        requires goal { IsLeastHolding ring.now.corners mesh.now (whole goal.point) goal.tri }
        ensures path { IfOk result (λ points. IsPath ring.now.corners self.now.source goal.point points.items) }
        ensures few { IfOk result (λ points. length points.items ≤ MAX_CORNERS + 3) }
        ensures steps { let b = binary_digits (length ring.now.corners) in steps.new ≤ steps.old + 24 * (b * b) }
    {
        let count = ring.len() as usize;
        let mut names = Vec::with_capacity(alloc, count + 2)?;
        let mut points = Vec::with_capacity(alloc, count + 3)?;
        let board = Board::new(ring, self.source, goal.point);
        let Some(last) = self.tree.reach(&board, mesh, goal.tri, steps) else {
            points.push_reserved(self.source);
            return Ok(points);
        };
        self.tree.chain_into(last, &mut names);
        let on_the_way = Board::new(ring, self.source, self.source);
        put_points(&mut points, &names, &on_the_way);
        points.push_reserved(goal.point);
        Ok(points)
    }
}

impl Held {
    // What a tree is answered, and the tree to be kept.
    pub(crate) fn tree<L: Ledger>(
        &self,
        alloc: Global,
        source: &Pt,
        steps: &mut Steps<L>,
    ) -> Result<Asked, Memory>
        ensures asked { (version : Version) → IfOk result (IsAskedOf version (Some self.now) (Command.Tree source.now)) }
        ensures paced { (version : Version) → IsPaced (seen_of version (Some self.now)) (Command.Tree source.now) steps.old steps.new }
    {
        let home = match self.find(1, source, steps) {
            Ok(home) => home,
            Err(bad) => return Ok(unchanged(Reply::Refused(bad))),
        };
        let grown = Grown::of(alloc, &self.ring, &self.mesh, home, source, steps)?;
        let befores = grown.befores(alloc, &self.ring)?;
        Ok(Asked {
            reply: Reply::Tree(Row::of(befores)),
            change: Change::Tree(grown),
        })
    }
}
