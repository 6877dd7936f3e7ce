// The triangulated polygon.
ghost use Rattle.std.specs.Prelude.{◌≡◌, ◌+◌, ◌-◌, ◌*◌, ◌≤◌, false, true, IfOk, None, Some, length};
ghost use Rattle.rings.specs.Kernel.{IsKernel};
ghost use Rattle.meshes.specs.Fits.{Fits};
ghost use Rattle.ring_check.specs.Oriented.{given_of};
ghost use Rattle.pair_cut.specs.Pairs.{IsMadeFor};
ghost use Rattle.geo_session.specs.Guards.{GuardRing};
ghost use Rattle.geo_session.specs.Held.{IsTreeOf, IsViewReply};
ghost use Rattle.geo_session.specs.Paced.{guards_steps, inside_steps, kernel_steps, mesh_steps, view_steps};
ghost use Rattle.geo_session.specs.Place.{IsPlace};
ghost use Rattle.geo_session.specs.Told.{Tells};

use crate::grown::Grown;
use crate::parts::given_parts;
use dual_tree::Board;
use exact_plane::{Memory, Pt, Steps};
use flip_tri::cut_triangles;
use geo_reply::{Reply, Row};
use geo_text::Bad;
use guards3::guards_of;
use inside_test::{Position, place};
use pair_cut::PairTable;
use ring_check::Ring;
use see_cone::see;
use star_kernel::kernel;
use std::alloc::Global;
use std::marker::Model;
use std::sync::ledger::Ledger;
use sweep_tri::sweep_ring;
use tri_mesh::Mesh;
use triangle_boxes::Hierarchy;

// A triangulated polygon: a ring, with a mesh that fits it, the tree of a source in it, if there is one, and the table of the
// paths between all pairs of vertices, if there is one. What it answers is about the list that the ring was made of.
#[derive(Drop)]
pub(crate) struct Held {
    pub(crate) ring: Ring,
    pub(crate) mesh: Mesh,
    pub(crate) grown: Option<Grown>,
    pub(crate) pairs: Option<PairTable>,
}

impl Model for Held {
    ghost use Rattle.geo_session.specs.Held.{HeldRing, IsHeld, is_there, source_of};

    ghost Value = { HeldRing };

    ghost view = { λ held. record { ring = held.ring; tris = held.mesh; source = source_of held.grown; prepared = is_there held.pairs } };

    ghost invariant = { λ held. IsHeld held.ring.corners held.mesh held.grown held.pairs };
}

impl Held {
    // The ring, cut into triangles, with no tree.
    pub(crate) fn of<L: Ledger>(
        alloc: Global,
        ring: Ring,
        steps: &mut Steps<L>,
    ) -> Result<Held, Memory>
        ensures held { IfOk result (λ held. (held.ring ≡ ring) × (held.source ≡ None) × (held.prepared ≡ false)) }
        ensures steps { steps.new ≤ steps.old + mesh_steps (length ring.corners) }
    {
        let mesh = mesh_of(alloc, &ring, steps)?;
        Ok(Held {
            ring,
            mesh,
            grown: None,
            pairs: None,
        })
    }

    // Keeps a tree in the place of the one before.
    pub(crate) fn keep(&mut self, grown: Grown)
        requires { IsTreeOf self.old.ring.corners self.old.tris grown }
        ensures { self.new ≡ record { ring = self.old.ring; tris = self.old.tris; source = Some grown.source; prepared = self.old.prepared } }
    {
        self.grown = Some(grown);
    }

    // Keeps the table of all pairs.
    pub(crate) fn prepare(&mut self, table: PairTable)
        requires { IsMadeFor self.old.ring.corners table }
        ensures { self.new ≡ record { ring = self.old.ring; tris = self.old.tris; source = self.old.source; prepared = true } }
    {
        self.pairs = Some(table);
    }

    // Where a point is.
    pub(crate) fn place<L: Ledger>(&self, point: &Pt, steps: &mut Steps<L>) -> Position
        ensures place { IsPlace (given_of self.now.ring) point.now result }
        ensures steps { steps.new ≤ steps.old + inside_steps (length self.now.ring.corners) }
    {
        place(&self.ring, point, steps)
    }

    // What a point sees of the edges.
    pub(crate) fn view<L: Ledger>(
        &self,
        alloc: Global,
        q: &Pt,
        steps: &mut Steps<L>,
    ) -> Result<Reply, Memory>
        ensures view { IfOk result (IsViewReply (given_of self.now.ring) q.now) }
        ensures steps { steps.new ≤ steps.old + view_steps (length self.now.ring.corners) }
    {
        let home = match self.find(1, q, steps) {
            Ok(home) => home,
            Err(bad) => return Ok(Reply::Refused(bad)),
        };
        let _few_vertices = self.ring.len();
        let parts = see(alloc, &self.ring, &self.mesh, home, q, steps)?;
        let given = given_parts(alloc, parts, &self.ring)?;
        Ok(Reply::View(Row::of(given)))
    }

    // The corners of the kernel.
    pub(crate) fn kernel<L: Ledger>(
        &self,
        alloc: Global,
        steps: &mut Steps<L>,
    ) -> Result<Reply, Memory>
        ensures kernel { IfOk result (Tells Reply.Kernel (IsKernel (given_of self.now.ring))) }
        ensures steps { steps.new ≤ steps.old + kernel_steps (length self.now.ring.corners) }
    {
        let _few_vertices = self.ring.len();
        let corners = kernel(alloc, &self.ring, steps)?;
        Ok(Reply::Kernel(Row::of(corners)))
    }

    // The guards, by the triangles that the vertices determine, to which those of the mesh are flipped where they are others.
    pub(crate) fn guards<L: Ledger>(
        &self,
        alloc: Global,
        steps: &mut Steps<L>,
    ) -> Result<Reply, Memory>
        ensures guards { IfOk result (Tells Reply.Guards (GuardRing (given_of self.now.ring))) }
        ensures steps { steps.new ≤ steps.old + guards_steps (length self.now.ring.corners) }
    {
        let _is_counterclockwise = self.ring.len();
        let tris = cut_triangles(alloc, &self.ring, &self.mesh, steps)?;
        let numbers = guards_of(alloc, &self.ring, &tris)?;
        Ok(Reply::Guards(Row::of(numbers)))
    }
}

// A mesh that fits the ring, by a sweep.
pub(crate) fn mesh_of<L: Ledger>(
    alloc: Global,
    ring: &Ring,
    steps: &mut Steps<L>,
) -> Result<Mesh, Memory>
    ensures fits { IfOk result (Fits ring.now.corners) }
    ensures steps { steps.new ≤ steps.old + mesh_steps (length ring.now.corners) }
{
    let _ring_is_simple = ring.len();
    let tris = sweep_ring(alloc, ring, &Board::without_ends(ring), steps)?;
    let hierarchy = Hierarchy::of(alloc, ring.corners(), &tris, steps)?;
    Mesh::with_hierarchy(alloc, tris, hierarchy)
}
