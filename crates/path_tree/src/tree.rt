// The shortest path tree of a start.
ghost use Rattle.std.specs.List.{All};
ghost use Rattle.std.specs.Prelude.{◌≡◌, ◌≢◌, ◌+◌, ◌*◌, ◌<◌, ◌≤◌, ◌++◌, ◌∷◌, [], List, IfOk, None, drop, length, reverse, take, vec_capacity};
ghost use Rattle.plane.specs.Point.{Point, whole};
ghost use Rattle.rings.specs.Chain.{IsPath};
ghost use Rattle.rings.specs.From.{IsPredecessor};
ghost use Rattle.rings.specs.Ring.{vertex};
ghost use Rattle.meshes.specs.Fits.{Fits, IsInTri};
ghost use Rattle.meshes.specs.Side.{tri_at};
ghost use Rattle.meshes.specs.declared.tri.Tri.{Tri};
ghost use Rattle.shared_seq.specs.Digits.{binary_digits};
ghost use Rattle.exact_plane.specs.declared.turns.Spot.TheVariants.{Goal};
ghost use Rattle.exact_plane.specs.Names.{AppendsNames, named_points};
ghost use Rattle.path_tree.specs.Grown.{IsEntered, IsFromNamed, IsGrownFrom, IsKept, Names, funnel_at, kept_point};

use crate::door::Visit;
use crate::funnel::Funnel;
use crate::growth::{Growth, straight};
use crate::name::spot;
use exact_plane::{Memory, Spot, Steps, Turns};
use std::alloc::Global;
use std::marker::Model;
use std::sync::ledger::Ledger;
use tri_mesh::Mesh;

/// The paths from a start to every vertex of a polygon: what is before each vertex on its path, and the funnel at the side over
/// which each triangle but the home is entered.
#[derive(Drop)]
pub struct PathTree {
    before: Vec<Option<Spot>>,
    funnels: Vec<Option<Funnel>>,
}

impl Model for PathTree {
    ghost use Rattle.path_tree.specs.Grown.{NamedTree, IsGrownTree};

    ghost Value = { NamedTree };

    ghost view = { λ tree. record { before = tree.before.items; funnels = tree.funnels.items } };

    ghost invariant = { λ tree. IsGrownTree (record { before = tree.before.items; funnels = tree.funnels.items }) };
}

impl PathTree {
    /// Returns the tree of the board's start, which is in triangle `home`, over a mesh that fits the board's corners. It keeps a
    /// funnel for each triangle but `home`, which alone has none. It takes at most 200 n b b steps, n the number of the corners and
    /// b that of its binary digits.
    pub fn build<T: Turns, L: Ledger>(
        alloc: Global,
        board: &T,
        mesh: &Mesh,
        home: u32,
        steps: &mut Steps<L>,
    ) -> Result<PathTree, Memory>
        requires fits { Fits (T.corners board.now) mesh.now }
        requires home { home < length mesh.now }
        requires start { IsInTri (T.corners board.now) (tri_at mesh.now home) (whole (T.start board.now)) }
        ensures grown { IfOk result (IsGrownFrom (T.corners board.now) (T.start board.now) mesh.now) }
        ensures home { IfOk result (λ tree. funnel_at tree home ≡ None) }
        ensures steps { let n = length (T.corners board.now) in let b = binary_digits n in steps.new ≤ steps.old + 200 * n * (b * b) }
    {
        let order = mesh.outward(alloc, home)?;
        let mut growth = Growth::at_home(alloc, board, mesh, &order, steps)?;
        for p in 1..order.len() {
            let visit = Visit {
                mesh,
                order: &order,
                p,
            };
            growth.go_on(alloc, board, visit, steps)?;
        }
        Ok(PathTree {
            before: growth.before,
            funnels: growth.funnels,
        })
    }

    /// The point before vertex `i` on its path from the start: `Start`, where it is that, and else a corner; none where the
    /// vertex is at the start.
    pub fn parent(&self, i: u32) -> Option<Spot>
        requires { i < length self.now.before }
        ensures { (corners : List Point) (start : Point) (tris : List Tri) → IsGrownFrom corners start tris self.now
            → IsFromNamed corners start (vertex corners i) result }
    {
        self.before[i as usize]
    }

    /// The point before the board's goal, which is in triangle `tri`, on its path from the start; none where the goal is at the
    /// start. It takes at most 24 b b steps, b the number of binary digits of that of the corners.
    pub fn reach<T: Turns, L: Ledger>(
        &self,
        board: &T,
        mesh: &Mesh,
        tri: u32,
        steps: &mut Steps<L>,
    ) -> Option<Spot>
        requires fits { Fits (T.corners board.now) mesh.now }
        requires grown { IsGrownFrom (T.corners board.now) (T.start board.now) mesh.now self.now }
        requires in_list { tri < length mesh.now }
        requires goal { IsInTri (T.corners board.now) (tri_at mesh.now tri) (whole (T.goal board.now)) }
        ensures before { IsFromNamed (T.corners board.now) (T.start board.now) (T.goal board.now) result }
        ensures steps { let b = binary_digits (length (T.corners board.now)) in steps.new ≤ steps.old + 24 * (b * b) }
    {
        let Some(funnel) = &self.funnels[tri as usize] else {
            return straight(board, Spot::Goal, steps);
        };
        let near = near_goal(board, mesh, tri, funnel, steps);
        if board.same(near, Spot::Goal, steps) {
            self.before(near)
        } else {
            Some(near)
        }
    }

    /// Appends the path from the start to `last`, which is the start or a corner, by its names: the start alone where both are
    /// one point. With any point that `last` comes before, it is the path to that. No name is `Goal`.
    pub fn chain_into(&self, last: Spot, out: &mut Vec<Spot>)
        requires kept { IsKept self.now last }
        requires room { length out.old.items + length self.now.before + 2 ≤ vec_capacity out.old }
        ensures path { (corners : List Point) (start : Point) (tris : List Tri) → Fits corners tris → IsGrownFrom corners start tris self.now
            → AppendsNames corners start (kept_point corners start last) (IsPath corners start (kept_point corners start last))
            out.old.items out.new.items }
        ensures on { (corners : List Point) (start : Point) (tris : List Tri) → Fits corners tris → IsGrownFrom corners start tris self.now
            → (t : Point) → IsPredecessor corners start t (kept_point corners start last)
            → IsPath corners start t (named_points (kept_point corners start) (drop (length out.old.items) out.new.items) ++ t ∷ []) }
        ensures no_goal { All (λ name. name ≢ Goal) (drop (length out.old.items) out.new.items) }
        ensures same_room { vec_capacity out.new ≡ vec_capacity out.old }
    {
        // What holds of every tree is told with its parts: it is grown, so the way back ends.
        let _ = &self.before;
        let given = out.len();
        let mut at = last;
        while let Some(before) = self.before(at) {
            out.push_reserved(at);
            at = before;
        }
        out.push_reserved(Spot::Start);
        turn_round(out, given);
    }

    // What is before a corner; none before the start.
    fn before(&self, at: Spot) -> Option<Spot>
        requires kept { IsKept self.now at }
        ensures before { (corners : List Point) (start : Point) (tris : List Tri) → IsGrownFrom corners start tris self.now
            → IsFromNamed corners start (kept_point corners start at) result }
    {
        match at {
            Spot::Corner(i) => self.parent(i),
            _ => None,
        }
    }
}

// The point from which a goal in triangle `tri` is reached over the side by which the triangle is entered: by the funnel there.
fn near_goal<T: Turns, L: Ledger>(
    board: &T,
    mesh: &Mesh,
    tri: u32,
    funnel: &Funnel,
    steps: &mut Steps<L>,
) -> Spot
    requires fits { Fits (T.corners board.now) mesh.now }
    requires entered { IsEntered (T.corners board.now) (T.start board.now) mesh.now tri funnel.now }
    requires goal { IsInTri (T.corners board.now) (tri_at mesh.now tri) (whole (T.goal board.now)) }
    ensures near { (x : Point) × Names (T.corners board.now) (T.start board.now) result x
        × (x ≢ T.goal board.now → IsPredecessor (T.corners board.now) (T.start board.now) (T.goal board.now) x) }
    ensures steps { let b = binary_digits (length (T.corners board.now)) in steps.new < steps.old + 24 * (b * b) }
{
    let n = mesh.count() + 2;
    let place = funnel.place(board, n, Spot::Goal, steps);
    spot(funnel.number(place, steps), n)
}

// Turns round the names from place `given` on.
fn turn_round(names: &mut Vec<Spot>, given: usize)
    requires given { given ≤ length names.old.items }
    ensures turned { names.new.items ≡ take given names.old.items ++ reverse (drop given names.old.items) }
    ensures same_room { vec_capacity names.new ≡ vec_capacity names.old }
{
    names[given..].reverse();
}
