// The taut chain through a sleeve: its funnel at each diagonal, from the first one to the goal.
ghost use Rattle.std.specs.List.{All};
ghost use Rattle.std.specs.Prelude.{◌≡◌, ◌≢◌, [], ◌∷◌, ◌+◌, ◌-◌, ◌*◌, ◌<◌, ◌≤◌, ◌++◌, drop, length, slice_index_or, take, vec_capacity};
ghost use Rattle.plane.specs.Point.{whole};
ghost use Rattle.rings.specs.Chain.{IsPath};
ghost use Rattle.meshes.specs.Fits.{Fits, IsInTri};
ghost use Rattle.meshes.specs.Side.{tri_at};
ghost use Rattle.meshes.specs.Sleeve.{IsOneOf, diagonal_at};
ghost use Rattle.exact_plane.specs.declared.turns.Spot.TheVariants.{Goal};
ghost use Rattle.exact_plane.specs.Names.{AppendsNames, AreNamed, name_at};
ghost use Rattle.exact_plane.specs.Spot.{point_named};
ghost use Rattle.funnel_walk.specs.Names.{IsOwnName, right_names};
ghost use Rattle.funnel_walk.specs.Walked.{AppendsTaut, HasArrived, IsSleeveIn, IsWalked, IsWalkedTo};

use crate::funnel::{Funnel, name_at, narrow_left, narrow_right, place_from_right};
use crate::room::FunnelBox;
use circular_buffer::HeapCircularBuffer;
use exact_plane::{Spot, Steps, Turns};
use std::sync::ledger::Ledger;
use tri_mesh::{Mesh, Sleeve};

/// Appends the names of the taut chain from the start to the goal: the start alone where both are the same point. A vertex at
/// one of these points is named by it, and not as a corner. It takes no memory, and at most 4 (d + 2) steps, d the number of
/// diagonals.
pub fn walk<T: Turns, L: Ledger>(
    room: &mut FunnelBox,
    board: &T,
    mesh: &Mesh,
    sleeve: &Sleeve,
    out: &mut Vec<Spot>,
    steps: &mut Steps<L>,
)
    requires fits { Fits (T.corners board.now) mesh.now }
    requires of_mesh { IsOneOf mesh.now sleeve.now }
    requires start { IsInTri (T.corners board.now) (tri_at mesh.now (slice_index_or sleeve.now.walk 0 0)) (whole (T.start board.now)) }
    requires goal { IsInTri (T.corners board.now) (tri_at mesh.now (slice_index_or sleeve.now.walk (length sleeve.now.walk - 1) 0))
        (whole (T.goal board.now)) }
    requires box_room { length sleeve.now.diagonals ≤ room.old }
    requires out_room { length out.old.items + length sleeve.now.diagonals + 4 ≤ vec_capacity out.old }
    ensures path { AppendsNames (T.corners board.now) (T.start board.now) (T.goal board.now)
        (IsPath (T.corners board.now) (T.start board.now) (T.goal board.now)) out.old.items out.new.items }
    ensures own_names { All (IsOwnName (T.corners board.now) (T.start board.now) (T.goal board.now))
        (drop (length out.old.items) out.new.items) }
    ensures same_room { room.new ≡ room.old }
    ensures same_out { vec_capacity out.new ≡ vec_capacity out.old }
    ensures steps { steps.new ≤ steps.old + 4 * (length sleeve.now.diagonals + 2) }
{
    if board.same(Spot::Start, Spot::Goal, steps) {
        out.push_reserved(Spot::Start);
    } else if sleeve.len() == 0 {
        out.push_reserved(Spot::Start);
        out.push_reserved(Spot::Goal);
    } else {
        walk_on(&mut room.funnel, board, mesh, sleeve, out, steps);
    }
}

// Appends the names of the taut chain over one diagonal or more, between different points. It takes at most 2 (d + 2) steps.
fn walk_on<T: Turns, L: Ledger>(
    funnel: &mut Funnel,
    board: &T,
    mesh: &Mesh,
    sleeve: &Sleeve,
    out: &mut Vec<Spot>,
    steps: &mut Steps<L>,
)
    requires fits { Fits (T.corners board.now) mesh.now }
    requires of_mesh { IsOneOf mesh.now sleeve.now }
    requires some { 0 < length sleeve.now.diagonals }
    requires start { IsInTri (T.corners board.now) (tri_at mesh.now (slice_index_or sleeve.now.walk 0 0)) (whole (T.start board.now)) }
    requires goal { IsInTri (T.corners board.now) (tri_at mesh.now (slice_index_or sleeve.now.walk (length sleeve.now.walk - 1) 0))
        (whole (T.goal board.now)) }
    requires differ { T.start board.now ≢ T.goal board.now }
    requires room { length sleeve.now.diagonals + 4 ≤ funnel.old.names.capacity }
    requires out_room { length out.old.items + length sleeve.now.diagonals + 4 ≤ vec_capacity out.old }
    ensures taut { AppendsTaut (T.corners board.now) (T.start board.now) (T.goal board.now) out.old.items out.new.items }
    ensures same_room { funnel.new.names.capacity ≡ funnel.old.names.capacity }
    ensures same_out { vec_capacity out.new ≡ vec_capacity out.old }
    ensures steps { steps.new ≤ steps.old + 2 * (length sleeve.now.diagonals + 2) }
{
    funnel.open(board, mesh, sleeve, out.len(), steps);
    funnel.go_on(board, sleeve, sleeve.len() - 1, out, steps);
    funnel.reach_goal(board, out, steps);
}

impl Funnel {
    /// Makes it the funnel of the first diagonal, for a walk that appends to a list with `given` names. It takes 2 steps.
    pub fn open<T: Turns, L: Ledger>(
        &mut self,
        board: &T,
        mesh: &Mesh,
        sleeve: &Sleeve,
        given: usize,
        steps: &mut Steps<L>,
    )
        requires fits { Fits (T.corners board.now) mesh.now }
        requires of_mesh { IsOneOf mesh.now sleeve.now }
        requires some { 0 < length sleeve.now.diagonals }
        requires start { IsInTri (T.corners board.now) (tri_at mesh.now (slice_index_or sleeve.now.walk 0 0)) (whole (T.start board.now)) }
        requires room { 3 ≤ self.old.names.capacity }
        ensures walked { IsWalked (T.corners board.now) (T.start board.now) (T.goal board.now) [] self.new.names.items self.new.apex
            (diagonal_at sleeve.now 0).left (diagonal_at sleeve.now 0).right }
        ensures at { self.new.at ≡ 0 }
        ensures given { self.new.given ≡ given }
        ensures few { length self.new.names.items ≤ 3 }
        ensures same_room { self.new.names.capacity ≡ self.old.names.capacity }
        ensures steps { steps.new ≡ steps.old + 2 }
    {
        let (left, right) = (Spot::Corner(sleeve.left(0)), Spot::Corner(sleeve.right(0)));
        self.at = 0;
        self.given = given;
        self.apex = 0;
        self.names.clear();
        self.names.push_back(Spot::Start);
        if !board.same(Spot::Start, left, steps) {
            self.names.push_front(left);
            self.apex = 1;
        }
        if !board.same(Spot::Start, right, steps) {
            self.names.push_back(right);
        }
    }

    /// Makes it the funnel of diagonal `to`, and appends the names that the walk leaves behind on the way to its apex. It takes at most
    /// 2 steps a diagonal and one for each name that the funnel loses.
    pub fn go_on<T: Turns, L: Ledger>(
        &mut self,
        board: &T,
        sleeve: &Sleeve,
        to: usize,
        out: &mut Vec<Spot>,
        steps: &mut Steps<L>,
    )
        requires sleeve { IsSleeveIn (T.corners board.now) sleeve.now }
        requires forward { self.old.at ≤ to }
        requires within { to < length sleeve.now.diagonals }
        requires given { self.old.given ≤ length out.old.items }
        requires walked { IsWalkedTo (T.corners board.now) (T.start board.now) (T.goal board.now) sleeve.now out.old.items self.old }
        requires room { length out.old.items + length self.old.names.items + to ≤ self.old.names.capacity + self.old.given + self.old.at }
        requires out_room { length out.old.items + length self.old.names.items + to ≤ vec_capacity out.old + self.old.at }
        ensures walked { IsWalkedTo (T.corners board.now) (T.start board.now) (T.goal board.now) sleeve.now out.new.items self.new }
        ensures at { self.new.at ≡ to }
        ensures same_given { self.new.given ≡ self.old.given }
        ensures before { take self.old.given out.new.items ≡ take self.old.given out.old.items }
        ensures given { self.old.given ≤ length out.new.items }
        ensures few { length out.new.items + length self.new.names.items + self.old.at ≤ length out.old.items + length self.old.names.items + to }
        ensures same_room { self.new.names.capacity ≡ self.old.names.capacity }
        ensures same_out { vec_capacity out.new ≡ vec_capacity out.old }
        ensures steps { steps.new + length self.new.names.items + 2 * self.old.at ≤ steps.old + length self.old.names.items + 2 * to }
    {
        while self.at < to {
            self.cross(board, sleeve, out, steps);
        }
    }

    // Makes it the funnel of the next diagonal, and appends the names that the walk leaves behind on the way to its apex.
    fn cross<T: Turns, L: Ledger>(
        &mut self,
        board: &T,
        sleeve: &Sleeve,
        out: &mut Vec<Spot>,
        steps: &mut Steps<L>,
    )
        requires sleeve { IsSleeveIn (T.corners board.now) sleeve.now }
        requires within { self.old.at + 1 < length sleeve.now.diagonals }
        requires given { self.old.given ≤ length out.old.items }
        requires walked { IsWalkedTo (T.corners board.now) (T.start board.now) (T.goal board.now) sleeve.now out.old.items self.old }
        requires room { length self.old.names.items < self.old.names.capacity }
        requires out_room { length out.old.items + length self.old.names.items ≤ vec_capacity out.old }
        ensures walked { IsWalkedTo (T.corners board.now) (T.start board.now) (T.goal board.now) sleeve.now out.new.items self.new }
        ensures at { self.new.at ≡ self.old.at + 1 }
        ensures same_given { self.new.given ≡ self.old.given }
        ensures before { take self.old.given out.new.items ≡ take self.old.given out.old.items }
        ensures given { self.old.given ≤ length out.new.items }
        ensures one_more { length out.new.items + length self.new.names.items ≤ length out.old.items + length self.old.names.items + 1 }
        ensures same_room { self.new.names.capacity ≡ self.old.names.capacity }
        ensures same_out { vec_capacity out.new ≡ vec_capacity out.old }
        ensures steps { steps.new + length self.new.names.items ≤ steps.old + length self.old.names.items + 2 }
    {
        // The prover learns from this call that the number of the next diagonal fits its type.
        let _count = sleeve.len();
        let before = self.at;
        self.at += 1;
        if sleeve.left(self.at) == sleeve.left(before) {
            let right = Spot::Corner(sleeve.right(self.at));
            self.apex = narrow_right(board, &mut self.names, self.apex, right, out, steps);
            self.names.push_back(right);
        } else {
            let left = Spot::Corner(sleeve.left(self.at));
            self.apex = narrow_left(board, &mut self.names, self.apex, left, out, steps);
            self.names.push_front(left);
            self.apex += 1;
        }
    }

    /// Appends the names on the way to the goal in the triangle behind the diagonal. The funnel stays, so that the walk can go on. It takes
    /// at most one step for each name of the funnel and one more.
    pub fn reach_goal<T: Turns, L: Ledger>(
        &self,
        board: &T,
        out: &mut Vec<Spot>,
        steps: &mut Steps<L>,
    )
        requires differ { T.start board.now ≢ T.goal board.now }
        requires given { self.now.given ≤ length out.old.items }
        requires arrived { HasArrived (T.corners board.now) (T.start board.now) (T.goal board.now) (drop self.now.given out.old.items)
            self.now.names.items self.now.apex }
        requires room { length out.old.items + length self.now.names.items + 1 ≤ vec_capacity out.old }
        ensures taut { AppendsTaut (T.corners board.now) (T.start board.now) (T.goal board.now) (take self.now.given out.old.items) out.new.items }
        ensures same_out { vec_capacity out.new ≡ vec_capacity out.old }
        ensures steps { steps.new ≤ steps.old + length self.now.names.items + 1 }
    {
        let last = place_from_right(board, &self.names, self.apex, Spot::Goal, out, steps);
        close(board, &self.names, self.apex.min(last), last, out, steps);
    }
}

// Gives the names from the apex on to the last one, and the goal. A last name that stands for the goal is left out. It takes
// one step.
fn close<T: Turns, L: Ledger>(
    board: &T,
    names: &HeapCircularBuffer<Spot>,
    apex: usize,
    last: usize,
    out: &mut Vec<Spot>,
    steps: &mut Steps<L>,
)
    requires apex { apex ≤ last }
    requires last { last < length names.now.items }
    requires named { AreNamed (T.corners board.now) names.now.items }
    requires room { length out.old.items + last + 2 ≤ vec_capacity out.old + apex }
    ensures at_goal { point_named (T.corners board.now) (T.start board.now) (T.goal board.now) (name_at names.now.items last) ≡ T.goal board.now
        → out.new.items ≡ (out.old.items ++ right_names names.now.items apex (last - apex)) ++ Goal ∷ [] }
    ensures to_goal { point_named (T.corners board.now) (T.start board.now) (T.goal board.now) (name_at names.now.items last) ≢ T.goal board.now
        → out.new.items
        ≡ ((out.old.items ++ right_names names.now.items apex (last - apex)) ++ name_at names.now.items last ∷ []) ++ Goal ∷ [] }
    ensures same_out { vec_capacity out.new ≡ vec_capacity out.old }
    ensures steps { steps.new ≡ steps.old + 1 }
{
    for i in apex..last {
        out.push_reserved(name_at(names, i));
    }
    if !board.same(name_at(names, last), Spot::Goal, steps) {
        out.push_reserved(name_at(names, last));
    }
    out.push_reserved(Spot::Goal);
}
