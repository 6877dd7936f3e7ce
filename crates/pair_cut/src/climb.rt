// From where the third corner behind a door is reached: by climbs from the door's ends to its apex.
ghost use Rattle.std.specs.Prelude.{◌≡◌, ◌↔◌, ℕ, ◌+◌, ◌<◌, ◌≤◌, IsTrue, List, length};
ghost use Rattle.plane.specs.Point.{Point, whole};
ghost use Rattle.rings.specs.Ring.{vertex};
ghost use Rattle.exact_plane.specs.Direction.{turn_of};
ghost use Rattle.pair_cut.specs.Climbs.{AreClimbs, IsClimb, IsTangentVertex, IsTangent};

use exact_plane::{Direction, Spot, Steps, Turns};
use path_tree::Door;
use std::sync::ledger::Ledger;

// How the third corner behind a door is reached.
#[derive(Clone, Copy)]
pub(crate) struct Tangent {
    // The vertex that comes before it.
    pub(crate) near: u32,
    // The apexes of the two doors beyond: of that from the left end to the corner, on the right, and of the other one.
    pub(crate) right: u32,
    pub(crate) left: u32,
}

// An end of a door and its apex, which the predecessors of the end lead to.
#[derive(Clone, Copy)]
struct Ascent {
    end: u32,
    apex: u32,
}

// The tangent of the third corner behind a door with this apex.
pub(crate) fn tangent_of<T: Turns, L: Ledger>(
    board: &T,
    before: &[u32],
    door: Door,
    apex: u32,
    steps: &mut Steps<L>,
) -> Tangent
    requires third { door.third < length (T.corners board.now) }
    requires climbs { (points : List Point) × (place : ℕ) × AreClimbs (T.corners board.now) before.now door.left door.right apex points place }
    ensures tangent { (points : List Point) (place : ℕ) → AreClimbs (T.corners board.now) before.now door.left door.right apex points place
        → IsTangent (T.corners board.now) points place (vertex (T.corners board.now) door.third) result }
    ensures steps { steps.new ≤ steps.old + length (T.corners board.now) }
{
    let ascent = Ascent {
        end: door.left,
        apex,
    };
    if let Some(near) = climb(board, before, ascent, door.third, Direction::Left, steps) {
        return Tangent {
            near,
            right: near,
            left: apex,
        };
    }
    let ascent = Ascent {
        end: door.right,
        apex,
    };
    if let Some(near) = climb(board, before, ascent, door.third, Direction::Right, steps) {
        return Tangent {
            near,
            right: apex,
            left: near,
        };
    }
    Tangent {
        near: apex,
        right: apex,
        left: apex,
    }
}

// The first vertex on the way up from an end of a door to its apex, without that, over which the way from the one before it to
// the third corner bends to this side.
fn climb<T: Turns, L: Ledger>(
    board: &T,
    before: &[u32],
    ascent: Ascent,
    third: u32,
    side: Direction,
    steps: &mut Steps<L>,
) -> Option<u32>
    requires third { third < length (T.corners board.now) }
    requires climb { (points : ℕ → Point) × (count : ℕ) × IsClimb (T.corners board.now) before.now ascent.end ascent.apex points count }
    ensures found { (points : ℕ → Point) (count : ℕ) → IsClimb (T.corners board.now) before.now ascent.end ascent.apex points count
        → IsTangentVertex (T.corners board.now) points count (vertex (T.corners board.now) third) side result }
    ensures steps { (points : ℕ → Point) (count : ℕ) → IsClimb (T.corners board.now) before.now ascent.end ascent.apex points count
        → steps.new + 1 ≤ steps.old + count }
{
    let mut at = ascent.end;
    while at != ascent.apex {
        let next = before[at as usize];
        if bends(board, next, at, third, side, steps) {
            return Some(at);
        }
        at = next;
    }
    None
}

// Whether the way from vertex `a` over vertex `b` to vertex `c` bends to this side. It takes one step.
fn bends<T: Turns, L: Ledger>(
    board: &T,
    a: u32,
    b: u32,
    c: u32,
    side: Direction,
    steps: &mut Steps<L>,
) -> bool
    requires a { a < length (T.corners board.now) }
    requires b { b < length (T.corners board.now) }
    requires c { c < length (T.corners board.now) }
    ensures bends { let at = vertex (T.corners board.now) in IsTrue result ↔ (turn_of (whole (at a)) (whole (at b)) (whole (at c)) ≡ side) }
    ensures steps { steps.new ≡ steps.old + 1 }
{
    board.turn(Spot::Corner(a), Spot::Corner(b), Spot::Corner(c), steps) == side
}
