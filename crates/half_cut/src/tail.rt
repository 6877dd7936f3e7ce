// Cuts away the last corners of a region, where they are read from the first that stays.
ghost use Rattle.std.specs.Prelude.{◌≡◌, ◌≢◌, ◌+◌, ◌-◌, ◌<◌, ◌≤◌, ◌++◌, ℕ, length, option_to_list, take};
ghost use Rattle.std.specs.VecDeque.{deque_capacity};
ghost use Rattle.plane.specs.Convex.{corner};
ghost use Rattle.plane.specs.Cut.{IsCut};
ghost use Rattle.plane.specs.Point.{whole};
ghost use Rattle.half_cut.specs.Meeting.{IsCutSide, IsLineMeeting, IsTail};
ghost use Rattle.half_cut.specs.Outline.{AreLinked, AreLinkedRound, AreOf, ComesRound, LineGoesOn, line_at};

use crate::region::{Line, side};
use exact_plane::{Direction, Hom, Steps, turn_hom};
use std::collections::VecDeque;
use std::sync::ledger::Ledger;

// Cuts away the corners from number `count` on, all of which are right of the cut; none before them is. The answer is the place
// where the side of the cut begins, of three corners or more.
pub(crate) fn cut_tail<L: Ledger>(
    corners: &mut VecDeque<Hom>,
    lines: &mut VecDeque<Line>,
    count: usize,
    cut: &Line,
    steps: &mut Steps<L>,
) -> usize
    requires tail { IsTail cut.now corners.old.items lines.old.items count }
    requires corner_room { length corners.old.items < deque_capacity corners.old }
    requires line_room { length lines.old.items < deque_capacity lines.old }
    ensures cut { IsCut (whole cut.now.0) (whole cut.now.1) corners.old.items corners.new.items }
    ensures linked { AreLinkedRound corners.new.items lines.new.items }
    ensures lines { AreOf lines.old.items cut.now lines.new.items }
    ensures most { count ≤ length corners.new.items }
    ensures few { length corners.new.items ≤ count + 2 }
    ensures kept { (i : ℕ) → i < count → corner corners.new.items i ≡ corner corners.old.items i }
    ensures side { 3 ≤ length corners.old.items → IsCutSide cut.now (line_at lines.old.items (count - 1))
        (line_at lines.old.items (length lines.old.items - 1)) corners.new.items result }
    ensures steps { steps.new ≤ steps.old + 4 }
{
    let (behind, before) = (*side(lines, count - 1), *side(lines, lines.len() - 1));
    let back = meeting(corners, count - 1, &behind, cut, steps);
    if corners.len() == 2 {
        let line = if back.is_some() { behind } else { *cut };
        keep(corners, lines, count, back, line);
        return 0;
    }
    let front = meeting(corners, 0, &before, cut, steps);
    keep(corners, lines, count, back, *cut);
    let begin = corners.len() - 1;
    close(corners, lines, front, before);
    begin
}

// The point of a side's line on the cut, where this corner of it is to the left.
#[tactic(auto, using(crate::proofs::Seeking::left_turns))]
fn meeting<L: Ledger>(
    corners: &VecDeque<Hom>,
    i: usize,
    side: &Line,
    cut: &Line,
    steps: &mut Steps<L>,
) -> Option<Hom>
    requires { i < length corners.now.items }
    ensures meeting { IsLineMeeting cut.now side.now (corner corners.now.items i) result }
    ensures steps { steps.new ≤ steps.old + 2 }
{
    if turn_hom(&cut.0, &cut.1, &corners[i], steps) == Direction::Left {
        Hom::meet(&side.0, &side.1, &cut.0, &cut.1, steps)
    } else {
        None
    }
}

// Keeps the first corners, and adds one if there is one. From the last on it goes along this line.
fn keep(
    corners: &mut VecDeque<Hom>,
    lines: &mut VecDeque<Line>,
    count: usize,
    back: Option<Hom>,
    line: Line,
)
    requires linked { AreLinked corners.old.items lines.old.items }
    requires some { 0 < count }
    requires rest { count < length corners.old.items }
    requires differ { line.0 ≢ line.1 }
    requires goes_on { LineGoesOn corners.old.items lines.old.items count back line }
    ensures corners { corners.new.items ≡ take count corners.old.items ++ option_to_list back }
    ensures linked { AreLinked corners.new.items lines.new.items }
    ensures last { line_at lines.new.items (length lines.new.items - 1) ≡ line }
    ensures lines { AreOf lines.old.items line lines.new.items }
    ensures corner_room { deque_capacity corners.new ≡ deque_capacity corners.old }
    ensures line_room { deque_capacity lines.new ≡ deque_capacity lines.old }
{
    corners.truncate(count);
    match back {
        Some(corner) => {
            lines.truncate(count);
            corners.push_back_reserved(corner);
        }
        None => lines.truncate(count - 1),
    }
    lines.push_back_reserved(line);
}

// Adds a corner, if there is one, with the line from there to the first.
fn close(corners: &mut VecDeque<Hom>, lines: &mut VecDeque<Line>, front: Option<Hom>, line: Line)
    requires linked { AreLinked corners.old.items lines.old.items }
    requires some { 0 < length corners.old.items }
    requires differ { line.0 ≢ line.1 }
    requires comes_round { ComesRound corners.old.items lines.old.items front line }
    requires corner_room { length corners.old.items < deque_capacity corners.old }
    requires line_room { length lines.old.items < deque_capacity lines.old }
    ensures corners { corners.new.items ≡ corners.old.items ++ option_to_list front }
    ensures linked { AreLinkedRound corners.new.items lines.new.items }
    ensures lines { AreOf lines.old.items line lines.new.items }
{
    if let Some(corner) = front {
        corners.push_back_reserved(corner);
        lines.push_back_reserved(line);
    }
}
