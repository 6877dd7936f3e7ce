// Which corners a cut leaves: those that are not right of the line, which follow one another.
ghost use Rattle.std.specs.Prelude.{◌≡◌, ◌+◌, ◌<◌, ◌≤◌, ◌↔◌, ℕ, IfNone, IfSome, IsTrue, length};
ghost use Rattle.plane.specs.Convex.{corner};
ghost use Rattle.half_cut.specs.Block.{IsBlock, IsRightRun};
ghost use Rattle.half_cut.specs.Outline.{IsRightOf};

use crate::region::{Line, round};
use exact_plane::{Direction, Hom, Steps, turn_hom};
use std::collections::VecDeque;
use std::sync::ledger::Ledger;

// So many corners that stay, from one whose predecessor goes.
#[derive(Clone, Copy)]
pub(crate) struct Block {
    pub start: usize,
    pub count: usize,
}

// Whether this corner is right of the line.
#[tactic(auto, using(exact_plane::proofs::Directions::right_turns))]
pub(crate) fn is_right_at<L: Ledger>(
    corners: &VecDeque<Hom>,
    i: usize,
    line: &Line,
    steps: &mut Steps<L>,
) -> bool
    requires { i < length corners.now.items }
    ensures right { IsTrue result ↔ IsRightOf line.now (corner corners.now.items i) }
    ensures steps { steps.new ≡ steps.old + 1 }
{
    turn_hom(&line.0, &line.1, &corners[i], steps) == Direction::Right
}

// The corners that are not right of the line, where this one is; `None` where all are. It looks at those that are, and at one beside
// them on each hand.
pub(crate) fn block_of<L: Ledger>(
    corners: &VecDeque<Hom>,
    gone: usize,
    line: &Line,
    steps: &mut Steps<L>,
) -> Option<Block>
    requires gone { gone < length corners.now.items }
    requires right { IsRightOf line.now (corner corners.now.items gone) }
    ensures some { IfSome result (λ block. IsBlock line.now corners.now.items block.start block.count) }
    ensures none { IfNone result ((i : ℕ) → i < length corners.now.items → IsRightOf line.now (corner corners.now.items i)) }
    ensures steps { IfSome result (λ block. steps.new + block.count ≤ steps.old + length corners.now.items + 3) }
    ensures steps_of_none { IfNone result (steps.new ≤ steps.old + length corners.now.items) }
{
    let n = corners.len();
    let ahead = run(corners, gone, 1, line, steps);
    if ahead == n {
        return None;
    }
    let back = run(corners, gone, n - 1, line, steps);
    Some(Block {
        start: round(corners, gone + ahead),
        count: n + 1 - ahead - back,
    })
}

// How many corners from this one on are right of the line, up to the first that is not. Each is so many places after the one before:
// one, or all but one to go back.
fn run<L: Ledger>(
    corners: &VecDeque<Hom>,
    from: usize,
    step: usize,
    line: &Line,
    steps: &mut Steps<L>,
) -> usize
    requires from { from < length corners.now.items }
    requires step { step ≤ length corners.now.items }
    ensures run { IsRightRun line.now corners.now.items from step result }
    ensures steps { steps.new ≤ steps.old + result + 1 }
    ensures steps_of_all { result ≡ length corners.now.items → steps.new ≤ steps.old + result }
{
    let mut place = from;
    for k in 0..corners.len() {
        if !is_right_at(corners, place, line, steps) {
            return k;
        }
        place = round(corners, place + step);
    }
    corners.len()
}
