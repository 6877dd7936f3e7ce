ghost use Rattle.std.specs.Prelude.{◌≡◌, ◌≢◌, [], ◌+◌, ◌*◌, ◌<◌, ◌≤◌, ◌^◌, ℕ, IfErr, IfOk, OnErr, OnOk, length};
ghost use Rattle.std.specs.VecDeque.{deque_capacity};
ghost use Rattle.plane.specs.Cut.{IsCut, IsUncut};
ghost use Rattle.plane.specs.Point.{whole};
ghost use Rattle.plane.specs.Region.{IsCornerList};
ghost use Rattle.half_cut.specs.Block.{IsBlock};
ghost use Rattle.half_cut.specs.Outline.{AreLinkedRound, AreNoneRight, IsLeast, IsRegionKept};

use crate::block::{Block, block_of};
use crate::least::least_of_all;
use crate::region::{Line, Region, round};
use crate::seek::{rises, seek};
use crate::tail::cut_tail;
use exact_plane::{Hom, Memory, Pt, Steps};
use std::alloc::Global;
use std::collections::VecDeque;
use std::sync::ledger::Ledger;

/// Why a region is not cut.
#[derive(Drop)]
pub enum CutFault {
    /// An allocation was refused. This is the old region, as it was.
    Memory(Region),
}

impl Region {
    /// Returns what is left of the region where all that is right of the line from `a` to `b` is cut away. It has at most one corner
    /// more. For n corners the call takes O(n) steps: at most n + 2 d + 15 where n < 2^d, also if memory is refused. It takes at most
    /// n - m + 2 d + 15 steps if m corners are left. No command calls it: the command `kernel` cuts by `cut_away`.
    pub fn cut<L: Ledger>(
        mut self,
        alloc: Global,
        a: &Pt,
        b: &Pt,
        steps: &mut Steps<L>,
    ) -> Result<Region, CutFault>
        requires differ { a.now ≢ b.now }
        requires few { length self.corners < 2 ^ 31 }
        ensures cut { IfOk result (λ rest. IsCornerList (IsUncut (whole a.now) (whole b.now) self.corners) rest.corners) }
        ensures few { IfOk result (λ rest. length rest.corners ≤ length self.corners + 1) }
        ensures memory { IfErr result (λ fault. fault ≡ CutFault.Memory self) }
        ensures steps { (d : ℕ) → length self.corners < 2 ^ d → steps.new ≤ steps.old + length self.corners + 2 * d + 15 }
        ensures steps_of_rest { IfOk result (λ rest. (d : ℕ) → length self.corners < 2 ^ d
            → steps.new + length rest.corners ≤ steps.old + length self.corners + 2 * d + 15) }
    {
        match self.cut_away(alloc, a, b, steps) {
            Ok(()) => Ok(self),
            Err(Memory) => Err(CutFault::Memory(self)),
        }
    }

    /// Cuts away all that is right of the line from `a` to `b`. There is at most one corner more. A step is paid for by a corner that
    /// is cut away, but for some few, and two for each binary digit of the number of corners.
    pub fn cut_away<L: Ledger>(
        &mut self,
        alloc: Global,
        a: &Pt,
        b: &Pt,
        steps: &mut Steps<L>,
    ) -> Result<(), Memory>
        requires differ { a.now ≢ b.now }
        requires few { length self.old.corners < 2 ^ 31 }
        ensures cut { OnOk result (IsCornerList (IsUncut (whole a.now) (whole b.now) self.old.corners) self.new.corners) }
        ensures few { OnOk result (length self.new.corners ≤ length self.old.corners + 1) }
        ensures memory { OnErr result (self.new ≡ self.old) }
        ensures steps { (d : ℕ) → length self.old.corners < 2 ^ d
            → steps.new + length self.new.corners ≤ steps.old + length self.old.corners + 2 * d + 15 }
    {
        let line = (*a, *b);
        let (corners, lines) = (&mut self.corners, &mut self.lines);
        let Some(gone) = seek(corners, lines, self.least, &mut self.near, &line, steps) else {
            return Ok(());
        };
        reserve(corners, lines)?;
        match block_of(corners, gone, &line, steps) {
            None => self.clear(),
            Some(block) => {
                keep_block(corners, lines, &mut self.least, block, &line, steps);
                self.near = self.corners.len() - 1;
            }
        }
        Ok(())
    }

    // Takes all away, and leaves the room.
    fn clear(&mut self)
        ensures corners { self.new.corners ≡ [] }
    {
        self.corners.clear();
        self.lines.clear();
        self.least = 0;
    }
}

// Room for one corner more.
fn reserve(corners: &mut VecDeque<Hom>, lines: &mut VecDeque<Line>) -> Result<(), Memory>
    ensures corners { corners.new.items ≡ corners.old.items }
    ensures lines { lines.new.items ≡ lines.old.items }
    ensures corner_room { OnOk result (length corners.new.items < deque_capacity corners.new) }
    ensures line_room { OnOk result (length lines.new.items < deque_capacity lines.new) }
{
    corners.reserve(1)?;
    lines.reserve(1)?;
    Ok(())
}

// Keeps this block of corners, and adds what the cut adds. The least is where it was, or an end of the side of the cut.
fn keep_block<L: Ledger>(
    corners: &mut VecDeque<Hom>,
    lines: &mut VecDeque<Line>,
    least: &mut usize,
    block: Block,
    cut: &Line,
    steps: &mut Steps<L>,
)
    requires differ { cut.now.0 ≢ cut.now.1 }
    requires kept { IsRegionKept corners.old.items lines.old.items least.old }
    requires block { IsBlock cut.now corners.old.items block.start block.count }
    requires corner_room { length corners.old.items < deque_capacity corners.old }
    requires line_room { length lines.old.items < deque_capacity lines.old }
    ensures cut { IsCut (whole cut.now.0) (whole cut.now.1) corners.old.items corners.new.items }
    ensures linked { AreLinkedRound corners.new.items lines.new.items }
    ensures beside { AreNoneRight corners.new.items lines.new.items }
    ensures within { least.new < length corners.new.items }
    ensures least { IsLeast corners.new.items least.new }
    ensures few { length corners.new.items ≤ block.count + 2 }
    ensures steps { steps.new ≤ steps.old + 6 }
{
    let (n, count) = (corners.len(), block.count);
    let moved = round(corners, *least + (n - block.start));
    corners.rotate_left(block.start);
    lines.rotate_left(block.start);
    let side = cut_tail(corners, lines, count, cut, steps);
    let place = if n == 2 {
        least_of_all(corners, steps)
    } else if moved < count {
        moved
    } else if rises(cut, steps) {
        side
    } else {
        side + 1
    };
    *least = round(corners, place);
}
