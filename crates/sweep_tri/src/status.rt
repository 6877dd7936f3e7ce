// The gaps that the sweep line meets, upward.
ghost use Rattle.std.specs.List.{insert, remove};
ghost use Rattle.std.specs.Prelude.{◌≡◌, ◌+◌, ◌^◌, ◌<◌, ◌≤◌, ◌↔◌, IfOk, IsTrue, OnOk, [], length, slice_set};
ghost use Rattle.shared_seq.specs.Digits.{binary_digits};
ghost use Rattle.sweep_tri.specs.Frontier.{IsAbove, IsGapPlace};
ghost use Rattle.sweep_tri.specs.Gaps.{gap_at, low_front};
ghost use Rattle.sweep_tri.specs.Slots.{AreSortedBy, HasLowFront, HaveLowFronts};

use crate::gap::Gap;
use exact_plane::{Direction, Memory, Spot, Steps, Turns};
use std::alloc::Global;
use std::marker::Model;
use std::mem;
use std::sync::ledger::Ledger;

// The gaps, each in a slot of its own, and the numbers of the slots of those that are open, in order: so only numbers move where a gap
// comes between others. A slot that is left is free for a later gap, so there are never more slots than there were open gaps at one
// time.
#[derive(Drop)]
pub(crate) struct Status {
    slots: Vec<Gap>,
    numbers: Vec<u32>,
    free: Vec<u32>,
}

impl Model for Status {
    ghost use Rattle.std.specs.Prelude.{List};
    ghost use Rattle.sweep_tri.specs.Slots.{AreSlots, gaps_of};
    ghost use Rattle.sweep_tri.specs.declared.gap.Gap.{Gap};

    ghost Value = { List Gap };

    ghost view = { λ status. gaps_of status.slots.items status.numbers.items };

    ghost invariant = { λ status. AreSlots status.slots.items status.numbers.items status.free.items };
}

impl Status {
    // No gap.
    pub(crate) fn new(alloc: Global) -> Status
        ensures { result ≡ [] }
    {
        Status {
            slots: Vec::new(alloc),
            numbers: Vec::new(alloc),
            free: Vec::new(alloc),
        }
    }

    // The number of gaps.
    pub(crate) fn len(&self) -> usize
        ensures { result ≡ length self.now }
    {
        self.numbers.len()
    }

    // The gap at a place.
    pub(crate) fn get(&self, j: usize) -> &Gap
        requires { j < length self.now }
        ensures gap { result.now ≡ gap_at self.now j }
    {
        &self.slots[self.numbers[j] as usize]
    }

    // Puts a gap in the place of the one at `j`, which it answers.
    pub(crate) fn replace(&mut self, j: usize, gap: Gap) -> Gap
        requires { j < length self.old }
        ensures gap { result ≡ gap_at self.old j }
        ensures gaps { self.new ≡ slice_set self.old j gap }
    {
        let number = self.numbers[j] as usize;
        mem::replace(&mut self.slots[number], gap)
    }

    // Inserts a gap before the one at `j`, or after all.
    pub(crate) fn insert(&mut self, j: usize, gap: Gap) -> Result<(), Memory>
        requires place { j ≤ length self.old }
        requires few { length self.old + 1 < 2 ^ 31 }
        ensures gaps { OnOk result (self.new ≡ insert self.old j gap) }
    {
        let left = self.free.len();
        if left > 0 {
            let number = self.free[left - 1];
            self.numbers.insert(j, number)?;
            self.slots[number as usize] = gap;
            self.free.pop();
            return Ok(());
        }
        let number = self.slots.len() as u32;
        self.numbers.reserve(1)?;
        self.slots.push(gap)?;
        self.numbers.insert(j, number)?;
        Ok(())
    }

    // Removes the gap at `j`, and answers it.
    pub(crate) fn remove(&mut self, alloc: Global, j: usize) -> Result<Gap, Memory>
        requires { j < length self.old }
        ensures gap { IfOk result (λ gap. gap ≡ gap_at self.old j) }
        ensures gaps { OnOk result (self.new ≡ remove self.old j) }
    {
        let number = self.numbers[j];
        self.free.push(number)?;
        self.numbers.remove(j);
        Ok(mem::replace(&mut self.slots[number as usize], Gap::none(alloc)))
    }

    // The place of vertex `v`: the number of gaps whose lower edges it is above. It takes at most b steps, b the number of binary
    // digits of that of the gaps.
    pub(crate) fn place<T: Turns, L: Ledger>(
        &self,
        board: &T,
        v: u32,
        steps: &mut Steps<L>,
    ) -> usize
        requires v { v < length (T.corners board.now) }
        requires fronts { HaveLowFronts (T.corners board.now) self.now }
        requires sorted { AreSortedBy (T.corners board.now) self.now v }
        ensures place { IsGapPlace (T.corners board.now) self.now v result }
        ensures steps { steps.new ≤ steps.old + binary_digits (length self.now) }
    {
        let (mut low, mut high) = (0, self.numbers.len());
        while low < high {
            let middle = low + (high - low) / 2;
            if is_over(board, self.get(middle), v, steps) {
                low = middle + 1;
            } else {
                high = middle;
            }
        }
        low
    }
}

// Whether vertex `v` is above the lower edge of a gap.
fn is_over<T: Turns, L: Ledger>(board: &T, gap: &Gap, v: u32, steps: &mut Steps<L>) -> bool
    requires v { v < length (T.corners board.now) }
    requires front { HasLowFront (T.corners board.now) gap.now }
    ensures above { IsTrue result ↔ IsAbove (T.corners board.now) (low_front gap.now) v }
    ensures steps { steps.new ≤ steps.old + 1 }
{
    let (from, to) = gap.low_front();
    board.turn(Spot::Corner(from), Spot::Corner(to), Spot::Corner(v), steps) == Direction::Left
}
