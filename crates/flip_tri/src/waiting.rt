// The triangles whose sides are still to be looked at.
ghost use Rattle.std.specs.List.{All, Contains, range_with_len};
ghost use Rattle.std.specs.Prelude.{◌≡◌, ◌≢◌, ◌+◌, ◌<◌, ◌≤◌, ℕ, IfNone, IfOk, IfSome, OnOk, [], length};

use exact_plane::Memory;
use std::alloc::Global;
use std::marker::Model;

// Numbers below a count, none twice: a stack of them, and for each number a mark that is set where it is there.
#[derive(Drop)]
pub(crate) struct Waiting {
    stack: Vec<u32>,
    marks: Vec<bool>,
}

impl Model for Waiting {
    ghost use Rattle.std.specs.Prelude.{ℕ, List, length};
    ghost use Rattle.flip_tri.specs.Flips.{AreWaiting, Waits};

    ghost Value = { Waits };

    ghost view = { λ waiting. record { numbers = waiting.stack.items; count = length waiting.marks.items } };

    ghost invariant = { λ waiting. AreWaiting waiting.stack.items waiting.marks.items };
}

impl Waiting {
    // All numbers below a count, the last one on top.
    pub(crate) fn all(alloc: Global, count: u32) -> Result<Waiting, Memory>
        ensures numbers { IfOk result (λ waiting. waiting.numbers ≡ range_with_len 0 count) }
        ensures count { IfOk result (λ waiting. waiting.count ≡ count) }
    {
        let mut stack = Vec::new(alloc);
        for number in 0..count {
            stack.push(number)?;
        }
        let marks = vec![in alloc; true; count as usize]?;
        Ok(Waiting { stack, marks })
    }

    // Takes the number on top.
    pub(crate) fn pop(&mut self) -> Option<u32>
        ensures none { IfNone result (self.old.numbers ≡ []) }
        ensures below { IfSome result (λ k. k < self.old.count) }
        ensures others { IfSome result (λ k. (i : ℕ) → Contains self.old.numbers i → i ≢ k → Contains self.new.numbers i) }
        ensures fewer { IfSome result (λ k. length self.new.numbers + 1 ≡ length self.old.numbers) }
        ensures count { self.new.count ≡ self.old.count }
    {
        let number = self.stack.pop()?;
        self.marks[number as usize] = false;
        Some(number)
    }

    // Puts a number on top, where it is not there.
    pub(crate) fn push(&mut self, number: u32) -> Result<(), Memory>
        requires { number < self.old.count }
        ensures there { OnOk result (Contains self.new.numbers number) }
        ensures others { OnOk result ((i : ℕ) → Contains self.old.numbers i → Contains self.new.numbers i) }
        ensures more { OnOk result (length self.new.numbers ≤ length self.old.numbers + 1) }
        ensures count { OnOk result (self.new.count ≡ self.old.count) }
    {
        if !self.marks[number as usize] {
            self.stack.push(number)?;
            self.marks[number as usize] = true;
        }
        Ok(())
    }
}
