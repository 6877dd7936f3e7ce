// A list that is cut at a place.
ghost use Rattle.std.specs.Prelude.{◌≡◌, ◌+◌, ◌-◌, ◌*◌, ◌^◌, ◌<◌, ◌≤◌, [], ◌∷◌, ◌++◌, drop, IfOk, length, OnErr, take};
ghost use Rattle.shared_seq.specs.Digits.{binary_digits};
ghost use Rattle.shared_seq.specs.Tree.{IsKeptPart, kept_length, lent_at};

use crate::joining::join;
use crate::node::{Node, Way, shared};
use crate::seq::SharedSeq;
use crate::side::Side;
use exact_plane::{Memory, Steps};
use std::alloc::Global;
use std::rc::Rc;
use std::sync::ledger::Ledger;

impl SharedSeq {
    /// The first i values, and the rest. No command calls it: a funnel is cut by `take_then` or `then_skip`, which add the new corner.
    pub fn split_at<L: Ledger>(
        &self,
        alloc: Global,
        i: usize,
        steps: &mut Steps<L>,
    ) -> Result<(SharedSeq, SharedSeq), Memory>
        requires inside { i ≤ length self.now }
        ensures front { IfOk result (λ parts. parts.0 ≡ take i self.now) }
        ensures back { IfOk result (λ parts. parts.1 ≡ drop i self.now) }
        ensures steps { steps.new ≤ steps.old + 128 * (binary_digits (length self.now) + 1) }
    {
        Ok((self.take(alloc, i, steps)?, self.skip(alloc, i, steps)?))
    }

    /// The first i values. No command calls it: a funnel is cut by `take_then`.
    pub fn take<L: Ledger>(
        &self,
        alloc: Global,
        i: usize,
        steps: &mut Steps<L>,
    ) -> Result<SharedSeq, Memory>
        requires inside { i ≤ length self.now }
        ensures list { IfOk result (λ list. list ≡ take i self.now) }
        ensures steps { steps.new ≤ steps.old + 64 * (binary_digits (length self.now) + 1) }
    {
        if i == 0 {
            return Ok(SharedSeq::empty());
        }
        if i == self.len() {
            return self.share();
        }
        let last = self.get(i - 1, steps);
        self.take_then(alloc, i - 1, last, steps)
    }

    /// The list without its first i values. No command calls it: a funnel is cut by `then_skip`.
    pub fn skip<L: Ledger>(
        &self,
        alloc: Global,
        i: usize,
        steps: &mut Steps<L>,
    ) -> Result<SharedSeq, Memory>
        requires inside { i ≤ length self.now }
        ensures list { IfOk result (λ list. list ≡ drop i self.now) }
        ensures steps { steps.new ≤ steps.old + 64 * (binary_digits (length self.now) + 1) }
    {
        if i == 0 {
            return self.share();
        }
        if i == self.len() {
            return Ok(SharedSeq::empty());
        }
        let first = self.get(i, steps);
        self.then_skip(alloc, i + 1, first, steps)
    }

    /// The first i values, and then this value.
    pub fn take_then<L: Ledger>(
        &self,
        alloc: Global,
        i: usize,
        value: u32,
        steps: &mut Steps<L>,
    ) -> Result<SharedSeq, Memory>
        requires inside { i ≤ length self.now }
        requires short { i + 1 < 2 ^ 31 }
        ensures list { IfOk result (λ list. list ≡ take i self.now ++ value ∷ []) }
        ensures steps { steps.new ≤ steps.old + 48 * (binary_digits (length self.now) + 1) }
    {
        Ok(SharedSeq::of(Some(piece(alloc, Side::Left, self.root(), i, value, steps)?)))
    }

    /// The value, and then the list without its first i values.
    pub fn then_skip<L: Ledger>(
        &self,
        alloc: Global,
        i: usize,
        value: u32,
        steps: &mut Steps<L>,
    ) -> Result<SharedSeq, Memory>
        requires inside { i ≤ length self.now }
        requires short { length self.now - i + 1 < 2 ^ 31 }
        ensures list { IfOk result (λ list. list ≡ value ∷ drop i self.now) }
        ensures steps { steps.new ≤ steps.old + 48 * (binary_digits (length self.now) + 1) }
    {
        Ok(SharedSeq::of(Some(piece(alloc, Side::Right, self.root(), i, value, steps)?)))
    }
}

// The first i values and then this one, where the left side is kept, or else this one and then the rest. What is not kept is not
// made. The steps of the joins along the way down are paid by the height of the piece, which grows with each join.
pub(crate) fn piece<L: Ledger>(
    alloc: Global,
    kept: Side,
    tree: Option<&Rc<Node>>,
    i: usize,
    value: u32,
    steps: &mut Steps<L>,
) -> Result<Rc<Node>, Memory>
    requires inside { i ≤ length (lent_at tree).items }
    requires short { kept_length kept i (length (lent_at tree).items) < 2 ^ 31 }
    ensures piece { IfOk result (λ piece. IsKeptPart kept (lent_at tree.entry) i value piece.value) }
    ensures steps { IfOk result (λ piece. steps.new ≤ steps.old + 14 * (lent_at tree.entry).height + 6 * piece.value.height) }
    ensures steps_of_refusal { OnErr result (steps.new ≤ steps.old + 20 * (lent_at tree.entry).height + 1) }
{
    let Some(tree) = tree else {
        return Node::fork(alloc, kept, None, value, None, steps);
    };
    let Way {
        side,
        part,
        value: here,
        other,
        at,
    } = tree.way(i, steps);
    let inner = piece(alloc, kept, part, at, value, steps)?;
    if kept.is(side) {
        return Ok(inner);
    }
    let other = shared(other)?;
    join(alloc, side, Some(inner), here, other, steps)
}
