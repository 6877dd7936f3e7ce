// A list with one value changed, more or fewer.
ghost use Rattle.std.specs.Prelude.{◌≡◌, ◌+◌, ◌*◌, ◌^◌, ◌<◌, ◌≤◌, [], ◌∷◌, ◌++◌, IfOk, length, slice_set};
ghost use Rattle.std.specs.List.{insert, remove};
ghost use Rattle.shared_seq.specs.Digits.{binary_digits};
ghost use Rattle.shared_seq.specs.Tree.{IsGrownHeight, lent_at, tree_at};

use crate::joining::both;
use crate::node::{Node, Subtree, Way, count, shared};
use crate::rotation::balance_with;
use crate::seq::SharedSeq;
use crate::side::Side;
use exact_plane::{Memory, Steps};
use std::alloc::Global;
use std::rc::Rc;
use std::sync::ledger::Ledger;

impl SharedSeq {
    /// The value, and then the list.
    pub fn push_front<L: Ledger>(
        &self,
        alloc: Global,
        value: u32,
        steps: &mut Steps<L>,
    ) -> Result<SharedSeq, Memory>
        requires short { length self.now + 1 < 2 ^ 31 }
        ensures list { IfOk result (λ list. list ≡ value ∷ self.now) }
        ensures steps { steps.new ≤ steps.old + 32 * (binary_digits (length self.now + 1) + 1) }
    {
        self.insert_at(alloc, 0, value, steps)
    }

    /// The list, and then the value.
    pub fn push_back<L: Ledger>(
        &self,
        alloc: Global,
        value: u32,
        steps: &mut Steps<L>,
    ) -> Result<SharedSeq, Memory>
        requires short { length self.now + 1 < 2 ^ 31 }
        ensures list { IfOk result (λ list. list ≡ self.now ++ value ∷ []) }
        ensures steps { steps.new ≤ steps.old + 32 * (binary_digits (length self.now + 1) + 1) }
    {
        self.insert_at(alloc, self.len(), value, steps)
    }

    /// The list with this value at i. No command calls it: funnels are made by `single`, the pushes, `take_then` and `then_skip`.
    pub fn set<L: Ledger>(
        &self,
        alloc: Global,
        i: usize,
        value: u32,
        steps: &mut Steps<L>,
    ) -> Result<SharedSeq, Memory>
        requires inside { i < length self.now }
        ensures list { IfOk result (λ list. list ≡ slice_set self.now i value) }
        ensures steps { steps.new ≤ steps.old + 8 * (binary_digits (length self.now) + 1) }
    {
        Ok(SharedSeq::of(Some(set(alloc, self.node(), i, value, steps)?)))
    }

    /// The first i values, this value, and the rest.
    #[tactic(auto, using(crate::proofs::Digits::binary_digits_sum))]
    pub fn insert_at<L: Ledger>(
        &self,
        alloc: Global,
        i: usize,
        value: u32,
        steps: &mut Steps<L>,
    ) -> Result<SharedSeq, Memory>
        requires inside { i ≤ length self.now }
        requires short { length self.now + 1 < 2 ^ 31 }
        ensures list { IfOk result (λ list. list ≡ insert self.now i value) }
        ensures steps { steps.new ≤ steps.old + 24 * (binary_digits (length self.now + 1) + 1) }
    {
        Ok(SharedSeq::of(Some(insert(alloc, self.root(), i, value, steps)?)))
    }

    /// The list without the value at i. No command calls it: `take_then` and `then_skip` drop the values that a funnel loses.
    pub fn remove_at<L: Ledger>(
        &self,
        alloc: Global,
        i: usize,
        steps: &mut Steps<L>,
    ) -> Result<SharedSeq, Memory>
        requires inside { i < length self.now }
        ensures list { IfOk result (λ list. list ≡ remove self.now i) }
        ensures steps { steps.new ≤ steps.old + 40 * (binary_digits (length self.now) + 1) }
    {
        Ok(SharedSeq::of(remove(alloc, self.node(), i, steps)?))
    }
}

// The same values but for the one at i.
pub(crate) fn set<L: Ledger>(
    alloc: Global,
    tree: &Rc<Node>,
    i: usize,
    value: u32,
    steps: &mut Steps<L>,
) -> Result<Rc<Node>, Memory>
    requires { i < length tree.now.value.items }
    ensures items { IfOk result (λ new. new.value.items ≡ slice_set tree.now.value.items i value) }
    ensures height { IfOk result (λ new. new.value.height ≡ tree.now.value.height) }
    ensures steps { steps.new ≤ steps.old + 2 * tree.now.value.height }
{
    let Way {
        side,
        part,
        value: here,
        other,
        at,
    } = tree.way(i, steps);
    match part {
        Some(inner) if at < count(part) => {
            let inner = set(alloc, inner, at, value, steps)?;
            Node::beside(alloc, side.opposite(), other, here, Some(inner), steps)
        }
        _ => {
            let other = shared(other)?;
            Node::beside(alloc, side, part, value, other, steps)
        }
    }
}

// The same values and one more at i.
pub(crate) fn insert<L: Ledger>(
    alloc: Global,
    tree: Option<&Rc<Node>>,
    i: usize,
    value: u32,
    steps: &mut Steps<L>,
) -> Result<Rc<Node>, Memory>
    requires inside { i ≤ length (lent_at tree).items }
    requires short { length (lent_at tree).items + 1 < 2 ^ 31 }
    ensures items { IfOk result (λ new. new.value.items ≡ insert (lent_at tree.entry).items i value) }
    ensures height { IfOk result (λ new. IsGrownHeight (lent_at tree.entry).height new.value.height) }
    ensures steps { steps.new ≤ steps.old + 6 * (lent_at tree.entry).height + 1 }
{
    let Some(tree) = tree else {
        return Node::fork(alloc, Side::Left, None, value, None, steps);
    };
    let Way {
        side,
        part,
        value: here,
        other,
        at,
    } = tree.way(i, steps);
    let part = insert(alloc, part, at, value, steps)?;
    balance_with(alloc, side, Some(part), here, other, steps)
}

// The same values without the one at i.
pub(crate) fn remove<L: Ledger>(
    alloc: Global,
    tree: &Rc<Node>,
    i: usize,
    steps: &mut Steps<L>,
) -> Result<Subtree, Memory>
    requires { i < length tree.now.value.items }
    ensures items { IfOk result (λ new. (tree_at new).items ≡ remove tree.now.value.items i) }
    ensures height { IfOk result (λ new. IsGrownHeight (tree_at new).height tree.now.value.height) }
    ensures steps { steps.new ≤ steps.old + 6 * tree.now.value.height }
{
    let Way {
        side,
        part,
        value,
        other,
        at,
    } = tree.way(i, steps);
    match part {
        Some(inner) if at < count(part) => {
            let inner = remove(alloc, inner, at, steps)?;
            let joined = balance_with(alloc, side, inner, value, other, steps)?;
            Ok(Some(joined))
        }
        _ => both(alloc, part, other, steps),
    }
}
