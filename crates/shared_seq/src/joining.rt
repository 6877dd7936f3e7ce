// Two lists as one: a value between two trees of any heights, and two trees without one.
ghost use Rattle.std.specs.Prelude.{◌≡◌, ◌+◌, ◌-◌, ◌*◌, ◌^◌, ◌<◌, ◌≤◌, ◌∷◌, ◌++◌, max, IfOk, length};
ghost use Rattle.shared_seq.specs.Digits.{binary_digits};
ghost use Rattle.shared_seq.specs.Tree.{DifferByAtMost, IsGrownHeight, IsJoinedTree, lent_at, tree_at};

use crate::node::{Node, Parts, Subtree, shared};
use crate::rotation::{balance_beside, balance_with, higher};
use crate::seq::SharedSeq;
use crate::side::Side;
use exact_plane::{Memory, Steps};
use std::alloc::Global;
use std::rc::Rc;
use std::sync::ledger::Ledger;

impl SharedSeq {
    /// The left list followed by the right one.
    #[tactic(auto, using(crate::proofs::Digits::binary_digits_sum))]
    pub fn join<L: Ledger>(
        alloc: Global,
        left: &SharedSeq,
        right: &SharedSeq,
        steps: &mut Steps<L>,
    ) -> Result<SharedSeq, Memory>
        requires short { length left.now + length right.now < 2 ^ 31 }
        ensures list { IfOk result (λ list. list ≡ left.now ++ right.now) }
        ensures steps { steps.new ≤ steps.old + 32 * (binary_digits (length left.now + length right.now) + 1) }
    {
        let Some(root) = right.root() else {
            return left.share();
        };
        let (first, rest) = without_first(alloc, root, steps)?;
        let front = shared(left.root())?;
        Ok(SharedSeq::of(Some(join(alloc, Side::Left, front, first, rest, steps)?)))
    }
}

// A value between two trees of any heights, the first one on this side.
pub(crate) fn join<L: Ledger>(
    alloc: Global,
    side: Side,
    one: Subtree,
    value: u32,
    other: Subtree,
    steps: &mut Steps<L>,
) -> Result<Rc<Node>, Memory>
    requires short { length (tree_at one).items + length (tree_at other).items + 1 < 2 ^ 31 }
    ensures joined { IfOk result (λ tree. IsJoinedTree side (tree_at one) value (tree_at other) tree.value) }
    ensures steps { steps.new ≤ steps.old + 6 * ((tree_at one).height - (tree_at other).height)
        + 6 * ((tree_at other).height - (tree_at one).height) + 1 }
{
    if higher(one.as_ref(), other.as_ref()).is_some() {
        return hang(alloc, side, one.as_ref(), value, other, steps);
    }
    if higher(other.as_ref(), one.as_ref()).is_some() {
        return hang(alloc, side.opposite(), other.as_ref(), value, one, steps);
    }
    Node::fork(alloc, side, one, value, other, steps)
}

// The lower tree goes to where the higher one, on this side, is as low.
fn hang<L: Ledger>(
    alloc: Global,
    side: Side,
    high: Option<&Rc<Node>>,
    value: u32,
    low: Subtree,
    steps: &mut Steps<L>,
) -> Result<Rc<Node>, Memory>
    requires short { length (lent_at high).items + length (tree_at low).items + 1 < 2 ^ 31 }
    requires lower { (tree_at low).height ≤ (lent_at high).height + 1 }
    ensures joined { IfOk result (λ tree. IsJoinedTree side (lent_at high.entry) value (tree_at low) tree.value) }
    ensures steps { steps.new ≤ steps.old + 6 * ((lent_at high.entry).height - (tree_at low).height) + 1 }
{
    let Some(root) = higher(high, low.as_ref()) else {
        return Node::beside(alloc, side, high, value, low, steps);
    };
    let Parts {
        one: outer,
        value: middle,
        other: inner,
    } = root.parts(side, steps);
    let inner = hang(alloc, side, inner, value, low, steps)?;
    balance_beside(alloc, side, outer, middle, Some(inner), steps)
}

// The values of two trees whose heights differ by at most one, those of the left one first.
pub(crate) fn both<L: Ledger>(
    alloc: Global,
    left: Option<&Rc<Node>>,
    right: Option<&Rc<Node>>,
    steps: &mut Steps<L>,
) -> Result<Subtree, Memory>
    requires short { length (lent_at left).items + length (lent_at right).items < 2 ^ 31 }
    requires near { DifferByAtMost 1 (lent_at left).height (lent_at right).height }
    ensures items { IfOk result (λ new. (tree_at new).items ≡ (lent_at left.entry).items ++ (lent_at right.entry).items) }
    ensures height { IfOk result (λ new. IsGrownHeight (tree_at new).height (max (lent_at left.entry).height (lent_at right.entry).height + 1)) }
    ensures steps { steps.new ≤ steps.old + 6 * (lent_at right.entry).height + 5 }
{
    let Some(right) = right else {
        return shared(left);
    };
    let (first, rest) = without_first(alloc, right, steps)?;
    let joined = balance_beside(alloc, Side::Left, left, first, rest, steps)?;
    Ok(Some(joined))
}

// The first value, and the others.
fn without_first<L: Ledger>(
    alloc: Global,
    tree: &Rc<Node>,
    steps: &mut Steps<L>,
) -> Result<(u32, Subtree), Memory>
    ensures items { IfOk result (λ parts. tree.now.value.items ≡ parts.0 ∷ (tree_at parts.1).items) }
    ensures height { IfOk result (λ parts. IsGrownHeight (tree_at parts.1).height tree.now.value.height) }
    ensures steps { steps.new ≤ steps.old + 6 * tree.now.value.height }
{
    let Parts {
        one: left,
        value,
        other: right,
    } = tree.parts(Side::Left, steps);
    let Some(left) = left else {
        return Ok((value, shared(right)?));
    };
    let (first, left) = without_first(alloc, left, steps)?;
    let rest = balance_with(alloc, Side::Left, left, value, right, steps)?;
    Ok((first, Some(rest)))
}
