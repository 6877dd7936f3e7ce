// A value between two trees whose heights differ by at most two: the higher one is rotated where they differ by two.
ghost use Rattle.std.specs.Prelude.{◌≡◌, ◌+◌, ◌^◌, ◌<◌, ◌≤◌, IfOk, IfSome, IsNone, length};
ghost use Rattle.shared_seq.specs.Tree.{HaveRoomBetween, IsJoinedTree, IsTurnedTree, lent_at, tree_at};

use crate::node::{Node, Parts, Subtree, height, shared};
use crate::side::Side;
use exact_plane::{Memory, Steps};
use std::alloc::Global;
use std::rc::Rc;
use std::sync::ledger::Ledger;

// The part on one side of a node, and the value of the node.
#[derive(Clone, Copy)]
struct Outer<'a> {
    side: Side,
    part: Option<&'a Rc<Node>>,
    value: u32,
}

// A value between two trees whose heights differ by at most two, turned where they differ by two.
fn balance<L: Ledger>(
    alloc: Global,
    side: Side,
    one: Subtree,
    value: u32,
    other: Subtree,
    steps: &mut Steps<L>,
) -> Result<Rc<Node>, Memory>
    requires { HaveRoomBetween 2 (tree_at one) (tree_at other) }
    ensures joined { IfOk result (λ tree. IsJoinedTree side (tree_at one) value (tree_at other) tree.value) }
    ensures steps { steps.new ≤ steps.old + 5 }
{
    if let Some(high) = higher(one.as_ref(), other.as_ref()) {
        return turn(alloc, side, high, value, other, steps);
    }
    if let Some(high) = higher(other.as_ref(), one.as_ref()) {
        return turn(alloc, side.opposite(), high, value, one, steps);
    }
    Node::fork(alloc, side, one, value, other, steps)
}

// The same where the first tree is lent.
pub(crate) fn balance_beside<L: Ledger>(
    alloc: Global,
    side: Side,
    one: Option<&Rc<Node>>,
    value: u32,
    other: Subtree,
    steps: &mut Steps<L>,
) -> Result<Rc<Node>, Memory>
    requires { HaveRoomBetween 2 (lent_at one) (tree_at other) }
    ensures joined { IfOk result (λ tree. IsJoinedTree side (lent_at one.entry) value (tree_at other) tree.value) }
    ensures steps { steps.new ≤ steps.old + 5 }
{
    let one = shared(one)?;
    balance(alloc, side, one, value, other, steps)
}

// And where the second one is.
pub(crate) fn balance_with<L: Ledger>(
    alloc: Global,
    side: Side,
    one: Subtree,
    value: u32,
    other: Option<&Rc<Node>>,
    steps: &mut Steps<L>,
) -> Result<Rc<Node>, Memory>
    requires { HaveRoomBetween 2 (tree_at one) (lent_at other) }
    ensures joined { IfOk result (λ tree. IsJoinedTree side (tree_at one) value (lent_at other.entry) tree.value) }
    ensures steps { steps.new ≤ steps.old + 5 }
{
    let other = shared(other)?;
    balance(alloc, side, one, value, other, steps)
}

// The tree on this side is two higher: a part of it goes to the other one.
fn turn<L: Ledger>(
    alloc: Global,
    side: Side,
    high: &Rc<Node>,
    value: u32,
    low: Subtree,
    steps: &mut Steps<L>,
) -> Result<Rc<Node>, Memory>
    requires short { length high.now.value.items + length (tree_at low).items + 1 < 2 ^ 31 }
    requires two_higher { high.now.value.height ≡ (tree_at low).height + 2 }
    ensures joined { IfOk result (λ tree. IsJoinedTree side high.now.value value (tree_at low) tree.value) }
    ensures steps { steps.new ≤ steps.old + 5 }
{
    let Parts {
        one: outer,
        value: middle,
        other: inner,
    } = high.parts(side, steps);
    match inner {
        Some(top) if height(outer) < height(inner) => {
            let outer = Outer {
                side,
                part: outer,
                value: middle,
            };
            turn_inner(alloc, outer, top, value, low, steps)
        }
        _ => {
            let inner = Node::beside(alloc, side, inner, value, low, steps)?;
            Node::beside(alloc, side, outer, middle, Some(inner), steps)
        }
    }
}

// The higher node between two trees, each with a value beside it, becomes the one above both.
fn turn_inner<L: Ledger>(
    alloc: Global,
    outer: Outer,
    inner: &Rc<Node>,
    value: u32,
    low: Subtree,
    steps: &mut Steps<L>,
) -> Result<Rc<Node>, Memory>
    requires short { length (lent_at outer.part).items + length inner.now.value.items + length (tree_at low).items + 2 < 2 ^ 31 }
    requires outer { inner.now.value.height ≡ (lent_at outer.part).height + 1 }
    requires low { inner.now.value.height ≡ (tree_at low).height + 1 }
    ensures turned { IfOk result (λ tree. IsTurnedTree outer.entry.side (lent_at outer.entry.part) outer.entry.value inner.now.value value (tree_at low) tree.value) }
    ensures steps { steps.new ≤ steps.old + 4 }
{
    let side = outer.side;
    let Parts {
        one: first,
        value: top,
        other: second,
    } = inner.parts(side, steps);
    let first = shared(first)?;
    let one = Node::beside(alloc, side, outer.part, outer.value, first, steps)?;
    let other = Node::beside(alloc, side, second, value, low, steps)?;
    Node::fork(alloc, side, Some(one), top, Some(other), steps)
}

// The root of a tree that is more than one higher than another one; none where it is not.
pub(crate) fn higher<'a>(
    tree: Option<&'a Rc<Node>>,
    other: Option<&Rc<Node>>,
) -> Option<&'a Rc<Node>>
    ensures root { IfSome result (λ root. root.now.value ≡ lent_at tree.entry) }
    ensures higher { IfSome result (λ root. (lent_at other.entry).height + 1 < root.now.value.height) }
    ensures near { IsNone result → (lent_at tree.entry).height ≤ (lent_at other.entry).height + 1 }
{
    match tree {
        Some(root) if height(tree) > height(other) + 1 => Some(root),
        _ => None,
    }
}
