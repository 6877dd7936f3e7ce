// A node of a height-balanced tree. Making a node and opening one are steps; its height and its count are told without one. No
// node is changed.
ghost use Rattle.std.specs.Prelude.{◌≡◌, ◌+◌, ◌≤◌, IfOk, length};
ghost use Rattle.shared_seq.specs.Tree.{HaveRoomBetween, IsBalancedTree, IsFork, IsWay, forked, lent_at, tree_at};
ghost use Rattle.shared_seq.specs.Node.{tree_after, tree_before};

use crate::side::Side;
use exact_plane::{Memory, Steps};
use std::alloc::Global;
use std::marker::Model;
use std::rc::Rc;
use std::sync::ledger::Ledger;

// The tree below a node; none has no value.
pub(crate) type Subtree = Option<Rc<Node>>;

#[cycle(node)]
#[derive(Drop)]
pub(crate) struct Node {
    children: Children,
    value: u32,
    height: u32,
    count: usize,
}

// The nodes before and after the value of a node. Their heights differ by at most one, where 0 stands for none.
#[cycle(node)]
#[derive(Drop)]
enum Children {
    Neither,
    Left(Rc<Node>),
    Right(Rc<Node>),
    Both(Rc<Node>, Rc<Node>),
}

// A node that is opened: the part on one side, its value and the part on the other side.
#[derive(Clone, Copy)]
pub(crate) struct Parts<'a> {
    pub one: Option<&'a Rc<Node>>,
    pub value: u32,
    pub other: Option<&'a Rc<Node>>,
}

// The way from a node to the gap before a place: the part that has it, on which side and before which place, and the rest.
#[derive(Clone, Copy)]
pub(crate) struct Way<'a> {
    pub side: Side,
    pub part: Option<&'a Rc<Node>>,
    pub value: u32,
    pub other: Option<&'a Rc<Node>>,
    pub at: usize,
}

impl Model for Node {
    ghost use Rattle.shared_seq.specs.Tree.{Tree};

    ghost Value = { Tree };

    ghost use Rattle.shared_seq.specs.Node.{IsNode, tree_of};

    ghost view = { λ node. tree_of node.children node.value };

    ghost invariant = { λ node. IsNode node.children node.value node.height node.count };

    ghost size = { λ tree. tree.height };

    ghost use Rattle.std.proofs.Common.{arith};

    ghost size_decreases = { λ a h. Prim.grind arith };
}

impl Node {
    // A node with this value between two trees, the first one on this side.
    pub(crate) fn fork<L: Ledger>(
        alloc: Global,
        side: Side,
        one: Subtree,
        value: u32,
        other: Subtree,
        steps: &mut Steps<L>,
    ) -> Result<Rc<Node>, Memory>
        requires { HaveRoomBetween 1 (tree_at one) (tree_at other) }
        ensures fork { IfOk result (λ node. IsFork side (tree_at one) value (tree_at other) node.value) }
        ensures steps { steps.new ≡ steps.old + 1 }
    {
        match side {
            Side::Left => Node::between(alloc, one, value, other, steps),
            Side::Right => Node::between(alloc, other, value, one, steps),
        }
    }

    // The same where the first tree is lent.
    pub(crate) fn beside<L: Ledger>(
        alloc: Global,
        side: Side,
        one: Option<&Rc<Node>>,
        value: u32,
        other: Subtree,
        steps: &mut Steps<L>,
    ) -> Result<Rc<Node>, Memory>
        requires { HaveRoomBetween 1 (lent_at one) (tree_at other) }
        ensures fork { IfOk result (λ node. IsFork side (lent_at one.entry) value (tree_at other) node.value) }
        ensures steps { steps.new ≤ steps.old + 1 }
    {
        Node::fork(alloc, side, shared(one)?, value, other, steps)
    }

    // A node with this value between a left and a right tree.
    fn between<L: Ledger>(
        alloc: Global,
        left: Subtree,
        value: u32,
        right: Subtree,
        steps: &mut Steps<L>,
    ) -> Result<Rc<Node>, Memory>
        requires { HaveRoomBetween 1 (tree_at left) (tree_at right) }
        ensures tree { IfOk result (λ node. node.value ≡ forked (tree_at left) value (tree_at right)) }
        ensures steps { steps.new ≡ steps.old + 1 }
    {
        steps.tick();
        let height = height(left.as_ref()).max(height(right.as_ref())) + 1;
        let count = count(left.as_ref()) + count(right.as_ref()) + 1;
        let children = Children::of(left, right);
        let node = Node {
            children,
            value,
            height,
            count,
        };
        Ok(Rc::new(alloc, node)?)
    }

    // Its value and the two parts, the first one on this side.
    pub(crate) fn parts<L: Ledger>(&self, side: Side, steps: &mut Steps<L>) -> Parts
        ensures fork { IsFork side (lent_at result.one) result.value (lent_at result.other) self.now }
        ensures steps { steps.new ≡ steps.old + 1 }
    {
        steps.tick();
        let (left, right) = self.children.pair();
        let value = self.value;
        match side {
            Side::Left => Parts {
                one: left,
                value,
                other: right,
            },
            Side::Right => Parts {
                one: right,
                value,
                other: left,
            },
        }
    }

    // The way to the gap before place i.
    pub(crate) fn way<L: Ledger>(&self, i: usize, steps: &mut Steps<L>) -> Way
        ensures way { IsWay self.now i result.side (lent_at result.part) result.value (lent_at result.other) result.at }
        ensures steps { steps.new ≡ steps.old + 1 }
    {
        let Parts {
            one: left,
            value,
            other: right,
        } = self.parts(Side::Left, steps);
        let before = count(left);
        if i <= before {
            Way {
                side: Side::Left,
                part: left,
                value,
                other: right,
                at: i,
            }
        } else {
            Way {
                side: Side::Right,
                part: right,
                value,
                other: left,
                at: i - before - 1,
            }
        }
    }
}

impl Children {
    fn of(left: Subtree, right: Subtree) -> Children
        ensures before { tree_before result ≡ tree_at left }
        ensures after { tree_after result ≡ tree_at right }
    {
        match (left, right) {
            (None, None) => Children::Neither,
            (Some(left), None) => Children::Left(left),
            (None, Some(right)) => Children::Right(right),
            (Some(left), Some(right)) => Children::Both(left, right),
        }
    }

    fn pair(&self) -> (Option<&Rc<Node>>, Option<&Rc<Node>>)
        ensures before { lent_at result.0 ≡ tree_before self.now }
        ensures after { lent_at result.1 ≡ tree_after self.now }
    {
        match self {
            Children::Neither => (None, None),
            Children::Left(left) => (Some(left), None),
            Children::Right(right) => (None, Some(right)),
            Children::Both(left, right) => (Some(left), Some(right)),
        }
    }
}

// How many nodes are one above the other.
pub(crate) fn height(tree: Option<&Rc<Node>>) -> u32
    ensures number { result ≡ (lent_at tree.entry).height }
    ensures tree { IsBalancedTree (lent_at tree.entry) }
{
    match tree {
        Some(root) => root.height,
        None => 0,
    }
}

// How many values it has.
pub(crate) fn count(tree: Option<&Rc<Node>>) -> usize
    ensures number { result ≡ length (lent_at tree.entry).items }
    ensures tree { IsBalancedTree (lent_at tree.entry) }
{
    match tree {
        Some(root) => root.count,
        None => 0,
    }
}

// The same tree, with one more owner of its node.
pub(crate) fn shared(tree: Option<&Rc<Node>>) -> Result<Subtree, Memory>
    ensures { IfOk result (λ same. tree_at same ≡ lent_at tree.entry) }
{
    match tree {
        Some(root) => Ok(Some(root.clone()?)),
        None => Ok(None),
    }
}
