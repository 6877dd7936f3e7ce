// A persistent sequence of numbers: the type, and its queries.
ghost use Rattle.std.specs.Prelude.{◌≡◌, ◌+◌, ◌*◌, ◌^◌, ◌<◌, ◌≤◌, [], ◌∷◌, IfOk, length, slice_index};
ghost use Rattle.shared_seq.specs.Digits.{binary_digits};
ghost use Rattle.shared_seq.specs.Tree.{lent_at, tree_at};

use crate::node::{Node, Subtree, count, shared};
use crate::search::{Search, get};
use crate::side::Side;
use exact_plane::{Memory, Steps};
use std::alloc::Global;
use std::marker::Model;
use std::rc::Rc;
use std::sync::ledger::Ledger;

/// A list of numbers that shares its nodes with the lists that it was made from. No call changes a list.
#[derive(Drop)]
pub struct SharedSeq {
    root: Option<Rc<Node>>,
    len: usize,
}

impl Model for SharedSeq {
    ghost use Rattle.std.specs.Prelude.{ℕ, List};
    ghost use Rattle.shared_seq.specs.Seq.{IsSeq};
    ghost use Rattle.shared_seq.specs.Tree.{tree_at};

    ghost Value = { List ℕ };

    ghost view = { λ seq. (tree_at seq.root).items };

    ghost invariant = { λ seq. IsSeq seq.root seq.len };
}

impl SharedSeq {
    /// The empty list. No command calls it: a funnel begins with `single`.
    pub fn empty() -> SharedSeq
        ensures { result ≡ [] }
    {
        SharedSeq { root: None, len: 0 }
    }

    /// The list of one value.
    pub fn single<L: Ledger>(
        alloc: Global,
        value: u32,
        steps: &mut Steps<L>,
    ) -> Result<SharedSeq, Memory>
        ensures list { IfOk result (λ list. list ≡ value ∷ []) }
        ensures steps { steps.new ≤ steps.old + 1 }
    {
        Ok(SharedSeq::of(Some(Node::fork(alloc, Side::Left, None, value, None, steps)?)))
    }

    /// The number of values.
    pub fn len(&self) -> usize
        ensures number { result ≡ length self.now }
        ensures short { length self.now < 2 ^ 31 }
    {
        self.len
    }

    /// The value at i.
    pub fn get<L: Ledger>(&self, i: usize, steps: &mut Steps<L>) -> u32
        requires { i < length self.now }
        ensures value { result ≡ slice_index self.now i }
        ensures steps { steps.new ≤ steps.old + 2 * binary_digits (length self.now) + 1 }
    {
        get(self.node(), i, steps)
    }

    /// The whole list, that a search may halve.
    pub fn search(&self) -> Search
        ensures low { result.low ≡ 0 }
        ensures items { result.items ≡ self.now }
        ensures levels { result.levels ≤ 2 * binary_digits (length self.now) }
    {
        Search::of(self.root())
    }

    /// The same list. It takes no memory, but a node can have so many owners that one more is refused. No command calls it: `take_then`,
    /// `then_skip` and the pushes share nodes themselves.
    pub fn share(&self) -> Result<SharedSeq, Memory>
        ensures { IfOk result (λ list. list ≡ self.now) }
    {
        Ok(SharedSeq::of(shared(self.root())?))
    }

    // The node of a list that is not empty.
    pub(crate) fn node(&self) -> &Rc<Node>
        requires { 0 < length self.now }
        ensures items { result.now.value.items ≡ self.now }
        ensures height { result.now.value.height ≤ 2 * binary_digits (length self.now) }
    {
        let Some(root) = self.root() else {
            unreachable!()
        };
        root
    }

    // Its node, if it has values.
    pub(crate) fn root(&self) -> Option<&Rc<Node>>
        ensures items { (lent_at result).items ≡ self.now }
        ensures short { length self.now < 2 ^ 31 }
        ensures height { (lent_at result).height ≤ 2 * binary_digits (length self.now) }
    {
        self.root.as_ref()
    }

    // The list of a tree.
    pub(crate) fn of(root: Subtree) -> SharedSeq
        ensures { result ≡ (tree_at root).items }
    {
        let len = count(root.as_ref());
        SharedSeq { root, len }
    }
}
