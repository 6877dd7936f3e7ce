// A list that is searched: the value at a place, and the parts before and after a value.
ghost use Rattle.std.specs.Prelude.{◌≡◌, ◌+◌, ◌-◌, ◌^◌, ◌<◌, ◌≤◌, ◌↔◌, [], min, IfSome, IsNone, length, slice_index};
ghost use Rattle.shared_seq.specs.Search.{AreHalves};
ghost use Rattle.shared_seq.specs.Tree.{lent_at};

use crate::node::{Node, Parts, count};
use crate::side::Side;
use exact_plane::Steps;
use std::marker::Model;
use std::rc::Rc;
use std::sync::ledger::Ledger;

/// A part of a list that is still to be searched.
#[derive(Drop)]
pub struct Search<'a> {
    part: Option<&'a Rc<Node>>,
    low: usize,
}

impl<'a> Model for Search<'a> {
    ghost use Rattle.std.specs.Prelude.{◌+◌, ◌^◌, ◌<◌, length};
    ghost use Rattle.shared_seq.specs.Search.{ListPart};
    ghost use Rattle.shared_seq.specs.Tree.{lent_at};

    ghost Value = { ListPart };

    ghost view = { λ search. record { low = search.low; items = (lent_at search.part).items; levels = (lent_at search.part).height } };

    ghost invariant = { λ search. search.low + length (lent_at search.part).items < 2 ^ 31 };
}

/// A value of a part of a list, and the parts before and after it.
#[derive(Drop)]
pub struct Halves<'a> {
    pub before: Search<'a>,
    pub value: u32,
    pub after: Search<'a>,
}

impl<'a> Search<'a> {
    // All values of a tree.
    pub(crate) fn of(tree: Option<&'a Rc<Node>>) -> Search<'a>
        requires short { length (lent_at tree).items < 2 ^ 31 }
        ensures low { result.low ≡ 0 }
        ensures items { result.items ≡ (lent_at tree.entry).items }
        ensures levels { result.levels ≡ (lent_at tree.entry).height }
    {
        Search { part: tree, low: 0 }
    }

    /// The place of its first value in the list, or where there is none, the place where one would stand.
    pub fn low(&self) -> usize
        ensures { result ≡ self.now.low }
    {
        self.low
    }

    /// Its last value; none where it has no value.
    pub fn last<L: Ledger>(&self, steps: &mut Steps<L>) -> Option<u32>
        ensures last { IfSome result (λ value. value ≡ slice_index self.now.items (length self.now.items - 1)) }
        ensures none { IsNone result ↔ (self.now.items ≡ []) }
        ensures steps { steps.new ≤ steps.old + self.now.levels }
    {
        Some(last(self.part?, steps))
    }

    /// One of its values, and the parts before and after it; none where it has no value. That it has none takes no step.
    pub fn halves<L: Ledger>(&self, steps: &mut Steps<L>) -> Option<Halves<'a>>
        ensures halves { IfSome result (λ halves. AreHalves self.now halves.before halves.value halves.after) }
        ensures none { IsNone result ↔ (self.now.items ≡ []) }
        ensures steps { steps.new ≤ steps.old + min 1 self.now.levels }
    {
        let node = self.part?;
        let Parts {
            one: left,
            value,
            other: right,
        } = node.parts(Side::Left, steps);
        let before = Search {
            part: left,
            low: self.low,
        };
        let after = Search {
            part: right,
            low: self.low + count(left) + 1,
        };
        Some(Halves {
            before,
            value,
            after,
        })
    }
}

// The last value of a tree.
fn last<L: Ledger>(tree: &Rc<Node>, steps: &mut Steps<L>) -> u32
    ensures last { let items = tree.now.value.items in result ≡ slice_index items (length items - 1) }
    ensures some { 0 < length tree.now.value.items }
    ensures steps { steps.new ≤ steps.old + tree.now.value.height }
{
    let Parts {
        value,
        other: right,
        ..
    } = tree.parts(Side::Left, steps);
    match right {
        Some(right) => last(right, steps),
        None => value,
    }
}

// The value at i.
pub(crate) fn get<L: Ledger>(tree: &Rc<Node>, i: usize, steps: &mut Steps<L>) -> u32
    requires { i < length tree.now.value.items }
    ensures value { result ≡ slice_index tree.now.value.items i }
    ensures steps { steps.new ≤ steps.old + tree.now.value.height }
{
    let Parts {
        one: left,
        value,
        other: right,
    } = tree.parts(Side::Left, steps);
    let before = count(left);
    match (left, right) {
        (Some(left), _) if i < before => get(left, i, steps),
        (_, Some(right)) if before < i => get(right, i - before - 1, steps),
        _ => value,
    }
}
