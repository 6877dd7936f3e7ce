// A bounding volume hierarchy over the triangles of a mesh. It is there for speed alone: no clause says that a box holds its triangles.
ghost use Rattle.std.specs.List.{All};
ghost use Rattle.std.specs.Prelude.{◌≡◌, ◌+◌, ◌-◌, ◌*◌, ◌<◌, ◌≤◌, ◌^◌, IfSome, IsSome, IsTrue, OnOk, length};
ghost use Rattle.triangle_boxes.specs.Hierarchy.{AreNamedBelow, IsNamedBelow};

use crate::extremes::Extremes;
use exact_plane::{Memory, Pt, Steps};
use meshes::Tri;
use std::alloc::Global;
use std::sync::ledger::Ledger;

// A leaf has at most so many triangles.
const LEAF: usize = 4;

// A mesh of so many triangles is searched as fast without a hierarchy.
const FEW: usize = 64;

/// A bounding volume hierarchy over triangles that follow one another in a list.
#[derive(Drop)]
pub struct Hierarchy {
    nodes: Vec<Node>,
}

/// The next node that a search in a hierarchy comes to, and how many steps it may take.
#[derive(Drop)]
pub struct Cursor {
    node: usize,
    pub spared: u32,
}

// The triangles of a node, and the place of the node after those below it. Its box is named by vertices, so it holds no coordinate. A node
// stands before those below it.
#[derive(Clone, Copy)]
struct Node {
    around: Extremes,
    first: u32,
    count: u32,
    next: u32,
}

impl Cursor {
    /// Returns the cursor at the first node, which may take no step.
    pub fn new() -> Cursor
        ensures { result.spared ≡ 0 }
    {
        Cursor { node: 0, spared: 0 }
    }
}

impl Hierarchy {
    /// Returns the hierarchy over the triangles, or `Memory`; it has no node if the triangles are few. A node halves the list of its
    /// triangles. It takes O(n) steps, at most 16 for each triangle.
    pub fn of<L: Ledger>(
        alloc: Global,
        corners: &[Pt],
        tris: &[Tri],
        steps: &mut Steps<L>,
    ) -> Result<Hierarchy, Memory>
        requires { length tris.now < 2 ^ 30 }
        ensures { steps.new ≤ steps.old + 16 * length tris.now }
    {
        let mut nodes = Vec::new(alloc);
        if tris.len() > FEW {
            put(&mut nodes, corners, tris, 0, tris.len(), steps)?;
        }
        Ok(Hierarchy { nodes })
    }

    /// Returns the hierarchy without a node.
    pub fn empty(alloc: Global) -> Hierarchy {
        Hierarchy {
            nodes: Vec::new(alloc),
        }
    }

    /// Returns the hierarchy itself if its boxes are named by some of the first `n` vertices, and else the one without a node. O(n) time.
    pub fn named_below(self, alloc: Global, n: usize) -> Hierarchy
        ensures { AreNamedBelow n result }
    {
        if are_named_below(&self.nodes, n) {
            self
        } else {
            Hierarchy {
                nodes: Vec::new(alloc),
            }
        }
    }

    /// Moves the cursor to the next leaf whose box has the point, while at least `enough` steps are spared at each node, and returns the
    /// first of the leaf's triangles and how many they are, at most four. Each node takes one step of those that are spared.
    pub fn next_leaf<L: Ledger>(
        &self,
        cursor: &mut Cursor,
        enough: u32,
        corners: &[Pt],
        p: &Pt,
        steps: &mut Steps<L>,
    ) -> Option<(u32, u32)>
        requires named { AreNamedBelow (length corners.now) self.now }
        requires some { 1 ≤ enough }
        ensures few { IfSome result (λ leaf. leaf.1 ≤ 4) }
        ensures enough { IsSome result → enough ≤ cursor.new.spared + 1 }
        ensures fewer { IsSome result → cursor.new.spared < cursor.old.spared }
        ensures no_more { cursor.new.spared ≤ cursor.old.spared }
        ensures paid { steps.new + cursor.new.spared ≤ steps.old + cursor.old.spared }
    {
        let (mut at, mut spared) = (cursor.node, cursor.spared);
        let mut found = None;
        'nodes: while found.is_none() && spared >= enough && at < self.nodes.len() {
            let node = &self.nodes[at];
            spared -= 1;
            if node.around.hold(corners, p, steps) {
                at += 1;
                found = node.leaf();
            } else {
                at = node.next as usize;
            }
        }
        cursor.node = at;
        cursor.spared = spared;
        found
    }
}

impl Node {
    // Returns the first of its triangles and how many they are, at most four, if it is a leaf.
    fn leaf(&self) -> Option<(u32, u32)>
        ensures { IfSome result (λ tris. tris.1 ≤ 4) }
    {
        if self.count as usize <= LEAF {
            Some((self.first, self.count))
        } else {
            None
        }
    }
}

// Appends the nodes over the triangles from `first` to before `end`, and returns the extremes of their corners.
fn put<L: Ledger>(
    nodes: &mut Vec<Node>,
    corners: &[Pt],
    tris: &[Tri],
    first: usize,
    end: usize,
    steps: &mut Steps<L>,
) -> Result<Extremes, Memory>
    requires some { first < end }
    requires within { end ≤ length tris.now }
    requires few { length tris.now < 2 ^ 30 }
    requires room { length nodes.old.items + 2 * (end - first) < 2 ^ 32 }
    ensures grown { OnOk result (length nodes.old.items < length nodes.new.items) }
    ensures few { OnOk result (length nodes.new.items + 1 ≤ length nodes.old.items + 2 * (end - first)) }
    ensures steps { steps.new + 4 ≤ steps.old + 16 * (end - first) }
{
    let at = nodes.len();
    let count = end - first;
    let mut node = Node {
        around: Extremes::of(0),
        first: first as u32,
        count: count as u32,
        next: 0,
    };
    nodes.push(node)?;
    node.around = if count <= LEAF {
        around(corners, tris, first, end, steps)
    } else {
        let middle = first + count / 2;
        let one = put(nodes, corners, tris, first, middle, steps)?;
        let other = put(nodes, corners, tris, middle, end, steps)?;
        one.joined(&other, corners, steps)
    };
    node.next = nodes.len() as u32;
    nodes[at] = node;
    Ok(node.around)
}

// Returns the extremes of the corners of the triangles from `first` to before `end`. Most triangles share two corners with the one before.
fn around<L: Ledger>(
    corners: &[Pt],
    tris: &[Tri],
    first: usize,
    end: usize,
    steps: &mut Steps<L>,
) -> Extremes
    requires some { first < end }
    requires within { end ≤ length tris.now }
    ensures { steps.new + 4 ≤ steps.old + 16 * (end - first) }
{
    let mut before = tris[first];
    let mut around = Extremes::of(before.a);
    around = with_corner(&around, corners, before.b, steps);
    around = with_corner(&around, corners, before.c, steps);
    for i in first + 1..end {
        let tri = tris[i];
        around = with_new_corners(&around, corners, &tri, &before, steps);
        before = tri;
    }
    around
}

// Returns the extremes with those corners of a triangle that the one before does not have. It takes at most 12 steps.
fn with_new_corners<L: Ledger>(
    around: &Extremes,
    corners: &[Pt],
    tri: &Tri,
    before: &Tri,
    steps: &mut Steps<L>,
) -> Extremes
    ensures { steps.new ≤ steps.old + 12 }
{
    let mut all = *around;
    if !has_corner(before, tri.a) {
        all = with_corner(&all, corners, tri.a, steps);
    }
    if !has_corner(before, tri.b) {
        all = with_corner(&all, corners, tri.b, steps);
    }
    if !has_corner(before, tri.c) {
        all = with_corner(&all, corners, tri.c, steps);
    }
    all
}

// Returns whether a triangle has a corner.
fn has_corner(tri: &Tri, v: u32) -> bool {
    tri.a == v || tri.b == v || tri.c == v
}

// Returns the extremes with one vertex more. It takes at most 4 steps.
fn with_corner<L: Ledger>(
    around: &Extremes,
    corners: &[Pt],
    v: u32,
    steps: &mut Steps<L>,
) -> Extremes
    ensures { steps.new ≤ steps.old + 4 }
{
    around.joined(&Extremes::of(v), corners, steps)
}

// Returns whether the boxes of all nodes are named by some of the first `n` vertices.
fn are_named_below(nodes: &[Node], n: usize) -> bool
    ensures { IsTrue result → All (IsNamedBelow n) nodes.now }
{
    for i in 0..nodes.len() {
        if !nodes[i].around.are_below(n) {
            return false;
        }
    }
    true
}
