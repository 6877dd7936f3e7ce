ghost use Rattle.std.specs.Prelude.{◌≡◌, ◌+◌, ◌<◌, ◌≤◌, OnOk, length};
ghost use Rattle.plane.specs.Point.{whole};
ghost use Rattle.meshes.specs.Cone.{IsPartEnd};
ghost use Rattle.see_cone.specs.Told.{AreFirstParts, IsConeTold};

use crate::cone::{Cone, narrowed};
use exact_plane::{Hom, Memory, Pt, Steps};
use ring_check::Ring;
use std::marker::Model;
use std::sync::ledger::Ledger;

/// The part of an edge that a point sees: the points from `first` to `last`, in the direction of the edge. They may be one
/// point.
#[derive(Clone, Copy)]
pub struct Part {
    /// The number of the edge.
    pub edge: u32,
    pub first: Hom,
    pub last: Hom,
}

impl Model for Part {
    ghost use Rattle.rings.specs.Visible.{Part};

    ghost Value = { Part };

    ghost view = { λ part. record { edge = part.edge; first = part.first; last = part.last } };

    ghost inverse = { λ part. record { edge = part.edge; first = part.first; last = part.last } };
}

// Appends the part of edge `i` that `q` sees, if there is one, to those of the edges before it. It takes at most 9 steps.
pub(crate) fn push_part<L: Ledger>(
    parts: &mut Vec<Part>,
    ring: &Ring,
    i: u32,
    cone: &Option<Cone>,
    q: &Pt,
    steps: &mut Steps<L>,
) -> Result<(), Memory>
    requires edge { i < length ring.now.corners }
    requires told { IsConeTold ring.now.corners q.now i cone.now }
    requires before { AreFirstParts ring.now.corners (whole q.now) i parts.old.items }
    ensures parts { OnOk result (AreFirstParts ring.now.corners (whole q.now) (i + 1) parts.new.items) }
    ensures steps { steps.new ≤ steps.old + 9 }
{
    let (r, l) = (ring.corner(i), ring.next(i));
    match narrowed(q, cone, &l, &r, steps) {
        Some(cone) => Ok(parts.push(part_through(i, &r, &l, q, &cone, steps))?),
        None => Ok(()),
    }
}

// The part of the edge from `r` to `l` that a narrowed cone leaves. It takes at most 4 steps.
fn part_through<L: Ledger>(
    edge: u32,
    r: &Pt,
    l: &Pt,
    q: &Pt,
    cone: &Cone,
    steps: &mut Steps<L>,
) -> Part
    ensures edge { result.edge ≡ edge }
    ensures first { IsPartEnd q.now cone.now.right r.now l.now r.now result.first }
    ensures last { IsPartEnd q.now cone.now.left r.now l.now l.now result.last }
    ensures steps { steps.new ≤ steps.old + 4 }
{
    Part {
        edge,
        first: part_end(q, &cone.right, r, l, r, steps),
        last: part_end(q, &cone.left, r, l, l, steps),
    }
}

// Where the ray from `q` to `c` meets the line of the side from `r` to `l`, and the end `e` of the side where they are
// parallel. It takes at most 2 steps.
fn part_end<L: Ledger>(q: &Pt, c: &Pt, r: &Pt, l: &Pt, e: &Pt, steps: &mut Steps<L>) -> Hom
    ensures end { IsPartEnd q.now c.now r.now l.now e.now result }
    ensures steps { steps.new ≤ steps.old + 2 }
{
    match Hom::meet(q, c, r, l, steps) {
        Some(point) => point,
        None => Hom::of_pt(e, steps),
    }
}
