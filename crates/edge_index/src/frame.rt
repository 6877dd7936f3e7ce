// How a list of edges is looked at, so that their ways are told apart as well where all are sheared or stretched. Only the time rests on
// it, so numbers that do not fit are cut.
ghost use Rattle.std.specs.Prelude.{◌+◌, ◌*◌, ◌<◌, ◌≤◌, ◌^◌, length, unsigned_abs};

use crate::place::Stretch;
use exact_plane::{Pt, Steps};
use std::sync::ledger::Ledger;

// A number of a frame is less than twice this.
const FINE: i64 = 1 << 12;

// The way along which edges lean as far to the left as to the right, and how far they go across it and upward, in all.
#[derive(Clone, Copy)]
pub(crate) struct Frame {
    lean: (i64, i64),
    across: i64,
    up: i64,
}

impl Frame {
    // That of these edges. It takes 256 steps an edge.
    pub fn of<L: Ledger>(points: &[Pt], steps: &mut Steps<L>) -> Frame
        ensures { steps.new ≤ steps.old + 256 * length points.now }
    {
        let lean = lean_of(points, steps);
        let (across, up) = breadths(points, lean, steps);
        Frame { lean, across, up }
    }

    // How far an edge goes across and upward, where all edges together go as far across as upward, and as far to the left as to the right.
    pub fn seen(&self, edge: &Stretch) -> (i64, i64)
        ensures across { unsigned_abs result.0 < 2 ^ 40 }
        ensures up { unsigned_abs result.1 < 2 ^ 40 }
    {
        let across = leant(self.lean, edge).saturating_mul(self.up);
        let up = edge.up.saturating_mul(self.across);
        (cut(across), cut(up))
    }
}

// How far the edges of a list go, each looked at upward, in numbers that are kept. It takes 128 steps an edge.
fn lean_of<L: Ledger>(points: &[Pt], steps: &mut Steps<L>) -> (i64, i64)
    ensures { steps.new ≤ steps.old + 128 * length points.now }
{
    let (mut across, mut up) = (0i64, 0i64);
    for e in 0..points.len() {
        let edge = Stretch::of(points, e, steps);
        if 0 < edge.up {
            across = across.saturating_add(edge.across);
            up = up.saturating_add(edge.up);
        } else if edge.up < 0 {
            across = across.saturating_sub(edge.across);
            up = up.saturating_sub(edge.up);
        }
    }
    kept(across, up)
}

// How far they go across such a way, and upward, in numbers that are kept. It takes 128 steps an edge.
fn breadths<L: Ledger>(points: &[Pt], lean: (i64, i64), steps: &mut Steps<L>) -> (i64, i64)
    ensures { steps.new ≤ steps.old + 128 * length points.now }
{
    let (mut across, mut up) = (0i64, 0i64);
    for e in 0..points.len() {
        let edge = Stretch::of(points, e, steps);
        across = across.saturating_add(leant(lean, &edge).saturating_abs());
        up = up.saturating_add(edge.up.saturating_abs());
    }
    kept(across, up)
}

// How far across a way an edge goes.
fn leant(lean: (i64, i64), edge: &Stretch) -> i64 {
    let (right, left) = (
        edge.across.saturating_mul(lean.1),
        edge.up.saturating_mul(lean.0),
    );
    right.saturating_sub(left) / FINE
}

// Two numbers, so much less that they are kept.
fn kept(a: i64, b: i64) -> (i64, i64) {
    let scale = (a.saturating_abs().max(b.saturating_abs()) / FINE).max(1);
    (a / scale, b / scale)
}

// The nearest number that is kept.
fn cut(z: i64) -> i64
    ensures { unsigned_abs result < 2 ^ 40 }
{
    z.clamp(1 - (1 << 40), (1 << 40) - 1)
}
