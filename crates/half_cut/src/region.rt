ghost use Rattle.std.specs.Prelude.{◌≡◌, ◌+◌, ◌%◌, ◌<◌, ◌≤◌, ◌^◌, IfOk, length};
ghost use Rattle.plane.specs.Convex.{corner};
ghost use Rattle.plane.specs.Point.{IsInLimit, whole};
ghost use Rattle.plane.specs.Region.{AreCorners, IsCornerList};
ghost use Rattle.plane.specs.Square.{IsInSquare};
ghost use Rattle.half_cut.specs.Outline.{line_at};

use exact_plane::{Hom, Memory, Pt};
use plane::MAX_COORDINATE;
use std::alloc::Global;
use std::collections::VecDeque;
use std::marker::Model;

// A line through two whole-number points.
pub(crate) type Line = (Pt, Pt);

/// A closed convex region: nothing, a point, a segment, or a strictly convex polygon. Its corners run counterclockwise from the
/// lexicographically least one; with each it keeps the line of the side to the next.
#[derive(Drop)]
pub struct Region {
    // They stand as the last cut left them: both ends of its side at the ends.
    pub(crate) corners: VecDeque<Hom>,
    pub(crate) lines: VecDeque<Line>,
    // The place of the least corner.
    pub(crate) least: usize,
    // Where the next cut looks first, or past the end: beside the last cut, or the corner that was farthest to the right of it.
    pub(crate) near: usize,
}

impl Model for Region {
    ghost use Rattle.half_cut.specs.Outline.{IsRegionKept, Outline, from_place};

    ghost Value = { Outline };

    ghost view = { λ region. record { corners = from_place region.least region.corners.items; lines = from_place region.least region.lines.items } };

    ghost invariant = { λ region. IsRegionKept region.corners.items region.lines.items region.least };
}

const FAR: i64 = MAX_COORDINATE as i64;

impl Region {
    /// The square of all points whose coordinates are within the limit.
    pub fn all(alloc: Global) -> Result<Region, Memory>
        ensures square { IfOk result (λ region. IsCornerList IsInSquare region.corners) }
        ensures four { IfOk result (λ region. length region.corners ≡ 4) }
    {
        let (a, b) = (corner_at(-FAR, -FAR), corner_at(FAR, -FAR));
        let (c, d) = (corner_at(FAR, FAR), corner_at(-FAR, FAR));
        let corners = Vec::from_array(alloc, [a, b, c, d])?;
        let (a, b) = (point_at(-FAR, -FAR), point_at(FAR, -FAR));
        let (c, d) = (point_at(FAR, FAR), point_at(-FAR, FAR));
        let lines = Vec::from_array(alloc, [(a, b), (b, c), (c, d), (d, a)])?;
        Ok(Region {
            corners: VecDeque::from_vec(corners),
            lines: VecDeque::from_vec(lines),
            least: 0,
            near: 0,
        })
    }

    /// How many corners there are.
    pub fn count(&self) -> u32
        ensures number { result ≡ length self.now.corners }

        // What holds of every region.
        ensures corners { AreCorners self.now.corners }
        ensures few { length self.now.corners ≤ 2 ^ 31 }
    {
        self.corners.len() as u32
    }

    /// Corner `i`.
    pub fn corner(&self, i: u32) -> Hom
        requires { i < length self.now.corners }
        ensures { result ≡ corner self.now.corners i }
    {
        self.corners[(self.least + i as usize) % self.corners.len()]
    }
}

// The line of the side from corner `i` on.
pub(crate) fn side(lines: &VecDeque<Line>, i: usize) -> &Line
    requires { i < length lines.now.items }
    ensures { result.now ≡ line_at lines.now.items i }
{
    &lines[i]
}

// The place of item `i`, where items are counted round.
pub(crate) fn round<T>(items: &VecDeque<T>, i: usize) -> usize
    requires once { i < length items.now.items + length items.now.items }
    ensures { result ≡ i % length items.now.items }
{
    let count = items.len();
    if i < count { i } else { i - count }
}

// The corner with these coordinates.
fn corner_at(x: i64, y: i64) -> Hom
    requires x { IsInLimit x }
    requires y { IsInLimit y }
    ensures { result ≡ whole (record { x = x; y = y }) }
{
    Hom::of_whole(x, y).unwrap()
}

// The point with these coordinates.
fn point_at(x: i64, y: i64) -> Pt
    requires x { IsInLimit x }
    requires y { IsInLimit y }
    ensures { result ≡ record { x = x; y = y } }
{
    Pt::of(x, y).unwrap()
}
