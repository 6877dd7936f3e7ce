// Triangles of monotone pieces.
ghost use Rattle.std.specs.List.{All, range_with_len};
ghost use Rattle.std.specs.Prelude.{◌≡◌, ◌<◌, IfOk, length, map};
ghost use Rattle.rings.specs.Ring.{vertex};
ghost use Rattle.exact_plane.specs.Spot.{IsNamed, point_named};
ghost use Rattle.polygon_tests.specs.Pieces.{IsPieceRow};

use crate::polygons::area_of;
use crate::ring_lists::{At, points_of};
use exact_plane::{Direction, Memory, Pt, Spot, Steps, Turns, order, turn};
use meshes::Tri;
use mono_fill::fill;
use ring_check::Ring;
use std::alloc::Global;
use std::cmp::Ordering;
use std::process::Abort;
use std::sync::ledger::Ledger;

// Corners to be asked about, and a point that is the start and the goal.
#[derive(Drop)]
struct Corners<'a> {
    points: &'a [Pt],
    first: Pt,
}

impl<'a> Corners<'a> {
    fn point(&self, spot: Spot) -> Pt
        requires { IsNamed self.now.points.now spot }
        ensures { result ≡ point_named self.now.points.now self.now.first self.now.first spot }
    {
        match spot {
            Spot::Corner(i) => self.points[i as usize],
            _ => self.first,
        }
    }
}

impl<'a> Turns for Corners<'a> {
    ghost corners = { λ board. board.points.now };

    ghost start = { λ board. board.first };

    ghost goal = { λ board. board.first };

    fn turn<L: Ledger>(&self, a: Spot, b: Spot, c: Spot, steps: &mut Steps<L>) -> Direction {
        turn(&self.point(a), &self.point(b), &self.point(c), steps)
    }

    fn same<L: Ledger>(&self, a: Spot, b: Spot, steps: &mut Steps<L>) -> bool {
        order(&self.point(a), &self.point(b), steps) == Ordering::Equal
    }
}

#[rattlefmt::skip]
pub(crate) fn monotone_pieces_are_filled<L: Ledger, R: Abort>(rt: &R, alloc: Global, steps: &mut Steps<L>) -> Result<(), Memory> {
    has_triangles(rt, alloc, "a triangle", &[(0, 0), (2, -1), (4, 3)], &[0, 1, 2], 10, steps)?;
    has_triangles(rt, alloc, "a flat lower chain", &[(0, 0), (1, 0), (2, 0), (3, 4), (4, 0)], &[0, 1, 2, 4, 3], 16, steps)?;
    has_triangles(rt, alloc, "a flat upper chain", &[(0, 0), (1, -4), (2, 0), (3, 0), (4, 0)], &[0, 1, 4, 3, 2], 16, steps)?;
    has_triangles(rt, alloc, "all turns inward below", &[(0, 0), (1, -3), (2, -4), (3, -3), (4, 0)], &[0, 1, 2, 3, 4], 20, steps)?;
    has_triangles(rt, alloc, "all turns inward above", &[(0, 0), (1, 3), (2, 4), (3, 3), (4, 0)], &[4, 3, 2, 1, 0], 20, steps)?;
    has_triangles(rt, alloc, "all turns outward below", &[(0, 0), (1, 3), (2, 4), (3, 3), (4, 0), (5, 30)], &[0, 1, 2, 3, 4, 5], 100, steps)?;
    has_triangles(rt, alloc, "from side to side", &[(0, 0), (1, -1), (2, 2), (3, 0), (4, 1), (5, -2), (6, 0)], &[0, 1, 3, 5, 6, 4, 2], 21, steps)?;
    has_triangles(rt, alloc, "from another vertex on", &[(0, 0), (1, -1), (2, 2), (3, 0), (4, 1), (5, -2), (6, 0)], &[5, 6, 4, 2, 0, 1, 3], 21, steps)?;
    has_triangles(rt, alloc, "flat sides all round", &[(0, 0), (0, 1), (0, 2), (1, 0), (1, 2), (2, 0), (2, 1), (2, 2)], &[0, 3, 5, 6, 7, 4, 2, 1], 8, steps)?;
    has_triangles(rt, alloc, "some corners of many", &[(-9, 5), (0, 0), (0, 3), (1, 9), (3, 1), (4, 4), (5, 0), (7, 7)], &[5, 2, 4], 11, steps)
}

// The piece of these points is filled by triangles that have twice this area together.
fn has_triangles<L: Ledger, R: Abort>(
    rt: &R,
    alloc: Global,
    name: &str,
    list: &[At],
    piece: &[u32],
    area: i64,
    steps: &mut Steps<L>,
) -> Result<(), Memory>
    requires row { IsPieceRow list.now piece.now }
{
    let tris = filled(rt, alloc, list, piece, steps)?;
    assert!(rt; tris.len() + 3 == piece.len() + 1, "triangles of {name}");
    assert!(rt; area_of(rt, list, &tris) == area, "area of {name}");
    Ok(())
}

fn filled<L: Ledger, R: Abort>(
    rt: &R,
    alloc: Global,
    list: &[At],
    piece: &[u32],
    steps: &mut Steps<L>,
) -> Result<Vec<Tri>, Memory>
    requires row { IsPieceRow list.now piece.now }
{
    let points = points_of(alloc, list).expect(rt, "points");
    assert!(rt; points.len() < 100);
    let rank = numbers(alloc, points.len() as u32)?;
    let outline = outline_of(alloc, &points, piece)?;
    let ring = Ring::of(outline, steps).ok().expect(rt, "a ring");
    assert!(rt; !ring.is_turned());
    let _ring_is_simple = ring.len();
    let board = Corners {
        points: &points,
        first: Pt::of(0, 0).expect(rt, "within the limit"),
    };
    let mut out = Vec::new(alloc);
    fill(alloc, &board, &rank, piece, &mut out, steps)?;
    Ok(out)
}

// The points of a piece.
fn outline_of(alloc: Global, points: &[Pt], piece: &[u32]) -> Result<Vec<Pt>, Memory>
    requires { All (λ i. i < length points.now) piece.now }
    ensures { IfOk result (λ outline. outline.items ≡ map (λ i. vertex points.now i) piece.now) }
{
    let mut outline = Vec::new(alloc);
    for i in piece {
        outline.push(point_at(points, *i))?;
    }
    Ok(outline)
}

fn point_at(points: &[Pt], i: u32) -> Pt
    requires { i < length points.now }
    ensures { result ≡ vertex points.now i }
{
    points[i as usize]
}

// The first numbers from 0 on, so many.
fn numbers(alloc: Global, count: u32) -> Result<Vec<u32>, Memory>
    ensures { IfOk result (λ all. all.items ≡ range_with_len 0 count) }
{
    let mut all = Vec::new(alloc);
    for i in 0..count {
        all.push(i)?;
    }
    Ok(all)
}
