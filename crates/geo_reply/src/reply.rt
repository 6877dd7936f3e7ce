use crate::row::Row;
use exact_plane::{Hom, Pt};
use geo_text::{Bad, Word};
use inside_test::Position;
use see_cone::Part;
use taut_check::Verdict;

/// What a command answers.
#[derive(Drop)]
pub enum Reply {
    /// The number that this word asks for: version 2, which has begun; or how many vertices the polygon has, which is accepted.
    Number(Word, u64),
    /// There is no answer, for this reason.
    Refused(Bad),
    /// Where the point lies.
    Place(Position),
    /// What is found of the list of points.
    Verdict(Verdict),
    /// What is told of a path.
    Path(Row<Pt>),
    /// What comes before each vertex.
    Tree(Row<Before>),
    /// The parts of the edges that the point sees.
    View(Row<Part>),
    /// The corners of the kernel.
    Kernel(Row<Hom>),
    /// The sides of the relative hull.
    Hull(Row<Side>),
    /// The numbers of the points that the sides of the hull join, in the order in which they follow each other.
    Round(Row<u32>),
    /// The numbers of the guards.
    Guards(Row<u32>),
    /// The pairs of vertices that see each other.
    Sights(Row<(u32, u32)>),
}

/// What comes before a vertex on its path from the source of a tree.
#[derive(Clone, Copy, Debug, PartialEq, Eq)]
pub enum Before {
    /// Nothing: the vertex is at the source.
    Nothing,
    /// The source.
    Source,
    /// The vertex with this number.
    Vertex(u32),
}

/// A side of a relative hull, from one of the points to another, by their numbers, with what is told of the path between them.
#[derive(Drop)]
pub struct Side {
    pub start: u32,
    pub end: u32,
    pub path: Row<Pt>,
}
