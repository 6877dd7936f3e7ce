use crate::points::Points;
use exact_plane::Pt;

/// What a record asks for.
#[derive(Drop)]
pub enum Command {
    /// Take the polygon with these vertices, 3 to `MAX_CORNERS` of them.
    Polygon(Points),
    /// Say where this point lies in the polygon.
    Inside(Pt),
    /// Judge these points, 1 to `MAX_CHAIN` of them, as a taut chain of the polygon.
    Check(Points),
    /// Give the taut chain from the first point to the second.
    Path(Pt, Pt),
    /// Give what comes before each vertex on its path from this point, and keep the point as the source of the tree.
    Tree(Pt),
    /// Give the taut chain from the source of the tree to this point.
    Reach(Pt),
    /// Give the parts of the edges that this point sees.
    See(Pt),
    /// Give the corners of the polygon's kernel.
    Kernel,
    /// Give the sides of the relative hull of these points, 1 to `MAX_HULL` of them.
    Hull(Points),
    /// Take version 2 of the script, with no polygon and no tree.
    Two,
    /// Give the numbers of these points, 1 to `MAX_HULL` of them, in the order in which the sides of their relative hull join them.
    Round(Points),
    /// Give the numbers of vertices that together see the whole polygon.
    Guards,
    /// Give the taut chain between the vertices of the polygon with these numbers.
    Pair(i64, i64),
    /// Give the pairs of vertices that see each other.
    Sights,
}

/// Why a record is refused. The refusals are looked for in this order, but `NoTree` before `Outside` and `Large` before `Index`.
/// Places are those of fields, and the first field after the command word has place 1.
#[derive(Clone, Copy, Debug, PartialEq, Eq)]
pub enum Bad {
    /// Field 0 is no command word.
    Word,
    /// The count of fields is wrong for the word; for a list of points, it is odd.
    Fields,
    /// A list has fewer points than its command takes.
    Few,
    /// A list has more points than its command takes.
    Many,
    /// The field at this place is the first that is no whole number.
    Number(u32),
    /// Every field is a number, and the one at this place is the first that passes the coordinate limit.
    Range(u32),
    /// Edges i < j of the polygon, as it was given, clash, and no lesser pair does.
    Clash(u32, u32),
    /// No polygon was accepted yet.
    NoPolygon,
    /// The command's point with this number, counted from 1, is the first that is not in the polygon.
    Outside(u32),
    /// There is a polygon, and no tree in it was accepted yet.
    NoTree,
    /// The field at this place is the first that is the number of no vertex of the polygon.
    Index(u32),
    /// The polygon has more vertices than the command takes.
    Large,
}
