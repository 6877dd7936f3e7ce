// Laws of lists of triangles that fit a polygon, each as the contract of a call that does nothing when it runs.
ghost use Rattle.meshes.specs.Boundary.{BoundaryLaw, SidesCancelLaw};
ghost use Rattle.meshes.specs.Laws.{EarLaw, LeafOffWalkLaw, LeavesLaw, PieceSleeveLaw, SeparationLaw, SleeveLaw, TriangulationLaw};

/// The separation law: a point in a triangle of a walk and in a later one is on each side that the walk crosses between them.
pub fn separation()
    ensures { SeparationLaw }
{}

/// The sleeve law: along a walk over triangles, a point of the first sees a point of the last exactly if the segment between
/// them meets each side that the walk crosses.
pub fn sight_in_sleeve()
    ensures { SleeveLaw }
{}

/// The sleeve law for the triangles that fit a piece of a polygon.
pub fn sight_in_piece()
    ensures { PieceSleeveLaw }
{}

/// The law of leaves: two triangles or more that are a tree have two leaves.
pub fn leaves()
    ensures { LeavesLaw }
{}

/// Where some triangle is not on a walk, some leaf is not on it.
pub fn leaf_off_walk()
    ensures { LeafOffWalkLaw }
{}

/// The law of ears: a leaf is a triangle of two consecutive edges, and the triangles without it fit the piece without its tip.
pub fn ear()
    ensures { EarLaw }
{}

/// Each simple ring that runs counterclockwise has triangles that fit it, however many vertices it has.
pub fn triangulation()
    ensures { TriangulationLaw }
{}

/// Counterclockwise triangles on the vertices of a simple piece fit it where their sides cancel to its boundary.
pub fn boundary()
    ensures fits { BoundaryLaw }
    ensures cancel { SidesCancelLaw }
{}
