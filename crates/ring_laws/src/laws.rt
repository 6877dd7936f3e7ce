// Laws of simple rings, each as the contract of a call that does nothing when it runs.
ghost use Rattle.ring_laws.specs.Laws.{CutLaw, CutRuleLaw, KernelLaw, SimpleRingLaw, SomeCutLaw};

/// The theorem of simple rings: at its least vertex a simple ring turns left, its area is positive and its winding numbers
/// are 0 and 1, or it turns right, its area is negative and they are 0 and -1.
pub fn simple_ring()
    ensures { SimpleRingLaw }
{}

/// The cut rule: at the least vertex of a simple ring of more than three points, the segment between its neighbours, or
/// from it to a farthest vertex in their triangle, is a diagonal; and there is such a segment.
pub fn cut_rule()
    ensures some { SomeCutLaw }
    ensures diagonal { CutRuleLaw }
{}

/// The cut law: a diagonal cuts a simple ring into two simple pieces, which cover it and share only the diagonal.
pub fn diagonal_cut()
    ensures { CutLaw }
{}

/// The kernel law: the kernel of a simple ring that runs counterclockwise is the intersection of the closed half-planes to the
/// left of its edges.
pub fn kernel_by_half_planes()
    ensures { KernelLaw }
{}
