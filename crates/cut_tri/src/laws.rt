// Laws of the triangulation, each as the contract of a call that does nothing when it runs.
ghost use Rattle.cut_tri.specs.Cut.{SomeCutTriangulationLaw};

/// A simple polygon has a cut triangulation that fits it.
pub fn some_cut_triangulation()
    ensures { SomeCutTriangulationLaw }
{}
