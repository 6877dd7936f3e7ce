// Laws of the partings of vertices, each as the contract of a call that does nothing when it runs.
ghost use Rattle.guards3.specs.Guards.{OneGuardsLaw, OnePartingLaw};

/// The triangles of a mesh part the vertices into three classes in one way.
pub fn one_parting()
    ensures { OnePartingLaw }
{}

/// The triangles of a mesh, in any order, determine the guards.
pub fn one_guards()
    ensures { OneGuardsLaw }
{}
