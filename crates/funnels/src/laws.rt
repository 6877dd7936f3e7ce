// Laws of chains that bend round reflex vertices, each as the contract of a call that does nothing when it runs.
ghost use Rattle.funnels.specs.OneChain.{DeadEndLaw, NoClosedChainLaw, OneBentChainLaw, OneTautChainLaw};

/// The law of dead ends: a chain with bends bends only at corners of the triangles on the walk between its ends.
pub fn dead_ends()
    ensures { DeadEndLaw }
{}

/// In a simple ring two chains with bends between the same points are equal.
pub fn one_bent_chain()
    ensures { OneBentChainLaw }
{}

/// In a simple ring no chain with bends of two points or more ends where it begins.
pub fn no_closed_chain()
    ensures { NoClosedChainLaw }
{}

/// In a simple ring a taut chain is the path between its ends: there is no other.
pub fn one_taut_chain()
    ensures { OneTautChainLaw }
{}
