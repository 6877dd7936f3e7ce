// Laws of rings, each as the contract of a call that does nothing when it runs.
ghost use Rattle.rings.specs.Full.{OneFullLaw};
ghost use Rattle.rings.specs.Visible.{ViewLaw};

/// The law of the view: a point of a simple ring sees another exactly if that one is in a closed triangle between it and a part of
/// an edge that it sees.
pub fn seen_in_parts()
    ensures { ViewLaw }
{}

/// A chain with all vertices that it touches is one list.
pub fn one_full()
    ensures { OneFullLaw }
{}
