// Laws of chains that bend round reflex vertices and of what they touch, each as the contract of a call that does nothing when it runs.
ghost use Rattle.dual_tree.specs.Laws.{FullWithoutStraightLaw, NoPointTwiceLaw};

/// In a simple ring a chain with bends comes to no point twice.
pub fn no_point_twice()
    ensures { NoPointTwiceLaw }
{}

/// A chain with bends is what is left of its full list without the inner points at which the way goes straight on.
pub fn full_without_straight()
    ensures { FullWithoutStraightLaw }
{}
