// Laws of hulls, each as the contract of a call that does nothing when it runs.
ghost use Rattle.hulls.specs.Laws.{ExchangeLaw, JoinedPathsLaw, NoThreeJoinedLaw, OneSideLaw, OneWayLaw, OrderLaw, OuterPairLaw, PathsLaw};
ghost use Rattle.hulls.specs.Laws.{SameSideLaw, StepsLaw, ThirdLaw};
ghost use Rattle.hulls.specs.Round.{RoundLaw};

/// Where three points always turn round each other in one way, and seen from each end of a side the others are in one order, the
/// sides from a start close to one round, which has every side.
pub fn round_closes()
    ensures { RoundLaw }
{}

/// A point is on the path between two others exactly if the first steps from it to them are joined over it.
pub fn joined_paths()
    ensures { JoinedPathsLaw }
{}

/// In a simple ring two points that are joined with a third are not on two sides of it.
pub fn one_side()
    ensures { OneSideLaw }
{}

/// In a simple ring no three points are joined two by two.
pub fn no_three_joined()
    ensures { NoThreeJoinedLaw }
{}

/// A point that is joined with neither of two joined ones is on one side of the way between them.
pub fn same_side()
    ensures { SameSideLaw }
{}

/// Seen from one point, of two others the second is to the left of the first exactly if the first is to the right of the second, and
/// never to both sides.
pub fn exchange()
    ensures { ExchangeLaw }
{}

/// Of three points of a simple ring of which none is on the path between the two others, seen from one, one of the others is to the left
/// of the other.
pub fn one_way()
    ensures { OneWayLaw }
{}

/// In a simple ring, seen from one point, "to the left of" is one order of points to which the paths start along one ray or to the right
/// of it.
pub fn one_order()
    ensures { OrderLaw }
{}

/// Three points of a simple ring of which none is on the path between the two others turn to one side seen from the first and from the
/// third.
pub fn from_third()
    ensures { ThirdLaw }
{}

/// In a simple ring there is a path between each two points.
pub fn paths()
    ensures { PathsLaw }
{}

/// Seen from a point of a simple ring each step past no vertex that the point is not on goes away or towards it, or the paths from it
/// come to both ends from one side.
pub fn steps()
    ensures { StepsLaw }
{}

/// Two or more points of a simple ring have a pair, neither of them on a path between two others, that has all others that are on none
/// to the left.
pub fn outer_pair()
    ensures { OuterPairLaw }
{}
