// Paths with all vertices that they touch. In each row a name, a polygon, and the path between the first point and the last.
pub(crate) const FULL_CHAINS: &str = "an L, past its reflex vertex: L: 4,0 2,2 0,4
an L, the other way: L: 0,4 2,2 4,0
an L read clockwise: L clockwise: 4,0 2,2 0,4
a Z, along two edges and between: Z: 0,1 1,1 2,1 4,1
to a vertex past another: Z: 0,1 1,1 2,1
two in one segment, one on each side: gate: 1,2 3,2 6,2 8,2
and back: gate: 8,2 6,2 3,2 1,2
from one to the other: gate: 3,2 6,2
inside an edge with flat vertices: flat: 1,0 2,0 4,0 5,0
from vertex to vertex along flat ones: flat: 6,0 4,0 2,0 0,0
start is goal, inside: flat: 1,1
start is goal, a vertex: flat: 2,0
no vertex between: flat: 1,1 5,3
a bend and a touch before it: bend: 0,8 2,6 4,4 8,4 12,8
the same, read clockwise: bend clockwise: 12,8 8,4 4,4 2,6 0,8
touches in each of three segments: three: 0,8 2,6 4,4 6,4 8,4 10,6 12,8
three tips in a row: tips: 0,2 2,2 4,2 6,2 8,2
along a slope, below, above and below: slant: 0,0 3,2 6,4 9,6 12,8
a tip with many diagonals: fan: 1,2 5,2 9,2
between the farthest vertices: wide: -8388607,-8388607 0,-8388607 8388607,-8388607";
