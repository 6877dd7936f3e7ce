// What a point sees, what all points see, hulls of points and the order round them, and guards.
#[rattlefmt::skip]
pub(crate) const VIEWS: &str = "
# a view from a side of an L
polygon,0,0,5,0,5,2,3,2,3,5,0,5
see,5,1
=
polygon,6
see,5
part,0,0,0,5,0
part,1,5,0,5,2
part,2,5,2,3,2
part,3,3,2,3,2
part,5,0,7/2,0,0

# kernels of an L, of a Z and of a U
polygon,0,0,4,0,4,2,2,2,2,4,0,4
kernel
polygon,0,0,2,0,2,1,4,1,4,2,1,2,1,1,0,1
kernel
polygon,0,0,6,0,6,4,4,4,4,2,2,2,2,4,0,4
kernel
=
polygon,6
kernel,4
corner,0,0
corner,2,0
corner,2,2
corner,0,2
polygon,8
kernel,2
corner,1,1
corner,2,1
polygon,8
kernel,0

# a hull with a side round a corner
polygon,0,0,4,0,4,2,2,2,2,4,0,4
hull,4,2,2,4,1,2
=
polygon,6
hull,3
side,0,1,3,4,2,2,2,2,4
side,1,2,2,2,4,1,2
side,2,0,2,1,2,4,2

# a view along two edges of a Z
polygon,0,0,2,0,2,1,4,1,4,2,1,2,1,1,0,1
see,0,1
=
polygon,8
see,7
part,0,0,0,2,0
part,1,2,0,2,1
part,2,2,1,4,1
part,3,4,1,4,1
part,5,1,1,1,1
part,6,1,1,0,1
part,7,0,1,0,0

# a kernel with corners inside edges
polygon,0,0,6,0,3,1,0,5
kernel
=
polygon,4
kernel,4
corner,0,0
corner,15/4,0
corner,3,1
corner,0,2

# hulls of two points, of points on one line and of one point
polygon,0,0,4,0,4,2,2,2,2,4,0,4
hull,4,2,2,4
hull,0,0,1,1,2,2
hull,1,1,1,1
=
polygon,6
hull,2
side,0,1,3,4,2,2,2,2,4
side,1,0,3,2,4,2,2,4,2
hull,2
side,0,2,2,0,0,2,2
side,2,0,2,2,2,0,0
hull,0

# a view in an L that runs clockwise
polygon,0,5,3,5,3,2,5,2,5,0,0,0
see,5,1
=
polygon,6
see,5
part,1,3,2,3,2
part,2,3,2,5,2
part,3,5,2,5,0
part,4,5,0,0,0
part,5,0,0,0,7/2

# a point that is given again
polygon,0,4,2,4,2,2,4,2,4,0,0,0
hull,4,2,2,4,4,2,1,2,2,4
=
polygon,6
hull,3
side,0,1,3,4,2,2,2,2,4
side,1,3,2,2,4,1,2
side,3,0,2,1,2,4,2

# what a corner of an L sees
polygon,0,0,4,0,4,2,2,2,2,4,0,4
see,1,1
=
polygon,6
see,6
part,0,0,0,4,0
part,1,4,0,4,2
part,2,4,2,2,2
part,3,2,2,2,4
part,4,2,4,0,4
part,5,0,4,0,0

# views beyond a side of a dart, at its last end and at its first
polygon,0,0,1,1,2,0,1,2
see,0,0
see,2,0
=
polygon,4
see,4
part,0,0,0,1,1
part,1,1,1,1,1
part,2,4/3,4/3,1,2
part,3,1,2,0,0
see,4
part,0,1,1,1,1
part,1,1,1,2,0
part,2,2,0,1,2
part,3,1,2,2/3,4/3

# a view from a side to a triangle that has the point
polygon,0,0,1,0,0,2,0,1
see,0,1
=
polygon,4
see,4
part,0,0,0,1,0
part,1,1,0,0,2
part,2,0,2,0,1
part,3,0,1,0,0

# views in a hook: an edge that is hidden, one ray along an edge and on
polygon,0,0,1,0,1,1,2,0,1,2
see,2,0
see,1,0
=
polygon,5
see,4
part,1,1,1,1,1
part,2,1,1,2,0
part,3,2,0,1,2
part,4,1,2,2/3,4/3
see,5
part,0,0,0,1,0
part,1,1,0,1,1
part,2,1,1,1,1
part,3,1,2,1,2
part,4,1,2,0,0

# a view from a tooth of a comb
polygon,0,0,10,0,10,6,9,1,8,6,7,1,6,6,5,1,4,6,3,1,2,6,1,1,0,6
see,6,6
=
polygon,13
see,5
part,0,24/5,0,36/5,0
part,4,7,1,7,1
part,5,7,1,6,6
part,6,6,6,5,1
part,7,5,1,5,1

# rounds of points in an L
polygon,0,0,4,0,4,2,2,2,2,4,0,4
round,4,2,2,4,0,0,1,1
round,4,2,2,4
round,1,1
round,3,3
=
polygon,6
round,3,0,1,2
round,2,0,1
round,0
bad,outside,1

# rounds in an L that runs clockwise, with points that are given again
polygon,0,4,2,4,2,2,4,2,4,0,0,0
round,4,2,2,4,4,2,1,2
round,1,1,1,1
round,1,2,1,2,2,4,4,2,2,4
=
polygon,6
round,3,0,1,3
round,0
round,3,0,3,2

# a round that is not in the order of the points
polygon,0,0,400,0,400,300,280,300,280,160,120,160,120,300,0,300
round,60,40,200,80,340,40,360,260,320,220,200,140,80,200,40,260
round,40,260,60,40,320,220,340,40,360,260
=
polygon,8
round,5,0,2,3,4,7
round,5,0,1,3,4,2

# guards of an L, of a U and of two rooms
polygon,0,0,4,0,4,2,2,2,2,4,0,4
guards
polygon,0,0,6,0,6,4,4,4,4,2,2,2,2,4,0,4
guards
polygon,0,0,5000,0,5000,2000,5200,2000,5200,0,9000,0,9000,4000,5200,4000,5200,2900,5000,2900,5000,4000,0,4000
guards
=
polygon,6
guards,1,3
polygon,8
guards,2,1,7
polygon,12
guards,3,1,5,9

# guards of an L that runs clockwise
polygon,0,4,2,4,2,2,4,2,4,0,0,0
guards
=
polygon,6
guards,1,2
";
