// Which lists are polygons, where points are, and which lists of points are taut.
#[rattlefmt::skip]
pub(crate) const PLACES: &str = "
# an L is accepted
polygon,0,0,4,0,4,2,2,2,2,4,0,4
=
polygon,6

# an empty script
=

# two edges cross
polygon,0,0,4,4,4,0,0,4
=
bad,clash,0,2

# a vertex on an edge
polygon,0,0,4,0,4,4,2,0
=
bad,clash,0,2

# a flat vertex
polygon,0,0,2,0,4,0,0,4
=
polygon,4

# the limit of coordinates
polygon,0,0,1000000,0,0,1000001
polygon,0,0,1000000,0,0,1000000
=
bad,range,6
polygon,3

# lists with a bend at a corner, and with a straight vertex
polygon,0,0,4,0,4,2,2,2,2,4,0,4
check,4,1,2,2,1,4
check,4,0,2,2,0,4
=
polygon,6
taut
not,straight,1

# places in an L
polygon,0,0,4,0,4,2,2,2,2,4,0,4
inside,1,1
inside,4,1
inside,2,2
inside,3,3
inside,1,2
=
polygon,6
inside
edge
edge
outside
inside

# lists that break one rule each, and a point alone
polygon,0,0,4,0,4,2,2,2,2,4,0,4
check,4,1,1,4
check,4,1,4,1
check,0,0,1,1,2,2
check,4,2,2,2,0,0
check,3,3
check,1,1
=
polygon,6
not,leaves,0
not,repeat,0
not,not_reflex,1
not,wrong_side,1
not,leaves,0
taut

# a path in a comb, without each of its bends, with each point but the last twice, and with each point but one again in the place of the next
polygon,0,0,4,6,8,0,12,6,16,0,20,6,24,0,24,2,20,8,16,2,12,8,8,2,4,8,0,2
check,0,1,4,6,8,2,12,6,16,2,20,6,24,1
check,0,1,8,2,12,6,16,2,20,6,24,1
check,0,1,4,6,12,6,16,2,20,6,24,1
check,0,1,4,6,8,2,16,2,20,6,24,1
check,0,1,4,6,8,2,12,6,20,6,24,1
check,0,1,4,6,8,2,12,6,16,2,24,1
check,0,1,0,1,4,6,8,2,12,6,16,2,20,6,24,1
check,0,1,4,6,4,6,8,2,12,6,16,2,20,6,24,1
check,0,1,4,6,8,2,8,2,12,6,16,2,20,6,24,1
check,0,1,4,6,8,2,12,6,12,6,16,2,20,6,24,1
check,0,1,4,6,8,2,12,6,16,2,16,2,20,6,24,1
check,0,1,4,6,8,2,12,6,16,2,20,6,20,6,24,1
check,0,1,4,6,0,1,8,2,12,6,16,2,20,6,24,1
check,0,1,4,6,8,2,4,6,12,6,16,2,20,6,24,1
check,0,1,4,6,8,2,12,6,8,2,16,2,20,6,24,1
check,0,1,4,6,8,2,12,6,16,2,12,6,20,6,24,1
check,0,1,4,6,8,2,12,6,16,2,20,6,16,2,24,1
check,0,1,4,6,8,2,12,6,16,2,20,6,24,1,20,6
=
polygon,14
taut
not,leaves,0
not,leaves,1
not,leaves,2
not,leaves,3
not,leaves,4
not,repeat,0
not,repeat,1
not,repeat,2
not,repeat,3
not,repeat,4
not,repeat,5
not,straight,1
not,straight,2
not,straight,3
not,straight,4
not,straight,5
not,not_reflex,6

# a refused polygon leaves the one before
polygon,0,0,4,0,4,2,2,2,2,4,0,4
polygon,0,0,4,4,4,0,0,4
inside,1,1
=
polygon,6
bad,clash,0,2
inside

# the same vertex again
polygon,0,0,0,0,4,0,0,4
polygon,1,1,1,1,1,1
=
bad,clash,0,1
bad,clash,0,1

# blanks and signs
 polygon ,+0,00,4, 0,\t4,4\t=
polygon,3

# a refusal keeps what follows
polygon,0,0,4,4,4,0,0,4
polygon,0,0,4,0,0,4
=
bad,clash,0,2
polygon,3

# places in an L that runs clockwise
polygon,0,4,2,4,2,2,4,2,4,0,0,0
inside,1,1
inside,4,1
inside,2,2
inside,3,3
inside,1,2
=
polygon,6
inside
edge
edge
outside
inside

# lists to check in an L that runs clockwise
polygon,0,4,2,4,2,2,4,2,4,0,0,0
check,4,1,2,2,1,4
check,4,0,2,2,0,4
check,4,1,1,4
check,0,0,1,1,2,2
check,4,2,2,2,0,0
=
polygon,6
taut
not,straight,1
not,leaves,0
not,not_reflex,1
not,wrong_side,1
";
