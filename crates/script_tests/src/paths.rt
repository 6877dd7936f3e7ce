// Paths, trees of paths, and paths between vertices and the pairs of them that see each other.
#[rattlefmt::skip]
pub(crate) const PATHS: &str = "
# a path round the corner of an L
polygon,0,0,4,0,4,2,2,2,2,4,0,4
path,4,1,1,4
=
polygon,6
path,3,4,1,2,2,1,4

# a path that touches the corner and goes straight on
polygon,0,0,4,0,4,2,2,2,2,4,0,4
path,4,0,0,4
=
polygon,6
path,2,4,0,0,4

# a path along two edges of a Z
polygon,0,0,2,0,2,1,4,1,4,2,1,2,1,1,0,1
path,0,1,4,1
=
polygon,8
path,2,0,1,4,1

# a path round each corner of a Z
polygon,0,0,2,0,2,1,4,1,4,2,1,2,1,1,0,1
path,0,0,1,2
path,0,0,4,1
=
polygon,8
path,3,0,0,1,1,1,2
path,3,0,0,2,1,4,1

# a path to where it begins
polygon,0,0,4,0,4,2,2,2,2,4,0,4
path,1,1,1,1
path,2,2,2,2
=
polygon,6
path,1,1,1
path,1,2,2

# the ends of a path outside
polygon,0,0,4,0,4,2,2,2,2,4,0,4
path,3,3,1,1
path,1,1,3,3
path,3,3,3,3
=
polygon,6
bad,outside,1
bad,outside,2
bad,outside,1

# a tree, and a path from its source
polygon,0,0,4,0,4,2,2,2,2,4,0,4
reach,1,4
tree,4,1
reach,1,4
=
polygon,6
bad,no_tree
tree,6
from,0,s
from,1,s
from,2,s
from,3,s
from,4,3
from,5,3
path,3,4,1,2,2,1,4

# a path and a tree in an L that runs clockwise
polygon,0,4,2,4,2,2,4,2,4,0,0,0
path,4,1,1,4
tree,4,1
=
polygon,6
path,3,4,1,2,2,1,4
tree,6
from,0,2
from,1,2
from,2,s
from,3,s
from,4,s
from,5,s

# a tree stays where another is refused, and goes with the polygon
polygon,0,0,4,0,4,2,2,2,2,4,0,4
tree,4,1
tree,3,3
reach,1,4
polygon,0,0,4,0,4,2,2,2,2,4,0,4
reach,1,4
=
polygon,6
tree,6
from,0,s
from,1,s
from,2,s
from,3,s
from,4,3
from,5,3
bad,outside,1
path,3,4,1,2,2,1,4
polygon,6
bad,no_tree

# a tree from a vertex
polygon,0,0,4,0,4,2,2,2,2,4,0,4
tree,2,2
reach,2,2
reach,4,2
=
polygon,6
tree,6
from,0,s
from,1,s
from,2,s
from,3,-
from,4,s
from,5,s
path,1,2,2
path,2,2,2,4,2

# a path round two corners of a U
polygon,0,0,6,0,6,4,4,4,4,2,2,2,2,4,0,4
path,5,4,1,4
=
polygon,8
path,4,5,4,4,2,2,2,1,4

# blanks, signs and zeros, and no line feed at the end
polygon,0,0,4,0,4,2,2,2,2,4,0,4
 path ,+4,01,1,004=
polygon,6
path,3,4,1,2,2,1,4

# two rooms with a doorway
polygon,0,0,9000,0,9000,4000,5000,4000,5000,4200,9000,4200,9000,8000,0,8000,0,4200,3000,4200,3000,4000,0,4000
path,8000,1000,8000,7000
inside,7000,4100
kernel
=
polygon,12
path,4,8000,1000,5000,4000,5000,4200,8000,7000
outside
kernel,0

# more paths in an L
polygon,0,0,4,0,4,2,2,2,2,4,0,4
path,1,4,4,1
path,0,0,4,1
path,4,2,2,4
=
polygon,6
path,3,1,4,2,2,4,1
path,2,0,0,4,1
path,3,4,2,2,2,2,4

# more paths in an L that runs clockwise
polygon,0,4,2,4,2,2,4,2,4,0,0,0
path,0,0,0,0
path,9,9,0,0
=
polygon,6
path,1,0,0
bad,outside,1

# pairs of vertices of an L that see each other
polygon,0,0,4,0,4,2,2,2,2,4,0,4
sights
=
polygon,6
[sights of an L]

# paths between vertices of an L and of a U
polygon,0,0,4,0,4,2,2,2,2,4,0,4
pair,2,4
pair,1,5
pair,3,3
polygon,0,0,6,0,6,4,4,4,4,2,2,2,2,4,0,4
pair,2,7
=
polygon,6
path,3,4,2,2,2,2,4
path,2,4,0,0,4
path,1,2,2
polygon,8
path,4,6,4,4,2,2,2,0,4

# pairs of vertices of an L that runs clockwise
polygon,0,4,2,4,2,2,4,2,4,0,0,0
sights
pair,1,3
pair,0,4
pair,5,5
=
polygon,6
sights,12
sight,0,1
sight,0,2
sight,0,4
sight,0,5
sight,1,2
sight,1,5
sight,2,3
sight,2,4
sight,2,5
sight,3,4
sight,3,5
sight,4,5
path,3,2,4,2,2,4,2
path,2,0,4,4,0
path,1,0,0

# paths between vertices of another polygon than before
polygon,0,0,4,0,4,2,2,2,2,4,0,4
sights
polygon,0,0,4,0,0,4
pair,0,1
sights
polygon,0,0,4,0,4,2,2,2,2,4,0,4
pair,2,4
=
polygon,6
[sights of an L]
polygon,3
path,2,0,0,4,0
sights,3
sight,0,1
sight,0,2
sight,1,2
polygon,6
path,3,4,2,2,2,2,4
";
