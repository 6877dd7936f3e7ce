// Scripts of version 2, and others that begin almost like one.
#[rattlefmt::skip]
pub(crate) const VERSIONS: &str = "
# a path and the sides of a hull name what they touch
geo,2
polygon,0,0,4,0,4,2,2,2,2,4,0,4
path,4,0,0,4
hull,4,0,0,4
=
geo,2
polygon,6
path,3,4,0,2,2,0,4
hull,2
side,0,1,3,4,0,2,2,0,4
side,1,0,3,0,4,2,2,4,0

# blanks round the word and the number
 geo , 2
polygon,0,0,2,0,2,1,4,1,4,2,1,2,1,1,0,1
path,0,1,4,1
=
geo,2
polygon,8
path,4,0,1,1,1,2,1,4,1

# a path from the source of a tree
geo,2
polygon,0,0,4,0,4,2,2,2,2,4,0,4
tree,4,0
reach,0,4
=
geo,2
polygon,6
tree,6
from,0,s
from,1,-
from,2,s
from,3,s
from,4,3
from,5,s
path,3,4,0,2,2,0,4

# the limit of coordinates
geo,2
polygon,0,0,8388607,0,0,8388608
polygon,0,0,8388607,0,0,8388607
=
geo,2
bad,range,6
polygon,3

# other numbers, and a later record
geo,3
polygon,0,0,4,0,4,2,2,2,2,4,0,4
geo,2
path,4,0,0,4
=
bad,word
polygon,6
bad,word
path,2,4,0,0,4

# asked for twice
geo,2
polygon,0,0,4,0,0,4
geo,2
inside,1,1
=
geo,2
polygon,3
bad,word
inside

# numbers that are 2 in another way
geo,02
inside,1,1000001
=
bad,word
bad,range,2

# an empty line before


geo,2
inside,1,1000001
=
geo,2
bad,no_polygon

# a refused record before
frob
geo,2
inside,1,1000001
=
bad,word
bad,word
bad,range,2

# a bend and touches, in a list that runs clockwise
geo,2
polygon,0,0,0,5,2,6,0,7,0,8,4,8,4,4,8,4,8,8,12,8,12,0
path,12,8,0,8
tree,12,8
reach,0,8
hull,12,8,0,8
=
geo,2
polygon,11
path,5,12,8,8,4,4,4,2,6,0,8
tree,11
from,0,7
from,1,6
from,2,6
from,3,2
from,4,6
from,5,6
from,6,7
from,7,s
from,8,s
from,9,-
from,10,s
path,5,12,8,8,4,4,4,2,6,0,8
hull,2
side,0,1,5,12,8,8,4,4,4,2,6,0,8
side,1,0,5,0,8,2,6,4,4,8,4,12,8

# the same in version 1
polygon,0,0,0,5,2,6,0,7,0,8,4,8,4,4,8,4,8,8,12,8,12,0
path,12,8,0,8
=
polygon,11
path,4,12,8,8,4,4,4,0,8

# a path between vertices names what it touches
geo,2
polygon,0,0,4,0,4,2,2,2,2,4,0,4
pair,1,5
pair,2,4
pair,3,3
=
geo,2
polygon,6
path,3,4,0,2,2,0,4
path,3,4,2,2,2,2,4
path,1,2,2

# paths between vertices of a list that runs clockwise
geo,2
polygon,0,0,0,5,2,6,0,7,0,8,4,8,4,4,8,4,8,8,12,8,12,0
pair,9,4
pair,4,9
pair,0,3
pair,1,3
=
geo,2
polygon,11
path,5,12,8,8,4,4,4,2,6,0,8
path,5,0,8,2,6,4,4,8,4,12,8
path,3,0,0,2,6,0,7
path,3,0,5,2,6,0,7

# numbers of vertices have the limit of coordinates
geo,2
polygon,0,0,4,0,4,2,2,2,2,4,0,4
pair,8388607,0
pair,0,-8388608
pair,-8388607,0
=
geo,2
polygon,6
bad,index,1
bad,range,2
bad,index,1

# a round, guards and pairs that see each other are told as in version 1
geo,2
polygon,0,0,4,0,4,2,2,2,2,4,0,4
round,4,2,2,4,0,0,1,1
guards
sights
=
geo,2
polygon,6
round,3,0,1,2
guards,1,3
[sights of an L]
";
