// Records that are refused, each with its cause.
#[rattlefmt::skip]
pub(crate) const REFUSALS: &str = "
# causes of refusals, in turn
frob,1
polygon,0,0,1
polygon,0,0,1,1
polygon,0,0,x,0,0,9999999
kernel
path,1,x,1,1
path,1,2,3
check
inside,,1
geo,2
=
bad,word
bad,fields
bad,few
bad,number,3
bad,no_polygon
bad,number,2
bad,fields
bad,few
bad,number,1
bad,word

# refusals of hull
hull,0,0
hull
hull,0
polygon,0,0,4,0,4,2,2,2,2,4,0,4
hull
hull,1
hull,1,x
hull,1,1000001
hull,1,1,3,3,9,9
=
bad,no_polygon
bad,few
bad,fields
polygon,6
bad,few
bad,fields
bad,number,2
bad,range,2
bad,outside,2

# a polygon without points
polygon
=
bad,few

# ends of records
frob\rfrob\r
frob


frob=
bad,word
bad,word
bad,word
bad,word

# inside without a polygon
inside,1,1
=
bad,no_polygon

# refusals of inside
polygon,0,0,4,0,4,2,2,2,2,4,0,4
inside,1
inside,x,1
inside,,1
inside,1000001,0
=
polygon,6
bad,fields
bad,number,1
bad,number,1
bad,range,1

# refusals of check
check
check,1,1
polygon,0,0,4,0,4,2,2,2,2,4,0,4
check
check,1
check,1,x
check,1,1000001
=
bad,few
bad,no_polygon
polygon,6
bad,few
bad,fields
bad,number,2
bad,range,2

# refusals of path
path,0,0,1,1
path,0,0,1
path,0,0,1,x
path,0,0,1,1000001
=
bad,no_polygon
bad,fields
bad,number,4
bad,range,4

# refusals of see and kernel
see,0,0
kernel
polygon,0,0,4,0,4,2,2,2,2,4,0,4
see
see,1
see,1,x
see,1,1000001
see,3,3
kernel,1
=
bad,no_polygon
bad,no_polygon
polygon,6
bad,fields
bad,fields
bad,number,2
bad,range,2
bad,outside,1
bad,fields

# refusals of tree and reach
tree,0,0
reach,0,0
polygon,0,0,4,0,4,2,2,2,2,4,0,4
reach,9,9
tree
tree,1
tree,1,x
tree,1,1000001
tree,3,3
reach,9,9
tree,1,1
reach
reach,x,1
reach,1000001,1
reach,3,3
=
bad,no_polygon
bad,no_polygon
polygon,6
bad,no_tree
bad,fields
bad,fields
bad,number,2
bad,range,2
bad,outside,1
bad,no_tree
tree,6
from,0,s
from,1,s
from,2,s
from,3,s
from,4,s
from,5,s
bad,fields
bad,number,1
bad,range,1
bad,outside,1

# refusals of round
round,0,0
round
round,0
polygon,0,0,4,0,4,2,2,2,2,4,0,4
round
round,1
round,1,x
round,1,1000001
round,1,1,3,3,9,9
=
bad,no_polygon
bad,few
bad,fields
polygon,6
bad,few
bad,fields
bad,number,2
bad,range,2
bad,outside,2

# refusals of guards
guards
polygon,0,0,4,0,0,4
guards,1
guards
=
bad,no_polygon
polygon,3
bad,fields
guards,1,0

# refusals of sights
sights
polygon,0,0,4,0,4,2,2,2,2,4,0,4
sights,1
=
bad,no_polygon
polygon,6
bad,fields

# refusals of pair
pair,0,0
polygon,0,0,4,0,4,2,2,2,2,4,0,4
pair,0
pair,0,x
pair,9999999,0
pair,0,6
pair,-1,0
pair,6,-1
pair,+1,05
=
bad,no_polygon
polygon,6
bad,fields
bad,number,2
bad,range,1
bad,index,2
bad,index,1
bad,index,1
path,2,4,0,0,4
";
