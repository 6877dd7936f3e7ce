// The records of each command of version 1, and those that it refuses.
pub(super) const COMMANDS: &str = "\
inside
inside,1,-2
inside,1
inside,1,2,3
inside,x,1
inside,1,1000001
inside
=
inside 1,-2
bad,fields
bad,fields
bad,number,1
bad,range,2
bad,fields

check
check,1,-2
check,1,2,3,4
check
check,1
check,x,1
check,1,1000001
=
check 1,-2
check 1,2 3,4
bad,few
bad,fields
bad,number,1
bad,range,2

path
path,1,-2,3,4
path,5,6,5,6
path
path,1,2,3
path,1,2,3,4,5
path,x
=
path 1,-2 3,4
path 5,6 5,6
bad,fields
bad,fields
bad,fields
bad,fields

path of no numbers
path,x,2,3,4
path,1,2,3,x
path,1000001,2,,x
=
bad,number,1
bad,number,4
bad,number,3

path past the limits
path,1000001,2,3,4
path,1,2,3,-1000001
path,1,-1000001,1000001,4
=
bad,range,1
bad,range,4
bad,range,2

path at the limits
path,-1000000,1000000,1000000,-1000000
=
path -1000000,1000000 1000000,-1000000

tree
tree,1,-2
tree,1
tree,1,2,3
tree,x,1
tree,1,1000001
tree
=
tree 1,-2
bad,fields
bad,fields
bad,number,1
bad,range,2
bad,fields

reach
reach,1,-2
reach,1
reach,1,2,3
reach,1,x
reach,1000001,1
reach
=
reach 1,-2
bad,fields
bad,fields
bad,number,2
bad,range,1
bad,fields

see
see,1,-2
see,1
see,1,2,3
see,x,1
see,1,1000001
see
=
see 1,-2
bad,fields
bad,fields
bad,number,1
bad,range,2
bad,fields

kernel
kernel
kernel,0
kernel,x
kernel,
=
kernel
bad,fields
bad,fields
bad,fields

hull
hull,1,-2
hull,1,2,3,4,1,2
hull
hull,1
hull,x,1
hull,1,1000001
=
hull 1,-2
hull 1,2 3,4 1,2
bad,few
bad,fields
bad,number,1
bad,range,2

round
round,1,-2
round,1,2,3,4,1,2
round
round,1
round,x,1
round,1,1000001
Round,1,-2
=
round 1,-2
round 1,2 3,4 1,2
bad,few
bad,fields
bad,number,1
bad,range,2
bad,word

guards
guards
guards,1
guards,x
guards,
Guards
=
guards
bad,fields
bad,fields
bad,fields
bad,word

pair
pair,0,1
pair,-1,0
pair,0,0
pair,+7,-0
pair,1000000,-1000000
=
pair 0,1
pair -1,0
pair 0,0
pair 7,0
pair 1000000,-1000000

pair of other counts
pair
pair,0
pair,0,1,2
pair,x
Pair,0,1
=
bad,fields
bad,fields
bad,fields
bad,fields
bad,word

pair of no numbers
pair,0,x
pair,,0
pair,9999999,x
=
bad,number,2
bad,number,1
bad,number,2

pair past the limits
pair,9999999,0
pair,0,-1000001
=
bad,range,1
bad,range,2

sights
sights
sights,1
sights,x
sights,
SIGHTS
=
sights
bad,fields
bad,fields
bad,fields
bad,word";
