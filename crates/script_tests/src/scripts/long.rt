// Long scripts, in which `[part*count]` stands for a part that is repeated.
pub(super) const LONG: &str = "\
a thousand nines
polygon,0,[9*1000],0,0,0,0
=
bad,range,2

a thousand zeros
polygon,0,-[0*1000]7,0,0,0,0
=
polygon 0,-7 0,0 0,0

inside with a thousand nines
inside,[9*1000],0
=
bad,range,1

4,096 points
polygon[,5,6*4096]
=
polygon[ 5,6*4096]

4,097 points
polygon[,5,6*4097]
=
bad,many

4,097 points of no numbers
polygon[,x,y*4097]
=
bad,many

4,096 points to check
check[,5,6*4096]
=
check[ 5,6*4096]

4,097 points to check
check[,5,6*4097]
=
bad,many

64 points of a hull
hull[,5,6*64]
=
hull[ 5,6*64]

65 points of a hull
hull[,5,6*65]
=
bad,many

64 points of a round
round[,5,6*64]
=
round[ 5,6*64]

65 points of a round
round[,5,6*65]
=
bad,many

16,384 points in version 2
geo,2
polygon[,5,6*16384]
=
two
polygon[ 5,6*16384]

16,385 points in version 2
geo,2
polygon[,5,6*16385]
=
two
bad,many

16,384 points to check in version 2
geo,2
check[,5,6*16384]
=
two
check[ 5,6*16384]

16,385 points to check in version 2
geo,2
check[,5,6*16385]
=
two
bad,many

64 points of a hull in version 2
geo,2
hull[,5,6*64]
=
two
hull[ 5,6*64]

65 points of a hull in version 2
geo,2
hull[,5,6*65]
=
two
bad,many

64 points of a round in version 2
geo,2
round[,5,6*64]
=
two
round[ 5,6*64]

65 points of a round in version 2
geo,2
round[,5,6*65]
=
two
bad,many

8,195 fields
polygon,5[,x,y*4097]
=
bad,fields";
