// Scripts whose first record asks for version 2, or nearly does.
pub(super) const VERSION_2: &str = "\
two
geo,2
=
two

blanks
 geo , 2
kernel
=
two
kernel

tabs
geo\t,\t2 
kernel
=
two
kernel

quotes
\"geo\",\"2\"
kernel
=
two
kernel

byte order mark
\u{FEFF}geo,2
kernel
=
two
kernel

limits
geo,2
polygon,0,0,8388607,0,0,8388608
polygon,0,0,8388607,0,0,8388607
=
two
bad,range,6
polygon 0,0 8388607,0 0,8388607

path at the limits
geo,2
path,-8388607,8388607,8388607,-8388607
=
two
path -8388607,8388607 8388607,-8388607

past the limits
geo,2
path,0,0,0,-8388608
inside,8388608,0
check,0,-8388608
hull,8388608,8388608
round,0,8388608
=
two
bad,range,4
bad,range,1
bad,range,2
bad,range,1
bad,range,2

one point
geo,2
tree,8388607,0
reach,0,8388607
see,-8388607,0
see,-8388608,0
=
two
tree 8388607,0
reach 0,8388607
see -8388607,0
bad,range,1

pair in version 2
geo,2
pair,8388607,-8388607
pair,8388608,0
pair,0,-8388608
guards
sights
=
two
pair 8388607,-8388607
bad,range,1
bad,range,2
guards
sights

past 64 bits
geo,2
polygon,0,0,0,18446744073709551616,0,0
=
two
bad,range,4

no number
geo,2
polygon,8388608,0,0,x,0,0
=
two
bad,number,4

again
geo,2
geo,2
inside,8388607,0
=
two
bad,word
inside 8388607,0

after a command
kernel
geo,2
inside,1000001,0
=
kernel
bad,word
bad,range,1

after a refusal
x
geo,2
inside,1000001,0
=
bad,word
bad,word
bad,range,1

after a blank
 
geo,2
inside,1000001,0
=
bad,word
bad,word
bad,range,1

another number
geo,3
inside,1000001,0
=
bad,word
bad,range,1

a leading zero
geo,02
inside,1000001,0
=
bad,word
bad,range,1

a sign
geo,+2
inside,1000001,0
=
bad,word
bad,range,1

no number at all
geo
inside,1000001,0
=
bad,word
bad,range,1

a third field
geo,2,
inside,1000001,0
=
bad,word
bad,range,1

a capital letter
Geo,2
inside,1000001,0
=
bad,word
bad,range,1";
