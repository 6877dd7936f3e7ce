// The causes of refusals, by the order in which they are looked for, and numbers at both sides of the limits.
pub(super) const CAUSES: &str = "\
odd count
polygon,0,0,1
polygon,x
polygon,0,0,0,0,0,0,0
=
bad,fields
bad,fields
bad,fields

few
polygon
polygon,0,0,1,1
polygon,x,y
=
bad,few
bad,few
bad,few

no numbers
polygon,+,0,0,0,0,0
polygon,0,-,0,0,0,0
polygon,0,0,,0,0,0
polygon,0,0,0,+-1,0,0
polygon,0,0,0,0,1 2,0
polygon,0,0,0,0,0,1.0
=
bad,number,1
bad,number,2
bad,number,3
bad,number,4
bad,number,5
bad,number,6

number before range
polygon,0,0,x,0,0,9999999
polygon,9999999,0,0,0,0,x
=
bad,number,3
bad,number,6

limits
polygon,1000000,-1000000,0,0,0,0
polygon,0,0,1000000,0,0,1000001
polygon,0,-1000001,0,0,0,1000001
=
polygon 1000000,-1000000 0,0 0,0
bad,range,6
bad,range,2

past 64 bits
polygon,0,0,0,18446744073709551616,0,0
=
bad,range,4";
