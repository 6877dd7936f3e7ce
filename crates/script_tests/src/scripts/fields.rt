// Words and fields as the text of a record has them: blanks, signs, quotes, byte order marks.
pub(super) const FIELDS: &str = "\
plain
polygon,0,0,4,0,0,3
=
polygon 0,0 4,0 0,3

blanks and signs
 polygon ,+4,01,\t-0 ,-5 , 007\t,+0
=
polygon 4,1 0,-5 7,0

byte order mark
\u{FEFF}kernel
=
kernel

a later mark
kernel
\u{FEFF}kernel
=
kernel
bad,word

quotes
\"kernel\"
\"ker,nel\"
\"ker\"\"nel\"
\" kernel\t\"
=
kernel
bad,word
bad,word
kernel

quoted numbers
polygon,\"0\",\" 1 \",2,\"3\",4,5
=
polygon 0,1 2,3 4,5

quoted line feed
\"ker
nel\"
kernel
=
bad,word
kernel

a blank before a quote
 \"kernel\"
kernel
=
bad,word
kernel

other words
Polygon
polygons
,
\"\"
 
=
bad,word
bad,word
bad,word
bad,word
bad,word";
