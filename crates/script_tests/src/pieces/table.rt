// Pieces in turn, each with the answers to it. A row is a line `# NAME`, the piece up to a `=`, and after a line feed the answers;
// an empty line is before each next row. The name says whether it is the first piece of a new script. `geo,2` is no command in a
// later piece than the first with a record, and a byte order mark is dropped at the front of the first piece with a byte alone.
#[rattlefmt::skip]
pub(super) const PIECES: &str = "
# a new script
polygon,0,0,4,0,4,2,2,2,2,4,0,4
=
polygon,6

# a later piece
inside,1,1
tree,4,1
=
inside
tree,6
from,0,s
from,1,s
from,2,s
from,3,s
from,4,3
from,5,3

# a later piece
path,4,1,1,4
reach,1,4=
path,3,4,1,2,2,1,4
path,3,4,1,2,2,1,4

# a later piece
inside,1000001,0
=
bad,range,1

# a new script
geo,2
=
geo,2

# a later piece
inside,8388607,0
=
bad,no_polygon

# a later piece
polygon,0,0,4,0,4,2,2,2,2,4,0,4
path,4,0,0,4
=
polygon,6
path,3,4,0,2,2,0,4

# a later piece
path,0,0,8388608,0
=
bad,range,3

# a new script
geo,2
polygon,0,0,5,0,0,5
=
geo,2
polygon,3

# a later piece
kernel
=
kernel,3
corner,0,0
corner,5,0
corner,0,5

# a later piece
inside,8388607,0
=
outside

# a new script
=

# a later piece

\r
=

# a later piece
geo,2
inside,1000001,0
=
geo,2
bad,no_polygon

# a later piece
=

# a new script
inside,1,1
=
bad,no_polygon

# a later piece
geo,2
=
bad,word

# a later piece
inside,1000001,0
=
bad,range,1

# a new script
geo,2
=
geo,2

# a later piece
geo,2
=
bad,word

# a later piece
inside,1000001,0
=
bad,no_polygon

# a new script
geo,3
=
bad,word

# a later piece
geo,2
=
bad,word

# a later piece
polygon,0,0,4,0,4,2,2,2,2,4,0,4
=
polygon,6

# a later piece
reach,1,1
=
bad,no_tree

# a later piece
=

# a new script
kernel
=
bad,no_polygon

# a later piece
\u{FEFF}kernel
=
bad,word

# a later piece
kernel
\u{FEFF}kernel
=
bad,no_polygon
bad,word

# a new script
=

# a later piece
\u{FEFF}geo,2
=
geo,2

# a later piece
\u{FEFF}inside,1,1
=
bad,word

# a new script

=

# a later piece
\u{FEFF}geo,2
=
bad,word

# a later piece
geo,2
=
bad,word

# a new script
\u{FEFF}=

# a later piece
geo,2\r=
geo,2

# a later piece

\u{FEFF}\u{FEFF}
=
bad,word

# a new script
\u{FEFF}=

# a later piece
\u{FEFF}geo,2
=
bad,word
";
