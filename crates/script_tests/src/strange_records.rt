// Strange records, some of which are no refusals.
#[rattlefmt::skip]
pub(crate) const STRANGE: &str = "
# an open quote
\"frob,1=
bad,word

# a number in quotes
polygon,0,0,4,0,4,2,2,2,2,4,0,4
inside,\"1\",1
=
polygon,6
inside

# signs and blanks in numbers
polygon,0,0,4,0,4,2,2,2,2,4,0,4
inside,+,1
inside,--1,1
inside,1 1,1
inside,-0,1
=
polygon,6
bad,number,1
bad,number,1
bad,number,1
edge
";
