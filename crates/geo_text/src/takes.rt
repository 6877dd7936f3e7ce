ghost use Rattle.std.specs.Prelude.{◌≡◌};
ghost use Rattle.geo_text.specs.Words.{count_fault};

use crate::command::Bad;

// What a word takes.
#[derive(Clone, Copy)]
pub(crate) enum Takes {
    // Just so many numbers.
    Numbers(usize),
    // A list of points, of which there are `least` to `most`.
    Points { least: usize, most: usize },
}

impl Takes {
    // What is wrong with a count of fields, if anything.
    pub(crate) fn fault(self, count: usize) -> Option<Bad>
        ensures { result ≡ count_fault self count }
    {
        match self {
            Takes::Numbers(wanted) => {
                if count == wanted {
                    None
                } else {
                    Some(Bad::Fields)
                }
            }
            Takes::Points { least, most } => {
                if count % 2 == 1 {
                    Some(Bad::Fields)
                } else if count / 2 < least {
                    Some(Bad::Few)
                } else if count / 2 > most {
                    Some(Bad::Many)
                } else {
                    None
                }
            }
        }
    }
}
