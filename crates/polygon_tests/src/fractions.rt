// Fractions in lowest terms.
use crate::reading::{number_of, row_of};
use exact_frac::Frac;

// A numerator and a denominator, and what they are in lowest terms, up to the greatest and the least 128-bit numbers.
pub(crate) const FRACTIONS: &str = "\
a common factor | 6/4 | 3/2
a negative number | -6/4 | -3/2
no common factor | 7/2 | 7/2
a multiple | 12/4 | 3/1
one | 5/5 | 1/1
a negative whole number | -9/3 | -3/1
zero | 0/7 | 0/1
a whole number | 8/1 | 8/1
less than one | 4/30 | 2/15
a large common factor | 19014759003423441022450548080640/5070602400912917605986812821504 | 15/4
neighbours | 12345678901234567890/12345678901234567891 | 12345678901234567890/12345678901234567891
the greatest | 170141183460469231731687303715884105727/170141183460469231731687303715884105727 | 1/1
the least | -170141183460469231731687303715884105728/6 | -85070591730234615865843651857942052864/3
the least and the greatest | -170141183460469231731687303715884105728/170141183460469231731687303715884105727 | -170141183460469231731687303715884105728/170141183460469231731687303715884105727";

pub(crate) fn is_lowest(row: &str) -> bool {
    if let Some((_, given, want)) = row_of(row)
        && let Some((num, den)) = numbers_of(given)
        && let Some((want_num, want_den)) = numbers_of(want)
        && 1 <= den
        && 1 <= want_den
    {
        let found = Frac::lowest(num, den);
        (found.num, found.den) == (want_num, want_den)
            && found.is_whole() == (want_den == 1)
            && found == Frac::lowest(want_num, want_den)
    } else {
        false
    }
}

fn numbers_of(fraction: &str) -> Option<(i128, i128)> {
    if let Some((num, den)) = fraction.split_once('/')
        && let Some(num) = number_of(num)
        && let Some(den) = number_of(den)
    {
        Some((num, den))
    } else {
        None
    }
}
