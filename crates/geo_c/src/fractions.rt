//! Fractions that are copied into a buffer of the caller.
ghost use Rattle.std.specs.Prelude.{◌≡◌, ◌<◌, ◌^◌, ◌<ℤ◌, pos, unsigned_abs};
ghost use Rattle.geo_c.specs.Filled.{filled_by};
ghost use Rattle.geo_c.specs.Fractions.{end_at, fraction_at, fractions_of_corners, fractions_of_parts, in_lowest_terms};

use exact_frac::Frac;
use exact_plane::{Hom, Steps};
use see_cone::Part;
use std::marker::Model;
use std::sync::ledger::Ledger;

/// A fraction in lowest terms: the numerator is `high` * 2^64 + `low`, and the denominator is at least 1. In C it is a struct of an
/// `int64_t` and two `uint64_t`.
#[repr(C)]
#[derive(Clone, Copy)]
pub struct GeoFraction {
    pub high: i64,
    pub low: u64,
    pub denominator: u64,
}

impl Model for GeoFraction {
    ghost use Rattle.std.specs.Prelude.{◌<◌, ◌^◌, pos, ◌+ℤ◌, ◌*ℤ◌, unsigned_abs};
    ghost use Rattle.geo_c.specs.Fractions.{Fraction, high_word, low_word};

    ghost Value = { Fraction };

    ghost view = { λ f. record { numerator = f.high *ℤ pos (2 ^ 64) +ℤ pos f.low; denominator = pos f.denominator } };

    ghost invariant = { λ f. f.low < 2 ^ 64 };

    ghost inverse = { λ q. record { high = high_word q.numerator; low = low_word q.numerator; denominator = unsigned_abs q.denominator } };
}

const WORD: i128 = 1 << 64;

impl GeoFraction {
    // The number `num` / `den`.
    fn lowest(num: i128, den: i128) -> GeoFraction
        requires positive { pos 0 <ℤ den }
        requires small { unsigned_abs den < 2 ^ 64 }
        ensures { result ≡ in_lowest_terms num den }
    {
        let frac = Frac::lowest(num, den);
        GeoFraction {
            high: frac.num.div_euclid(WORD) as i64,
            low: frac.num.rem_euclid(WORD) as u64,
            denominator: frac.den as u64,
        }
    }

    // X / W for an even number, and Y / W for an odd one.
    fn coordinate<L: Ledger>(p: &Hom, number: usize, steps: &mut Steps<L>) -> GeoFraction
        ensures { result ≡ fraction_at number p.now }
    {
        let (x, y, w) = p.parts(steps);
        if number % 2 == 0 {
            GeoFraction::lowest(x, w)
        } else {
            GeoFraction::lowest(y, w)
        }
    }
}

/// Copies the first fractions of some points, two of each, as many as fit.
pub(crate) fn fill_corners<L: Ledger>(
    out: &mut [GeoFraction],
    corners: &[Hom],
    steps: &mut Steps<L>,
)
    ensures { out.new ≡ filled_by (fractions_of_corners corners.now) out.old }
{
    'fractions: for i in 0..out.len() {
        if corners.len() <= i / 2 {
            return;
        }
        out[i] = GeoFraction::coordinate(&corners[i / 2], i, steps);
    }
}

/// Copies the first fractions of some parts, four of each, as many as fit.
pub(crate) fn fill_parts<L: Ledger>(out: &mut [GeoFraction], parts: &[Part], steps: &mut Steps<L>)
    ensures { out.new ≡ filled_by (fractions_of_parts parts.now) out.old }
{
    'fractions: for i in 0..out.len() {
        let number = i / 2;
        if parts.len() <= number / 2 {
            return;
        }
        out[i] = GeoFraction::coordinate(&end(&parts[number / 2], number), i, steps);
    }
}

// The first end of a part for an even number, and the last one for an odd one.
fn end(part: &Part, number: usize) -> Hom
    ensures { result ≡ end_at number part.now }
{
    if number % 2 == 0 {
        part.first
    } else {
        part.last
    }
}
