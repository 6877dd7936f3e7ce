//! None, one or two numbers.
ghost use Rattle.std.specs.Prelude.{◌≡◌, length};
ghost use Rattle.geo_c.specs.Contents.{bad_numbers, halves_of, verdict_numbers};
ghost use Rattle.geo_c.specs.Filled.{filled_by};
ghost use Rattle.geo_c.specs.Put.{few_numbers};

use crate::fill::fill;
use geo_text::Bad;
use taut_check::Verdict;

// A high half is so many times its number.
const HALF: u64 = 1 << 32;

#[derive(Clone, Copy)]
pub(crate) enum Few {
    Nothing,
    One(u32),
    Two(u32, u32),
}

impl Few {
    /// The two halves of a number, the low one first.
    pub(crate) fn of_number(number: u64) -> Few
        ensures { few_numbers result ≡ halves_of number }
    {
        Few::Two((number % HALF) as u32, (number / HALF) as u32)
    }

    /// Those that a refusal names.
    pub(crate) fn of_bad(bad: &Bad) -> Few
        ensures { few_numbers result ≡ bad_numbers bad.now }
    {
        match bad {
            Bad::Number(place) => Few::One(*place),
            Bad::Range(place) => Few::One(*place),
            Bad::Clash(i, j) => Few::Two(*i, *j),
            Bad::Outside(number) => Few::One(*number),
            Bad::Index(place) => Few::One(*place),
            _ => Few::Nothing,
        }
    }

    /// Those of a verdict.
    pub(crate) fn of_verdict(verdict: Verdict) -> Few
        ensures { few_numbers result ≡ verdict_numbers verdict }
    {
        match verdict {
            Verdict::Taut => Few::One(0),
            Verdict::Empty => Few::Nothing,
            Verdict::Repeat(k) => Few::Two(1, k),
            Verdict::Leaves(k) => Few::Two(2, k),
            Verdict::NotReflex(k) => Few::Two(3, k),
            Verdict::Straight(k) => Few::Two(4, k),
            Verdict::WrongSide(k) => Few::Two(5, k),
        }
    }

    /// How many there are.
    pub(crate) fn count(self) -> usize
        ensures { result ≡ length (few_numbers self) }
    {
        match self {
            Few::Nothing => 0,
            Few::One(_) => 1,
            Few::Two(_, _) => 2,
        }
    }

    /// Copies the first of them, as many as fit.
    pub(crate) fn copy(self, out: &mut [u32])
        ensures { out.new ≡ filled_by (few_numbers self) out.old }
    {
        match self {
            Few::Nothing => {}
            Few::One(i) => fill(out, &[i]),
            Few::Two(i, j) => fill(out, &[i, j]),
        }
    }
}
