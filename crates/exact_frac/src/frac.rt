ghost use Rattle.std.specs.Int.{IsGcd};
ghost use Rattle.std.specs.Prelude.{◌≡◌, ◌↔◌, ◌*ℤ◌, ◌<ℤ◌, IsTrue, pos};
ghost use Rattle.exact_frac.specs.Lowest.{IsLowest};

/// A fraction in lowest terms: the denominator is at least 1, and no number above 1 divides both parts.
#[derive(Clone, Copy, Debug, PartialEq, Eq)]
pub struct Frac {
    pub num: i128,
    pub den: i128,
    pub ghost in_lowest_terms: { IsLowest num den },
}

impl Frac {
    /// The fraction with the value `num` / `den`. Zero is 0 / 1.
    pub fn lowest(num: i128, den: i128) -> Frac
        requires { pos 0 <ℤ den }
        ensures value { result.num *ℤ den ≡ num *ℤ result.den }
        ensures zero { num ≡ pos 0 → (result.num ≡ pos 0) × (result.den ≡ pos 1) }
    {
        match (i64::try_from(num), i64::try_from(den)) {
            (Ok(num), Ok(den)) => lowest_of_short(num, den),
            _ => lowest_of_long(num, den),
        }
    }

    /// Whether it is a whole number.
    pub fn is_whole(&self) -> bool
        ensures { IsTrue result ↔ (self.now.den ≡ pos 1) }
    {
        self.den == 1
    }
}

// The same of parts of 64 bits, which a processor divides in one step.
fn lowest_of_short(num: i64, den: i64) -> Frac
    requires { pos 0 <ℤ den }
    ensures value { result.num *ℤ den ≡ num *ℤ result.den }
    ensures zero { num ≡ pos 0 → (result.num ≡ pos 0) × (result.den ≡ pos 1) }
{
    let divisor = short_divisor(num.unsigned_abs(), den.unsigned_abs()) as i64;
    Frac {
        num: (num / divisor) as i128,
        den: (den / divisor) as i128,
    }
}

// The same of any parts.
fn lowest_of_long(num: i128, den: i128) -> Frac
    requires { pos 0 <ℤ den }
    ensures value { result.num *ℤ den ≡ num *ℤ result.den }
    ensures zero { num ≡ pos 0 → (result.num ≡ pos 0) × (result.den ≡ pos 1) }
{
    let divisor = common_divisor(num.unsigned_abs(), den.unsigned_abs()) as i128;
    Frac {
        num: num / divisor,
        den: den / divisor,
    }
}

// The greatest common divisor, by Euclid's algorithm. As soon as a remainder fits 64 bits, so do all later ones.
fn common_divisor(a: u128, b: u128) -> u128
    ensures { IsGcd a b result }
{
    let (mut divisor, mut rest) = (a, b);
    while rest > u64::MAX as u128 {
        let next = divisor % rest;
        divisor = rest;
        rest = next;
    }
    if rest == 0 {
        divisor
    } else {
        short_divisor(rest as u64, (divisor % rest) as u64) as u128
    }
}

// The same of numbers of 64 bits.
fn short_divisor(a: u64, b: u64) -> u64
    ensures { IsGcd a b result }
{
    let (mut divisor, mut rest) = (a, b);
    while rest != 0 {
        let next = divisor % rest;
        divisor = rest;
        rest = next;
    }
    divisor
}
