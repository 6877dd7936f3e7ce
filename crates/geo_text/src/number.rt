// Whole numbers in decimal, with any count of digits. (`parse` would call a number too great before it has seen all
// its digits.)
ghost use Rattle.std.specs.Prelude.{◌≡◌, ◌+◌, ◌≤◌, length, min, pos, if◌then◌else◌};
ghost use Rattle.std.specs.Char.{is_ascii_digit};
ghost use Rattle.std.specs.List.{list_all};
ghost use Rattle.std.specs.Str.Parse.{digits_value};
ghost use Rattle.plane.specs.declared.limits.TheConstants.{MAX_COORDINATE};
ghost use Rattle.geo_text.specs.Capped.{capped};
ghost use Rattle.geo_text.specs.declared.number.TheConstants.{SURE_DIGITS};
ghost use Rattle.geo_text.specs.Number.{are_digits, is_number, number_of};

use plane::MAX_COORDINATE;

// Every size past the coordinate limit reads as this one.
const TOO_GREAT: i64 = MAX_COORDINATE as i64 + 1;

// So many digits are a number below 2^63, whatever they are.
const SURE_DIGITS: usize = 18;

// The number that a field is, if it is one. A number past the coordinate limit reads as another past it.
pub fn number(field: &[u8]) -> Option<i64>
    ensures { result ≡ (if is_number field.now then Some (capped (number_of field.now)) else None) }
{
    match field {
        [b'-', digits @ ..] => Some(-size(digits)?),
        [b'+', digits @ ..] => size(digits),
        digits => size(digits),
    }
}

// The number that these digits are, at most `TOO_GREAT`.
fn size(digits: &[u8]) -> Option<i64>
    ensures { result ≡ (if are_digits digits.now then Some (pos (min (digits_value 10 digits.now) (MAX_COORDINATE + 1))) else None) }
{
    if digits.is_empty() {
        None
    } else if digits.len() <= SURE_DIGITS {
        short_size(digits)
    } else {
        long_size(digits)
    }
}

// The same of few digits, of which every number fits.
fn short_size(digits: &[u8]) -> Option<i64>
    requires { length digits.now ≤ SURE_DIGITS }
    ensures { result ≡ (if list_all is_ascii_digit digits.now then Some (pos (min (digits_value 10 digits.now) (MAX_COORDINATE + 1))) else None) }
{
    let mut size: u64 = 0;
    for digit in digits {
        if !digit.is_ascii_digit() {
            return None;
        }
        size = 10 * size + u64::from(*digit - b'0');
    }
    Some(size.min(MAX_COORDINATE + 1) as i64)
}

// The same of any count of digits.
fn long_size(digits: &[u8]) -> Option<i64>
    ensures { result ≡ (if list_all is_ascii_digit digits.now then Some (pos (min (digits_value 10 digits.now) (MAX_COORDINATE + 1))) else None) }
{
    let mut size = 0;
    for digit in digits {
        if !digit.is_ascii_digit() {
            return None;
        }
        size = (10 * size + i64::from(*digit - b'0')).min(TOO_GREAT);
    }
    Some(size)
}
