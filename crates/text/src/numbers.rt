// Number fields: their test and their value.
ghost use Rattle.std.specs.Prelude.{◌≡◌, true, false, MatchOption, ◌+◌, ◌-◌, ◌*◌, ◌≤◌, ◌<◌};
ghost use Rattle.model.specs.Lists.{between, all};
ghost use Rattle.model.specs.Text.{digit_zero, digit_nine, is_number, value_from};

use super::letters;

// The most digits of a number.
const MOST_DIGITS: usize = 9;

fn all_digits(field: &[u8]) -> bool
    ensures { result ≡ all (between digit_zero digit_nine) field.now }
{
    field.iter().all(|b| b.is_ascii_digit())
}

// Whether a field is 1 to 9 digits.
pub fn is_number(field: &[u8]) -> bool
    ensures { result ≡ is_number field.now }
{
    if field.len() > MOST_DIGITS {
        return false;
    }
    !field.is_empty() && all_digits(field)
}

// The value v with one digit more.
fn with_digit(v: u32, digit: u8) -> u32
    requires { (v < 100000000) × (digit_zero ≤ digit) × (digit ≤ digit_nine) }
    ensures { result ≡ 10 * v + (digit - digit_zero) }
{
    10 * v + u32::from(digit - letters::DIGIT_ZERO)
}

// The value of a number field, below 10 ^ 9.
pub fn number(field: &[u8]) -> u32
    requires { is_number field.now ≡ true }
    ensures { result ≡ value_from 0 field.now }
{
    let mut value = 0;
    for digit in field {
        value = with_digit(value, *digit);
    }
    value
}

// The same of any field: none where it is no number field.
pub fn parse(field: &[u8]) -> Option<u32>
    ensures { MatchOption result (is_number field.now ≡ false) (λ n. (is_number field.now ≡ true) × (n ≡ value_from 0 field.now)) }
{
    if is_number(field) {
        Some(number(field))
    } else {
        None
    }
}
