// Numbers as text, written into an output that has room for them.
ghost use Rattle.std.specs.Prelude.{◌≡◌, [], ◌∷◌, ◌+◌, ◌≤◌, ◌<◌, length};
ghost use Rattle.model.specs.Text.{digit_zero, decimal};
ghost use Rattle.text.specs.Decimals.{Puts, Digits};

use super::letters;

// The digit of a number below 10.
fn digit(d: u32) -> u8
    requires { d < 10 }
    ensures { result ≡ digit_zero + d }
{
    letters::DIGIT_ZERO + d as u8
}

// How many digits a number has in decimal: at most ten. By comparing, since dividing takes longer; most numbers of an answer have one digit, so
// that is tried first.
pub fn decimal_len(n: u32) -> usize
    ensures { Digits n result }
{
    if n < 10 {
        return 1;
    }
    match n {
        0..=99 => 2,
        100..=999 => 3,
        1_000..=9_999 => 4,
        10_000..=99_999 => 5,
        100_000..=999_999 => 6,
        1_000_000..=9_999_999 => 7,
        10_000_000..=99_999_999 => 8,
        100_000_000..=999_999_999 => 9,
        _ => 10,
    }
}

// One byte at `at`; the place behind it.
pub fn put_byte(out: &mut [u8], at: usize, b: u8) -> usize
    requires { at < length out.old }
    ensures { Puts out.old at (b ∷ []) result out.new }
{
    out[at] = b;
    at + 1
}

// A number in decimal at `at`, its last digit first; the place behind it. Most numbers of an answer have one digit.
pub fn put_decimal(out: &mut [u8], at: usize, n: u32) -> usize
    requires { at + length (decimal n) ≤ length out.old }
    ensures { Puts out.old at (decimal n) result out.new }
{
    if n < 10 {
        return put_byte(out, at, digit(n));
    }
    let end = at + decimal_len(n);
    let mut m = n;
    for i in (at + 1..end).rev() {
        out[i] = digit(m % 10);
        m /= 10;
    }
    out[at] = digit(m);
    end
}
