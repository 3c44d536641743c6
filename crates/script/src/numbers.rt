// Numbers: from digits, and round and round.
ghost use Rattle.std.specs.Prelude.{◌≡◌, ◌+◌, ◌%◌, ◌^◌, ◌<◌, ◌≤◌, fold};
ghost use Rattle.script.specs.Numbers.{with_digit};

// The number that digits stand for in decimal, modulo 2^32; 0 for none.
pub fn of_digits(digits: &[u8]) -> u32
    ensures { result ≡ fold with_digit 0 digits.now }
{
    digits.iter().fold(0u32, |n, digit| {
        n.wrapping_mul(10).wrapping_add(u32::from(*digit % 16))
    })
}

// The number a step on, where numbers go round from 0 to one below the count.
pub fn around<const COUNT: u32>(n: u32, step: u32) -> u32
    requires some { 0 < COUNT }
    requires fits { COUNT ≤ 2 ^ 31 }
    ensures { result ≡ (n + step) % COUNT }
{
    (n % COUNT + step % COUNT) % COUNT
}
