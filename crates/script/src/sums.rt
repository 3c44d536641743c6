// Checksums of words and of bytes.
ghost use Rattle.std.specs.Prelude.{◌≡◌};
ghost use Rattle.script.specs.Numbers.{mixed, MixesIn};

// A checksum with one number more: a polynomial modulo 2^32.
pub fn mix(sum: u32, x: u32) -> u32
    ensures { result ≡ mixed sum x }
{
    sum.wrapping_mul(16777619).wrapping_add(x)
}

// A checksum with words or bytes more, from the first to the last.
pub fn more<T: Copy + Into<u32>>(sum: u32, numbers: &[T]) -> u32
    ensures { MixesIn T.converts sum numbers.now result }
{
    numbers.iter().fold(sum, |s, x| mix(s, (*x).into()))
}

// The checksum of words or of bytes.
pub fn of<T: Copy + Into<u32>>(numbers: &[T]) -> u32
    ensures { MixesIn T.converts 1 numbers.now result }
{
    more(1, numbers)
}
