// A script is lines of a letter and fields, parted by single spaces.
ghost use Rattle.std.specs.Prelude.{◌≡◌, ◌+◌, ◌≤◌, ◌==◌, length, drop, position, slice_index_or};
ghost use Rattle.script.specs.Lines.{before, without_lf, field, number_in};

use crate::numbers;

// Where the first mark stands.
fn find(bytes: &[u8], mark: u8) -> Option<usize>
    ensures { result ≡ position (λ b. b == mark) bytes.now }
{
    bytes.iter().position(|b| *b == mark)
}

// The bytes before the first mark, and those behind it. Where there is no mark all stand before it.
pub fn cut(bytes: &[u8], mark: u8) -> (&[u8], &[u8])
    ensures front { result.0.now ≡ before bytes.now mark }
    ensures back { result.1.now ≡ drop (length result.0.now + 1) bytes.now }
{
    match find(bytes, mark) {
        Some(n) => (&bytes[..n], &bytes[n + 1..]),
        None => (bytes, &[]),
    }
}

// A line, without the LF at its end.
#[derive(Clone, Copy)]
pub struct Line<'a> {
    pub bytes: &'a [u8],
}

impl<'a> Line<'a> {
    pub fn new(piece: &'a [u8]) -> Line<'a>
        ensures { result.bytes.now ≡ without_lf piece.entry.now }
    {
        Line {
            bytes: piece.strip_suffix(b"\n").unwrap_or(piece),
        }
    }

    // The first byte; 0 for an empty line.
    pub fn letter(self) -> u8
        ensures { result ≡ slice_index_or self.entry.bytes.now 0 0 }
    {
        self.bytes.first().copied().unwrap_or(0)
    }

    // A field, the letter being field 0; one that is not there is empty.
    pub fn field(self, k: usize) -> &'a [u8]
        ensures { result.now ≡ field self.entry.bytes.now k }
    {
        let mut rest = self.bytes;
        for _i in 0..k {
            rest = cut(rest, b' ').1;
        }
        cut(rest, b' ').0
    }

    // The number in a field; 0 where there is no such field.
    pub fn number(self, k: usize) -> u32
        ensures { result ≡ number_in self.entry.bytes.now k }
    {
        numbers::of_digits(self.field(k))
    }
}
