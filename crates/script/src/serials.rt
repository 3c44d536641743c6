// A serial as it travels: sixteen bytes, and how many of them count.
// Kept: a rule of the project, that a serial is a `[u8; 16]` by value beside its length, and no slice.
ghost use Rattle.std.specs.Prelude.{◌≡◌, ℕ, ◌<◌, ◌++◌, length, slice_index_or};

use std::array;

#[derive(Clone, Copy, PartialEq, Eq, Debug)]
pub struct Serial {
    pub bytes: [u8; 16],
    pub len: usize,
}

// A byte of a field, or of what is sent behind it; 0 behind both.
fn byte_at(field: &[u8], behind: &[u8], k: usize) -> u8
    ensures { result ≡ slice_index_or (field.now ++ behind.now) k 0 }
{
    match k.checked_sub(field.len()) {
        None => field[k],
        Some(rest) => behind.get(rest).copied().unwrap_or(0),
    }
}

impl Serial {
    // The bytes of a field, and those that are sent behind it and do not count. What does not fit into sixteen bytes is told by the length
    // alone.
    pub fn new(field: &[u8], behind: &[u8]) -> Serial
        ensures bytes { (k : ℕ) → k < 16 → slice_index_or result.bytes k 0 ≡ slice_index_or (field.now ++ behind.now) k 0 }
        ensures len { result.len ≡ length field.now }
    {
        Serial {
            bytes: array::from_fn(|k| byte_at(field, behind, k)),
            len: field.len(),
        }
    }
}
