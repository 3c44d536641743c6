// Words by their places, which need not be there.
ghost use Rattle.std.specs.Prelude.{◌≡◌, slice_index_or, slice_set};

// A word; 0 where there is none.
pub fn word(words: &[u32], at: usize) -> u32
    ensures { result ≡ slice_index_or words.now at 0 }
{
    words.get(at).copied().unwrap_or(0)
}

// A word is set, if it is there.
pub fn set(words: &mut [u32], at: usize, value: u32)
    ensures { words.new ≡ slice_set words.old at value }
{
    if at < words.len() {
        words[at] = value;
    }
}
