// A text in pieces: its lines, and the fields of a line.
ghost use Rattle.std.specs.Prelude.{◌≡◌, [], ◌∷◌, ◌==◌, position, MatchOption, length};
ghost use Rattle.std.specs.Iterator.{at_most, YieldsFirstRef};
ghost use Rattle.model.specs.Text.{fields, lines_of};
ghost use Rattle.text.specs.Pieces.{Parts};

use super::letters;

// The place of the first separator.
fn find(text: &[u8], sep: u8) -> Option<usize>
    ensures { result ≡ position (λ b. b == sep) text.now }
{
    for (i, byte) in text.iter().enumerate() {
        if *byte == sep {
            return Some(i);
        }
    }
    None
}

// What stands before the first separator, and what stands behind it; none where the text has none.
pub fn split_once(text: &[u8], sep: u8) -> Option<(&[u8], &[u8])>
    ensures { MatchOption result (fields sep text.now ≡ text.now ∷ []) (λ p. Parts sep text.now p.0.now p.1.now) }
{
    let end = find(text, sep)?;
    Some((&text[..end], &text[end + 1..]))
}

// The lines of a text, one by one: LF ends a line, and what stands behind the last LF is a line if it is not empty.
#[derive(Clone, Copy)]
pub struct Lines<'a> {
    pub rest: &'a [u8],
}

impl<'a> Lines<'a> {
    pub fn new(text: &'a [u8]) -> Lines<'a>
        ensures { result.rest.now ≡ text.now }
    {
        Lines { rest: text }
    }
}

impl<'a> Iterator for Lines<'a> {
    type Item = &'a [u8];

    ghost next_gives = { YieldsFirstRef (λ s. lines_of s.rest.now) };

    ghost remaining = { λ s. at_most (length s.rest.now) };

    fn next(&mut self) -> Option<&'a [u8]> {
        if self.rest.is_empty() {
            return None;
        }
        let text = self.rest;
        let Some((line, rest)) = split_once(text, letters::LF) else {
            self.rest = &[];
            return Some(text);
        };
        self.rest = rest;
        Some(line)
    }
}
