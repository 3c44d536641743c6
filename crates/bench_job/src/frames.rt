// The frames of an input. A head is a letter, nine digits and LF; a text of so many bytes stands behind some.
ghost use Rattle.std.specs.Prelude.{length};
ghost use Rattle.std.specs.Iterator.{at_most};

const HEAD: usize = 11;

#[derive(Clone, Copy)]
pub enum Frame<'a> {
    Open,
    // A job, its answers written or not.
    Job(&'a [u8]),
    Written(&'a [u8]),
    Show(&'a [u8]),
    Check,
    // All frames behind it are run so many times.
    Repeat(u32),
    Other,
}

fn number_of(digits: &[u8]) -> u32 {
    if text::numbers::is_number(digits) {
        text::numbers::number(digits)
    } else {
        0
    }
}

// The frames that are left; where the input is cut short in a head, they end before it.
#[derive(Clone, Copy)]
pub struct Frames<'a> {
    pub rest: &'a [u8],
}

impl<'a> Iterator for Frames<'a> {
    type Item = Frame<'a>;

    ghost remaining = { λ s. at_most (length s.rest.now) };

    fn next(&mut self) -> Option<Frame<'a>> {
        let (head, behind) = self.rest.split_first_chunk::<HEAD>()?;
        let number = number_of(&head[1..10]);
        let (text, after) = behind.split_at((number as usize).min(behind.len()));
        let (frame, rest) = match head[0] {
            b'J' => (Frame::Job(text), after),
            b'W' => (Frame::Written(text), after),
            b'S' => (Frame::Show(text), after),
            b'O' => (Frame::Open, behind),
            b'C' => (Frame::Check, behind),
            b'R' => (Frame::Repeat(number), behind),
            _ => (Frame::Other, behind),
        };
        self.rest = rest;
        Some(frame)
    }
}
