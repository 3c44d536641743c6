// What each of the four calls gives, and what each operation above them gives.
ghost use Rattle.std.specs.Prelude.{◌≡◌};
ghost use Rattle.store.specs.Leaves.{refused_answer, wrote_of};
ghost use Rattle.store.specs.Numbers.{number_of};

use crate::numbers::Refusal;

// The number, the cards compared, the cards scanned by a split or a contraction, and the faults that the card has.
// Kept: the C interface reads the number, here and in Wrote, as a u32 that is 0 for what is done.
#[repr(C)]
#[derive(Clone, Copy)]
pub struct Answer {
    pub number: u32,
    pub comparisons: u32,
    pub scanned: u32,
    pub faults: u32,
}

// The answer of a call that is refused before it looks at the serial.
impl From<Refusal> for Answer {
    ghost from_gives = { λ refusal answer. answer ≡ refused_answer (number_of refusal) };

    fn from(refusal: Refusal) -> Answer {
        Answer {
            number: refusal.into(),
            comparisons: 0,
            scanned: 0,
            faults: 0,
        }
    }
}

// What an operation that writes words or bytes gives: its number, and how many it wrote.
#[repr(C)]
#[derive(Clone, Copy)]
pub struct Wrote {
    pub number: u32,
    pub count: u32,
}

// The words or bytes written, or the refusal, where none is.
impl From<Result<u32, Refusal>> for Wrote {
    ghost from_gives = { λ outcome wrote. wrote ≡ wrote_of outcome };

    fn from(outcome: Result<u32, Refusal>) -> Wrote {
        match outcome {
            Ok(count) => Wrote { number: 0, count },
            Err(refusal) => Wrote {
                number: refusal.into(),
                count: 0,
            },
        }
    }
}
