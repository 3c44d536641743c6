// One call: what is left, and how that is told.
use crate::fills;
use script::calls::{Call, Kind};
use script::sums;
use std::io;
use store::Answer;

// The answer, and the checksums of words, room and scratch.
#[derive(Clone, Copy)]
pub struct Left {
    pub answer: Answer,
    words: u32,
    room: u32,
    scratch: u32,
}

pub fn ask(words: &mut [u32], scratch: &mut [u8], room: &mut [u32], call: Call) -> Left {
    fills::fill_bytes(scratch);
    fills::fill_words(room);
    let answer = call.make(words, scratch, room);
    Left {
        answer,
        words: sums::of(words),
        room: sums::of(room),
        scratch: sums::of(scratch),
    }
}

impl Left {
    // Enter and File have no room.
    pub fn tell(self, rt: &impl Print, kind: Kind) -> io::Result<()> {
        let a = self.answer;
        print!(rt;
            ": {} {} {} {}",
            a.number, a.comparisons, a.scanned, a.faults
        )?;
        print!(rt; " words {}", self.words)?;
        match kind {
            Kind::Enter | Kind::File => {}
            Kind::Show | Kind::Withdraw => print!(rt; " room {}", self.room)?,
        }
        print!(rt; " scratch {}", self.scratch)
    }

    // All of it in one checksum, with that of the calls before.
    pub fn fold(self, sum: u32) -> u32 {
        let a = self.answer;
        let answered = [a.number, a.comparisons, a.scanned, a.faults];
        sums::more(
            sums::more(sum, &answered),
            &[self.words, self.room, self.scratch],
        )
    }
}
