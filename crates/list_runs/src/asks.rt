// Calls on one store, each by its number alone.
use crate::numbered;
use script::calls::{Call, Kind};
use script::lines::Line;
use script::serials::Serial;

// A call that writes into the room, which is enough for every fault of a store.
fn number_with_room(words: &mut [u32], scratch: &mut [u8], call: Call) -> u32 {
    let mut room = [0u32; 4096];
    call.make(words, scratch, &mut room).number
}

// Only what writes into a room gets one: to clear it takes longer than a call on a small store.
fn number_of(words: &mut [u32], call: Call) -> u32 {
    let mut scratch = [0u8; store::NEED];
    match call.kind {
        Kind::Enter | Kind::File => call.make(words, &mut scratch, &mut []).number,
        Kind::Show | Kind::Withdraw => number_with_room(words, &mut scratch, call),
    }
}

// A line of one call.
pub fn one(line: Line, kind: Kind, words: &mut [u32]) -> u32 {
    let call = Call {
        kind,
        serial: Serial::new(line.field(1), &[]),
        day: line.number(2),
        code: line.number(3),
    };
    number_of(words, call)
}

// A card, a day and a code, or the steps to the next ones.
#[derive(Clone, Copy)]
struct Filed {
    card: u32,
    day: u32,
    code: u32,
}

impl Filed {
    fn next(self, by: Filed) -> Filed {
        Filed {
            card: numbered::next_card(self.card, by.card),
            day: numbered::next_day(self.day, by.day),
            code: numbered::next_code(self.code, by.code),
        }
    }

    fn call(self, kind: Kind) -> Call {
        Call {
            kind,
            serial: numbered::serial(self.card),
            day: self.day,
            code: self.code,
        }
    }
}

// A line of many calls for numbered cards: how many were done.
pub fn many(line: Line, kind: Kind, words: &mut [u32]) -> u32 {
    let by = Filed {
        card: line.number(3),
        day: line.number(5),
        code: line.number(7),
    };
    let mut filed = Filed {
        card: line.number(2),
        day: line.number(4),
        code: line.number(6),
    };
    let mut done = 0u32;
    for _ in 0..line.number(1) {
        if number_of(words, filed.call(kind)) == 0 {
            done = done.saturating_add(1);
        }
        filed = filed.next(by);
    }
    done
}
