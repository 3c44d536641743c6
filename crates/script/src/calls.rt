// Open and the calls on a store, as a line of a script or a number asks for them.
ghost use Rattle.std.specs.Prelude.{◌≡◌};
ghost use Rattle.model.specs.Calls.{open_call, asked};
ghost use Rattle.model.specs.Runs.{outcome};
ghost use Rattle.store.specs.Leaves.{Leaves, Opens};
ghost use Rattle.script.specs.Calls.{act_of, room_for};
ghost use Rattle.script.specs.Lines.{number_in};

use crate::lines::Line;
use crate::serials::Serial;
use store::Answer;

// What Open is asked for: the limits and the load bounds.
#[derive(Clone, Copy, PartialEq, Eq, Debug)]
pub struct Terms {
    pub cards: u32,
    pub faults: u32,
    pub upper: u32,
    pub lower: u32,
}

impl Terms {
    // The four numbers behind the letter of a line.
    pub fn of_line(line: Line) -> Terms
        ensures cards { result.cards ≡ number_in line.entry.bytes.now 1 }
        ensures faults { result.faults ≡ number_in line.entry.bytes.now 2 }
        ensures upper { result.upper ≡ number_in line.entry.bytes.now 3 }
        ensures lower { result.lower ≡ number_in line.entry.bytes.now 4 }
    {
        Terms {
            cards: line.number(1),
            faults: line.number(2),
            upper: line.number(3),
            lower: line.number(4),
        }
    }

    // Opens a store on the words, and gives Open's number.
    pub fn open(self, words: &mut [u32]) -> u32
        ensures { Opens (open_call words.old (asked self.cards self.faults self.upper self.lower)) result words.new }
    {
        store::number_of(store::open(words, self.cards, self.faults, self.upper, self.lower))
    }
}

#[derive(Clone, Copy, PartialEq, Eq, Debug)]
pub enum Kind {
    Enter,
    File,
    Show,
    Withdraw,
}

// Only File has a day and a code.
#[derive(Clone, Copy)]
pub struct Call {
    pub kind: Kind,
    pub serial: Serial,
    pub day: u32,
    pub code: u32,
}

impl Call {
    // Only Show and Withdraw write into the room.
    pub fn make(self, words: &mut [u32], scratch: &mut [u8], room: &mut [u32]) -> Answer
        ensures { Leaves (outcome words.old scratch.old (act_of self room.old)) result words.new (room_for self.kind room.new) scratch.new }
    {
        let Serial { bytes, len } = self.serial;
        match self.kind {
            Kind::Enter => store::enter(words, scratch, bytes, len),
            Kind::File => store::file(words, scratch, bytes, len, self.day, self.code),
            Kind::Show => store::show(words, scratch, bytes, len, room),
            Kind::Withdraw => store::withdraw(words, scratch, bytes, len, room),
        }
    }
}
