// Where a text goes: written into an output, or only counted. So one function both writes a text and says how long it is.
ghost use Rattle.std.specs.Prelude.{◌≡◌, ℕ, List, [], ◌∷◌, ◌≤◌, ◌<◌, length};
ghost use Rattle.model.specs.Text.{decimal};
ghost use Rattle.text.specs.Decimals.{marked};
ghost use Rattle.text.specs.SinkLaws.{SinkLaws};
ghost use Rattle.text.specs.Counting.{count_room, Counts, count_laws};
ghost use Rattle.text.specs.Writing.{write_room, Writes, write_laws};

use super::decimals;

pub trait Sink {
    // How many bytes it still takes.
    ghost room: { Self → ℕ };

    // A text was put behind what is there.
    ghost Takes: { Self → List ℕ → Self → Type 0 };

    // One byte.
    fn put_byte(&mut self, byte: u8)
        requires { 0 < room self.old }
        ensures { Takes self.old (byte ∷ []) self.new };

    // A number in decimal.
    fn put_decimal(&mut self, number: u32)
        requires { length (decimal number) ≤ room self.old }
        ensures { Takes self.old (decimal number) self.new };

    ghost laws: { SinkLaws room Takes };
}

// How many bytes were put.
#[derive(Clone, Copy)]
pub struct Count {
    pub bytes: usize,
}

impl Sink for Count {
    ghost room = { count_room };

    ghost Takes = { Counts };

    fn put_byte(&mut self, _byte: u8) {
        self.bytes += 1;
    }

    fn put_decimal(&mut self, number: u32) {
        self.bytes += decimals::decimal_len(number);
    }

    ghost laws = { count_laws };
}

// An output, and the place behind what is written.
#[derive(Drop)]
pub struct Writer<'a> {
    pub out: &'a mut [u8],
    pub at: usize,
}

impl<'a> Sink for Writer<'a> {
    ghost room = { write_room };

    ghost Takes = { Writes };

    fn put_byte(&mut self, byte: u8) {
        self.at = decimals::put_byte(self.out, self.at, byte);
    }

    fn put_decimal(&mut self, number: u32) {
        self.at = decimals::put_decimal(self.out, self.at, number);
    }

    ghost laws = { write_laws };
}

// A mark and a number behind it.
pub fn put_marked<S: Sink>(sink: &mut S, mark: u8, number: u32)
    requires { length (marked mark number) ≤ S.room sink.old }
    ensures { S.Takes sink.old (marked mark number) sink.new }
{
    sink.put_byte(mark);
    sink.put_decimal(number);
}

// A text, byte by byte.
pub fn put_text<S: Sink>(sink: &mut S, text: &[u8])
    requires { length text.now ≤ S.room sink.old }
    ensures { S.Takes sink.old text.now sink.new }
{
    for byte in text {
        sink.put_byte(*byte);
    }
}
