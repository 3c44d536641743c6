// Lines of numbers, put into any sink that has room for them.
ghost use Rattle.std.specs.Prelude.{◌≤◌, length};
ghost use Rattle.text.specs.Decimals.{Puts};
ghost use Rattle.disk.specs.Desk.{new_size, number_line};
ghost use Rattle.disk.specs.Check.{pair_line};

use text::letters;
use text::sink::{Sink, Writer, put_text};

// Room for a number and LF.
pub const LINE: usize = 21;

// A number and LF.
pub fn put_line<S: Sink>(sink: &mut S, n: u32)
    requires { length (number_line n) ≤ S.room sink.old }
    ensures { S.Takes sink.old (number_line n) sink.new }
{
    sink.put_decimal(n);
    sink.put_byte(letters::LF);
}

// The same at the front of an output; the place behind it.
pub fn write_line(out: &mut [u8], n: u32) -> usize
    requires { new_size ≤ length out.old }
    ensures { Puts out.old 0 (number_line n) result out.new }
{
    let mut writer = Writer { out, at: 0 };
    put_line(&mut writer, n);
    writer.at
}

// A word, a number, what stands between, another number, LF.
pub fn put_pair<S: Sink>(sink: &mut S, word: &[u8], a: u32, between: &[u8], b: u32)
    requires { length (pair_line word.now a between.now b) ≤ S.room sink.old }
    ensures { S.Takes sink.old (pair_line word.now a between.now b) sink.new }
{
    put_text(sink, word);
    sink.put_decimal(a);
    put_text(sink, between);
    put_line(sink, b);
}
