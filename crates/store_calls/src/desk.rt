// The script: each line is done and told.
use crate::asks::Left;
use crate::numbered::Told;
use crate::{asks, chains, numbered};
use script::calls::{Call, Kind, Terms};
use script::lines::{self, Line};
use script::numbers::around;
use script::serials::Serial;
use script::{sums, words};
use std::io;

// The word of p, which changes with the number of buckets.
const P_AT: usize = 4;

// The buffers, and how many words, bytes of scratch and words of the room are lent from here on.
// Kept: what may not change, that a buffer keeps behind what is lent what earlier lines left there, so that no buffer is cut to its length.
#[derive(Drop)]
pub struct Desk<'a> {
    words: &'a mut [u32],
    scratch: &'a mut [u8],
    room: &'a mut [u32],
    words_len: usize,
    scratch_len: usize,
    room_len: usize,
}

// The first so many, or all that there are.
fn front<T>(items: &mut [T], n: usize) -> &mut [T] {
    let n = n.min(items.len());
    &mut items[..n]
}

// A serial's field: `_` is a zero byte, and what stands behind a `|` is sent but does not count.
fn serial_of(field: &[u8]) -> Serial {
    let (counted, behind) = lines::cut(field, b'|');
    let Serial { bytes, len } = Serial::new(counted, behind);
    Serial {
        bytes: bytes.map(|b| if b == b'_' { 0 } else { b }),
        len,
    }
}

impl<'a> Desk<'a> {
    pub fn new(words: &'a mut [u32], scratch: &'a mut [u8], room: &'a mut [u32]) -> Desk<'a> {
        Desk {
            words,
            scratch,
            room,
            words_len: 0,
            scratch_len: 0,
            room_len: 0,
        }
    }

    // One line, with its echo.
    pub fn turn(&mut self, rt: &impl Print, line: Line) -> io::Result<()> {
        self.lend(line);
        rt.write_all(line.bytes)?;
        match line.letter() {
            b'E' => self.one(rt, line, Kind::Enter)?,
            b'F' => self.one(rt, line, Kind::File)?,
            b'S' => self.one(rt, line, Kind::Show)?,
            b'W' => self.one(rt, line, Kind::Withdraw)?,
            b'e' => self.many(rt, line, Kind::Enter, Told::By64)?,
            b'f' => self.many(rt, line, Kind::File, Told::By64)?,
            b's' => self.many(rt, line, Kind::Show, Told::By64)?,
            b'w' => self.many(rt, line, Kind::Withdraw, Told::By64)?,
            b'g' => self.many(rt, line, Kind::Enter, Told::ByChange)?,
            b'c' => self.many(rt, line, Kind::Withdraw, Told::ByChange)?,
            b'A' => self.show_odd(rt)?,
            _ => self.do_words(rt, line)?,
        }
        rt.write_all(b"\n")
    }

    // What is lent from this line on.
    fn lend(&mut self, line: Line) {
        match line.letter() {
            b'O' => self.words_len = line.number(5) as usize,
            b'B' => self.scratch_len = line.number(1) as usize,
            b'R' => self.room_len = line.number(1) as usize,
            _ => {}
        }
    }

    // A line that reads or sets the words alone.
    fn do_words(&mut self, rt: &impl Print, line: Line) -> io::Result<()> {
        let words = front(self.words, self.words_len);
        let at = line.number(1);
        match line.letter() {
            b'O' => open(rt, line, words),
            b'P' => {
                words::set(words, at as usize, line.number(2));
                Ok(())
            }
            b'V' => {
                let word = words::word(words, at as usize);
                print!(rt; ": {word}")
            }
            b'K' => chains::put_chain(rt, words, at),
            _ => Ok(()),
        }
    }

    fn ask(&mut self, call: Call) -> Left {
        let words = front(self.words, self.words_len);
        let scratch = front(self.scratch, self.scratch_len);
        let room = front(self.room, self.room_len);
        asks::ask(words, scratch, room, call)
    }

    // A line of one call.
    fn one(&mut self, rt: &impl Print, line: Line, kind: Kind) -> io::Result<()> {
        let call = Call {
            kind,
            serial: serial_of(line.field(1)),
            day: line.number(2),
            code: line.number(3),
        };
        self.ask(call).tell(rt, kind)
    }

    // A line of many calls for numbered serials.
    fn many(&mut self, rt: &impl Print, line: Line, kind: Kind, told: Told) -> io::Result<()> {
        let count = line.number(1);
        let step = line.number(3);
        let mut n = line.number(2);
        let mut sum = 1;
        for k in 0..count {
            let p = self.word(P_AT);
            sum = self.ask(numbered::call(kind, n, k)).fold(sum);
            n = around::<1024>(n, step);
            let calls = k + 1;
            if calls == count || told.is_due(calls, self.word(P_AT) != p) {
                self.report(rt, calls, sum)?;
            }
        }
        Ok(())
    }

    // A word of what is lent; 0 past its end.
    fn word(&self, at: usize) -> u32 {
        let n = self.words_len.min(self.words.len());
        words::word(&self.words[..n], at)
    }

    // A line for the calls so far: maxp, p, cards and faults held, and the checksum.
    fn report(&self, rt: &impl Print, calls: u32, sum: u32) -> io::Result<()> {
        print!(rt; "\n{calls} calls:")?;
        for at in 3..7 {
            let word = self.word(at);
            print!(rt; " {word}")?;
        }
        print!(rt; " sum {sum}")
    }

    // Show for a serial of one byte, whatever it is, and for one of the greatest length.
    fn show_odd(&mut self, rt: &impl Print) -> io::Result<()> {
        rt.write_all(b": ")?;
        for byte in 0..=255u8 {
            self.show(rt, Serial::new(&[byte], &[]))?;
        }
        rt.write_all(b" ")?;
        self.show(
            rt,
            Serial {
                bytes: [55; 16],
                len: usize::MAX,
            },
        )
    }

    fn show(&mut self, rt: &impl Print, serial: Serial) -> io::Result<()> {
        let call = Call {
            kind: Kind::Show,
            serial,
            day: 0,
            code: 0,
        };
        rt.print(self.ask(call).answer.number)
    }
}

fn open(rt: &impl Print, line: Line, words: &mut [u32]) -> io::Result<()> {
    let number = Terms::of_line(line).open(words);
    print!(rt; ": {number} words {}", sums::of(words))
}
