// The script: each line is done and told.
use crate::lays::Series;
use crate::reports::Steps;
use crate::{asks, lays, reports};
use script::calls::{Kind, Terms};
use script::lines::Line;
use script::words;
use std::io;

// The words of the run, the lengths in the list, where the store that joined last begins, the bytes of scratch and of output, and what
// these hold before a report.
#[derive(Clone, Copy)]
pub struct Desk {
    pub run: u32,
    pub listed: u32,
    pub last: u32,
    pub scratch: u32,
    pub out: u32,
    pub filled: Steps,
}

// The buffers, and what the desk says of them.
// Kept: what may not change, that a line `C` copies words that stand behind the run's end, so that the run is no slice of its own.
#[derive(Drop)]
pub struct Buffers<'a> {
    words: &'a mut [u32],
    lengths: &'a mut [u32],
    scratch: &'a mut [u8],
    out: &'a mut [u8],
    desk: Desk,
}

// The words of a store with such limits.
fn length_for(terms: Terms) -> u32 {
    288 + 9 * (terms.cards % 1025) + 3 * (terms.faults % 2049)
}

impl<'a> Buffers<'a> {
    pub fn new(
        words: &'a mut [u32],
        lengths: &'a mut [u32],
        scratch: &'a mut [u8],
        out: &'a mut [u8],
    ) -> Buffers<'a> {
        let desk = Desk {
            run: 0,
            listed: 0,
            last: 0,
            scratch: 0,
            out: 0,
            filled: Steps { from: 0, step: 0 },
        };
        Buffers {
            words,
            lengths,
            scratch,
            out,
            desk,
        }
    }

    // One line, with its echo.
    pub fn turn(&mut self, rt: &impl Print, line: Line) -> io::Result<()> {
        rt.write_all(line.bytes)?;
        self.lay(line);
        self.call(rt, line)?;
        rt.write_all(b"\n")
    }

    // A line that lays a run or sets what is lent; any other leaves it.
    fn lay(&mut self, line: Line) {
        match line.letter() {
            b'N' => self.new_run(),
            b'C' => self.copy(line),
            b'Z' => self.resize_run(line.number(1)),
            b'M' => self.resize_list(line.number(1)),
            b'P' => lays::patch(self.words, line.number(2), Series::of_line(line)),
            b'L' => words::set(self.lengths, line.number(1) as usize, line.number(2)),
            b'B' => self.desk.scratch = line.number(1),
            b'T' => self.desk.out = line.number(1),
            b'V' => {
                self.desk.filled = Steps {
                    from: line.number(1),
                    step: line.number(2),
                }
            }
            _ => {}
        }
    }

    // A line that calls; any other is only echoed.
    fn call(&mut self, rt: &impl Print, line: Line) -> io::Result<()> {
        match line.letter() {
            b'O' => self.open(rt, line),
            b'E' => self.one(rt, line, Kind::Enter),
            b'F' => self.one(rt, line, Kind::File),
            b'W' => self.one(rt, line, Kind::Withdraw),
            b'e' => self.many(rt, line, Kind::Enter),
            b'f' => self.many(rt, line, Kind::File),
            b'w' => self.many(rt, line, Kind::Withdraw),
            b'R' => self.report(rt),
            _ => Ok(()),
        }
    }

    fn new_run(&mut self) {
        self.desk.run = 0;
        self.desk.listed = 0;
        self.desk.last = 0;
    }

    // A store of so many words joins the run, and its length the list.
    fn join(&mut self, len: u32) {
        words::set(self.lengths, self.desk.listed as usize, len);
        self.desk.last = self.desk.run;
        self.desk.run = self.desk.run.wrapping_add(len);
        self.desk.listed = self.desk.listed.wrapping_add(1);
    }

    fn copy(&mut self, line: Line) {
        let len = line.number(2);
        lays::copy(self.words, line.number(1), self.desk.run, len);
        self.join(len);
    }

    fn resize_run(&mut self, n: u32) {
        lays::clear(self.words, self.desk.run, n);
        self.desk.run = n;
    }

    fn resize_list(&mut self, n: u32) {
        lays::clear(self.lengths, self.desk.listed, n);
        self.desk.listed = n;
    }

    fn open(&mut self, rt: &impl Print, line: Line) -> io::Result<()> {
        let terms = Terms::of_line(line);
        let len = length_for(terms);
        let words = lays::part(self.words, self.desk.run, self.desk.run.wrapping_add(len));
        let number = terms.open(words);
        self.join(len);
        print!(rt; ": {number}")
    }

    // Calls on the store that joined last.
    fn one(&mut self, rt: &impl Print, line: Line, kind: Kind) -> io::Result<()> {
        let words = lays::part(self.words, self.desk.last, self.desk.run);
        let number = asks::one(line, kind, words);
        print!(rt; ": {number}")
    }

    fn many(&mut self, rt: &impl Print, line: Line, kind: Kind) -> io::Result<()> {
        let words = lays::part(self.words, self.desk.last, self.desk.run);
        let done = asks::many(line, kind, words);
        print!(rt; ": {done}")
    }

    fn report(&mut self, rt: &impl Print) -> io::Result<()> {
        let words = lays::part(self.words, 0, self.desk.run);
        let lengths = lays::part(self.lengths, 0, self.desk.listed);
        let scratch = lays::part(self.scratch, 0, self.desk.scratch);
        let out = lays::part(self.out, 0, self.desk.out);
        reports::make(rt, words, lengths, scratch, out, self.desk.filled)
    }
}
