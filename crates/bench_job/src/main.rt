// The proved job behind the interface of host/bench/README.md: frames on standard input, a line of sums at the end.
#![tactic(auto)]

mod frames; // frames.rt: the frames of an input

use frames::{Frame, Frames};
use job::Tally;
use script::calls::Terms;
use script::input;
use script::serials::Serial;
use std::io;

// What the store is opened with.
const TERMS: Terms = Terms {
    cards: store::MOST_CARDS,
    faults: store::MOST_FAULTS,
    upper: 4,
    lower: 2,
};

#[derive(Clone, Copy)]
struct Sums {
    numbers: u64,
    lines: u64,
    bytes: u64,
}

impl Sums {
    // What a frame returned, added up.
    fn add(&mut self, number: u32, lines: u32, bytes: u64) {
        self.numbers = self.numbers.saturating_add(number as u64);
        self.lines = self.lines.saturating_add(lines as u64);
        self.bytes = self.bytes.saturating_add(bytes);
    }
}

// The number of a test of soundness.
fn check(words: &[u32], scratch: &mut [u8; store::NEED]) -> u32 {
    if store::check(words, scratch) { 0 } else { 3 }
}

// The store, what is lent to its calls, and what was counted.
#[derive(Drop)]
struct Bench<'a> {
    words: &'a mut [u32],
    scratch: &'a mut [u8; store::NEED],
    out: &'a mut [u8],
    room: &'a mut [u32],
    sums: Sums,
    tally: Tally,
}

impl<'a> Bench<'a> {
    // A job, its answers to standard output or nowhere.
    fn run_job(&mut self, rt: &impl Print, text: &[u8], written: bool) -> io::Result<()> {
        let words = &mut *self.words;
        let scratch = &mut *self.scratch;
        let out = &mut *self.out;
        let ran = job::work(words, scratch, text, out, self.tally);
        self.tally = ran.tally;
        let done = ran.done;
        if written {
            let n = (done.bytes as usize).min(self.out.len());
            rt.write_all(&self.out[..n])?;
        }
        self.sums.add(done.number, done.lines, done.bytes as u64);
        Ok(())
    }

    // A checked Show.
    fn run_show(&mut self, field: &[u8]) {
        let Serial { bytes, len } = Serial::new(field, &[]);
        let words = &mut *self.words;
        let scratch = &mut *self.scratch;
        let room = &mut *self.room;
        let answer = store::show(words, scratch, bytes, len, room);
        self.sums.add(answer.number, 1, 8 * (answer.faults as u64));
    }

    // A test of soundness.
    fn run_check(&mut self) {
        let words = &mut *self.words;
        let scratch = &mut *self.scratch;
        self.sums.add(check(words, scratch), 1, 0);
    }

    fn run_frame(&mut self, rt: &impl Print, frame: Frame) -> io::Result<()> {
        match frame {
            Frame::Open => {
                let number = TERMS.open(self.words);
                self.sums.add(number, 0, 0);
            }
            Frame::Job(text) => self.run_job(rt, text, false)?,
            Frame::Written(text) => self.run_job(rt, text, true)?,
            Frame::Show(field) => self.run_show(field),
            Frame::Check => self.run_check(),
            Frame::Repeat(_) | Frame::Other => {}
        }
        Ok(())
    }

    // Runs the frames up to a Repeat, whose number it gives, or to the end.
    fn run_frames(&mut self, rt: &impl Print, frames: &mut Frames) -> io::Result<Option<u32>> {
        for frame in frames {
            if let Frame::Repeat(turns) = frame {
                return Ok(Some(turns));
            }
            self.run_frame(rt, frame)?;
        }
        Ok(None)
    }

    fn run_input(&mut self, rt: &impl Print, input: &[u8]) -> io::Result<()> {
        let mut frames = Frames { rest: input };
        let turns = self.run_frames(rt, &mut frames)?.unwrap_or(0);
        for _ in 0..turns {
            let mut repeated = frames;
            self.run_frames(rt, &mut repeated)?;
        }
        Ok(())
    }

    fn print(&self, rt: &impl Print) -> io::Result<()> {
        let Sums {
            numbers,
            lines,
            bytes,
        } = self.sums;
        let Tally {
            entries,
            withdrawals,
            filings,
            splits,
            contractions,
            comparisons,
        } = self.tally;
        print!(rt; "sum {numbers} {lines} {bytes} {entries} {withdrawals} {filings}")?;
        println!(rt; " {splits} {contractions} {comparisons}")
    }
}

fn main(rt: HostRuntime) -> io::Result<()> {
    let mut input = [0u8; 262144];
    let n = input::read_full(&rt, &mut input)?;
    let mut words = [0u32; store::MOST_WORDS];
    let mut scratch = [0u8; store::NEED];
    let mut out = [0u8; 65536];
    let mut room = [0u32; 2 * store::MOST_FAULTS as usize];
    let mut bench = Bench {
        words: &mut words,
        scratch: &mut scratch,
        out: &mut out,
        room: &mut room,
        sums: Sums {
            numbers: 0,
            lines: 0,
            bytes: 0,
        },
        tally: Tally {
            entries: 0,
            withdrawals: 0,
            filings: 0,
            splits: 0,
            contractions: 0,
            comparisons: 0,
        },
    };
    bench.run_input(&rt, &input[..n])?;
    bench.print(&rt)
}
