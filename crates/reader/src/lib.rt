// One job on a store, and all that is written for it; the bench reader's is one on a fresh store.
#![tactic(auto)]

ghost use Rattle.std.specs.Prelude.{◌≡◌, ◌+◌, ◌≤◌, length, take};
ghost use Rattle.model.specs.Shape.{need};
ghost use Rattle.model.specs.Layout.{shape_of};
ghost use Rattle.model.specs.Job.{job};
ghost use Rattle.text.specs.Decimals.{Puts};
ghost use Rattle.reader.specs.Depot.{opened, whole_size, blank, nothing, closing, closing_line, job_on, depot_text, Ended, Writes, Answers};

use job::{Done, Tally, answers};
use store::Answer;
use text::letters::LF;
use text::sink::{Sink, Writer};

// The limits of the store, C and F, and its load bounds, U and L.
const CARDS: u32 = 256;

const FAULTS: u32 = 512;

const UPPER: u32 = 4;

const LOWER: u32 = 2;

// The words of a store with these limits: 288 + 9 C + 3 F.
const WORDS: usize = store::CARDS_AT
    + store::CARD_WIDTH * CARDS as usize
    + store::FAULT_WIDTH * FAULTS as usize;

// The most that is read: one byte past the longest job tells a full one from one that is too long.
pub const INPUT: usize = job::MOST_TEXT + 1;

// The bytes of the output that the job is lent.
const OUTPUT: usize = 16384;

// The bytes of the longest closing line: a number of two digits, three zeros with a space before each, LF.
const CLOSING: usize = 9;

// The most that is written.
pub const WHOLE: usize = OUTPUT + CLOSING;

// A fresh store.
fn fresh_store() -> [u32; WORDS]
    ensures { result ≡ opened }
{
    let mut words = [0u32; WORDS];
    store::open(&mut words, CARDS, FAULTS, UPPER, LOWER).unwrap();
    words
}

// One job on a store: how it ended, and its answers at the front of the output.
fn run_on(words: &mut [u32], input: &[u8], out: &mut [u8]) -> Done
    ensures { Ended (job words.old (blank (need (shape_of words.old))) input.now out.old nothing) result words.new out.new }
{
    let mut scratch = [0u8; store::NEED];
    let none = Tally::default();
    let ran = job::work(words, &mut scratch, input, out, none);
    ran.done
}

// The closing line of a job that stops: its number and three zeros.
fn put_closing<S: Sink>(sink: &mut S, number: u32)
    requires { length (closing_line number) ≤ S.room sink.old }
    ensures { S.Takes sink.old (closing_line number) sink.new }
{
    let answer = Answer {
        number,
        comparisons: 0,
        scanned: 0,
        faults: 0,
    };
    answers::put_numbers(sink, answer);
    sink.put_byte(LF);
}

// The same from `at` on; the place behind it.
fn put_closing_at(out: &mut [u8], at: usize, number: u32) -> usize
    requires { at + length (closing_line number) ≤ length out.old }
    ensures { Puts out.old at (closing_line number) result out.new }
{
    let mut line = Writer { out, at };
    put_closing(&mut line, number);
    line.at
}

// The closing line of a job that stops, behind what is written.
pub fn close(out: &mut [u8], at: usize, number: u32) -> usize
    requires { at + length (closing number) ≤ length out.old }
    ensures { Puts out.old at (closing number) result out.new }
{
    if number == 0 {
        return at;
    }
    put_closing_at(out, at, number)
}

// A job's number, and the length of all that is written for it.
#[derive(Clone, Copy, Debug, PartialEq, Eq)]
pub struct Answered {
    pub number: u32,
    pub len: usize,
}

// One job on a store: its answers in the front of the output, and its closing line behind them.
pub fn answer_on(words: &mut [u32], input: &[u8], out: &mut [u8]) -> Answered
    requires { length out.old ≡ whole_size }
    ensures { Answers (job_on words.old input.now) out.old result.number result.len words.new out.new }
{
    let done = run_on(words, input, &mut out[..OUTPUT]);
    let number = done.number;
    let len = close(out, done.bytes as usize, number);
    Answered { number, len }
}

// A text at the front of an array, and its length.
#[derive(Drop)]
pub struct Text {
    pub bytes: [u8; WHOLE],
    pub len: usize,
}

impl Text {
    // The text alone. A length past the array, which `answer` never gives, counts as all of it.
    pub fn as_slice(&self) -> &[u8]
        ensures { result.now ≡ take self.now.len self.now.bytes }
    {
        &self.bytes[..self.len.min(WHOLE)]
    }
}

// All that `depot` writes for an input.
pub fn answer(input: &[u8]) -> Text
    ensures { Writes (depot_text input.now) (blank whole_size) result.len result.bytes }
{
    let mut words = fresh_store();
    let mut bytes = [0u8; WHOLE];
    let answered = answer_on(&mut words, input, &mut bytes);
    let len = answered.len;
    Text { bytes, len }
}
