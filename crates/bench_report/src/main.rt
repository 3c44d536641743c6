// The proved report behind the interface of host/bench/README.md: words on standard input, a line of sums at the end.
#![tactic(auto)]

ghost use Rattle.std.specs.Prelude.{◌≤◌, length};

use script::input;
use std::io;
use store::Wrote;

// The head of the words: what is done with each group of stores, whether the last text is written, how many turns, how many stores a
// group has, and how many there are.
const HEAD: usize = 5;

// The kind that makes a second report, on stores known to be sound.
const TWICE: u32 = 2;

// What the reports returned, added up, and the length of the last text.
#[derive(Clone, Copy)]
struct Sums {
    numbers: u64,
    reports: u64,
    bytes: u64,
    last: u32,
}

impl Sums {
    // What a report returned, added up.
    fn add(&mut self, wrote: Wrote) {
        self.numbers = self.numbers.wrapping_add(wrote.number as u64);
        self.reports = self.reports.wrapping_add(1);
        self.bytes = self.bytes.wrapping_add(wrote.count as u64);
        self.last = wrote.count;
    }
}

// Reads whole words of four bytes, the lowest first, until the input or the room ends, and gives how many.
fn read_words(input: &[u8], words: &mut [u32]) -> usize
    ensures { result ≤ length words.new }
{
    for (word, bytes) in words.iter_mut().zip(input.chunks_exact(4)) {
        *word = u32::from_le_bytes([bytes[0], bytes[1], bytes[2], bytes[3]]);
    }
    words.len().min(input.len() / 4)
}

// The words of some stores.
fn sum_of(lengths: &[u32]) -> usize {
    lengths
        .iter()
        .fold(0usize, |sum, n| sum.wrapping_add(*n as usize))
}

// What is lent to the reports, and what they returned.
#[derive(Drop)]
struct Bench<'a> {
    twice: bool,
    scratch: &'a mut [u8; store::NEED],
    out: &'a mut [u8],
    sums: Sums,
}

impl<'a> Bench<'a> {
    // A report over a group with its tests of soundness; then, if it is not refused and the kind asks for it, one without.
    fn run_group(&mut self, run: &[u32], lengths: &[u32]) {
        let scratch = &mut *self.scratch;
        let out = &mut *self.out;
        let first = report::report(run, lengths, scratch, out);
        self.sums.add(first.into());
        if first.is_err() {
            return;
        }
        if self.twice {
            let out = &mut *self.out;
            let second = report::report_sound(run, lengths, out);
            self.sums.add(second.into());
        }
    }

    // Each group in turn.
    fn run_groups(&mut self, run: &[u32], lengths: &[u32], group: usize)
        requires { 1 ≤ group }
    {
        let mut left = run;
        for lengths in lengths.chunks(group) {
            let (stores, behind) = left.split_at(sum_of(lengths).min(left.len()));
            self.run_group(stores, lengths);
            left = behind;
        }
    }
}

// A sum over all bytes of a text, in which their order counts.
fn checksum(text: &[u8]) -> u32 {
    text.iter().fold(
        0u32,
        |sum, b| sum.wrapping_mul(3).wrapping_add(u32::from(*b)),
    )
}

// The last text, if it is asked for, and the sums.
fn print_all(rt: &impl Print, written: bool, sums: Sums, out: &[u8]) -> io::Result<()> {
    let text = &out[..(sums.last as usize).min(out.len())];
    if written {
        rt.write_all(text)?;
    }
    let Sums {
        numbers,
        reports,
        bytes,
        ..
    } = sums;
    println!(rt; "sum {numbers} {reports} {bytes} {}", checksum(text))
}

// One turn before all others, and so many more.
fn run_words(
    rt: &impl Print,
    words: &[u32],
    scratch: &mut [u8; store::NEED],
    out: &mut [u8],
) -> io::Result<()> {
    let Some((head, rest)) = words.split_first_chunk::<HEAD>() else {
        return Ok(());
    };
    let [kind, written, turns, group, stores] = *head;
    let Some((lengths, run)) = rest.split_at_checked(stores as usize) else {
        return Ok(());
    };
    if group < 1 {
        return Ok(());
    }
    let mut bench = Bench {
        twice: kind == TWICE,
        scratch,
        out,
        sums: Sums {
            numbers: 0,
            reports: 0,
            bytes: 0,
            last: 0,
        },
    };
    bench.run_groups(run, lengths, group as usize);
    for _ in 0..turns {
        bench.run_groups(run, lengths, group as usize);
    }
    print_all(rt, written != 0, bench.sums, bench.out)
}

fn run_input(
    rt: &impl Print,
    input: &[u8],
    words: &mut [u32],
    scratch: &mut [u8; store::NEED],
    out: &mut [u8],
) -> io::Result<()> {
    let n = read_words(input, words);
    run_words(rt, &words[..n], scratch, out)
}

fn main(rt: HostRuntime) -> io::Result<()> {
    let mut input = [0u8; 524288];
    let mut words = [0u32; 131072];
    let mut scratch = [0u8; store::NEED];
    let mut out = [0u8; 524288];
    let n = input::read_full(&rt, &mut input)?;
    run_input(&rt, &input[..n], &mut words, &mut scratch, &mut out)
}
