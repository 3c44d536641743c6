// Opens stores and damages them one word at a time, and prints what the checker says of each: 1 for sound, 0 for not.
// The second program prints the same lines (`reference soundness`).
#![tactic(auto)]

ghost use Rattle.std.specs.Prelude.{◌≡◌, ◌<◌, ◌≤◌, length};

use script::calls::{Call, Kind, Terms};
use script::serials::Serial;
use std::io;

// What the checker says of the words.
fn judge(rt: &impl Print, words: &[u32]) -> io::Result<()> {
    let mut scratch = [0u8; store::NEED];
    rt.print(u32::from(store::check(words, &mut scratch)))
}

// The same with another value in one word, which is put back.
fn judge_with(rt: &impl Print, words: &mut [u32], at: usize, value: u32) -> io::Result<()>
    requires { at < length words.old }
{
    let was = words[at];
    words[at] = value;
    let told = judge(rt, words);
    words[at] = was;
    told
}

// A line for one word: its place, its value, and the verdicts with 1 more, 1 less, 16 more in its highest byte, 0 to 6, and the highest value.
fn damage(rt: &impl Print, words: &mut [u32], at: usize) -> io::Result<()>
    requires { at < length words.old }
{
    let was = words[at];
    print!(rt; "{at} {was} ")?;
    judge_with(rt, words, at, was.wrapping_add(1))?;
    judge_with(rt, words, at, was.wrapping_sub(1))?;
    judge_with(rt, words, at, was.wrapping_add(0x1000_0000))?;
    for value in 0..7 {
        judge_with(rt, words, at, value)?;
    }
    judge_with(rt, words, at, u32::MAX)?;
    println!(rt; "")
}

// A line for each word from one place up to another.
fn damage_all(rt: &impl Print, words: &mut [u32], from: usize, to: usize) -> io::Result<()>
    requires { to ≤ length words.old }
{
    for at in from..to {
        damage(rt, words, at)?;
    }
    Ok(())
}

// Opens a store, and prints the limits, the bounds, the number and the verdict.
fn open_with(rt: &impl Print, words: &mut [u32], terms: Terms) -> io::Result<()> {
    let Terms {
        cards,
        faults,
        upper,
        lower,
    } = terms;
    let number = terms.open(words);
    print!(rt; "open {cards} {faults} {upper} {lower}: {number} ")?;
    judge(rt, words)?;
    println!(rt; "")
}

// The same with the bounds that most stores have.
fn open(rt: &impl Print, words: &mut [u32], cards: u32, faults: u32) -> io::Result<()> {
    let terms = Terms {
        cards,
        faults,
        upper: 4,
        lower: 2,
    };
    open_with(rt, words, terms)
}

// The same with other bounds, for one fault.
fn open_bounded(
    rt: &impl Print,
    words: &mut [u32],
    cards: u32,
    upper: u32,
    lower: u32,
) -> io::Result<()> {
    let terms = Terms {
        cards,
        faults: 1,
        upper,
        lower,
    };
    open_with(rt, words, terms)
}

// Open refuses limits and bounds out of range and a wrong length, the first that applies, and then sets a store. Every word of it is
// damaged.

fn refused(rt: &impl Print, words: &mut [u32]) -> io::Result<()> {
    for (cards, faults) in [(0, 1), (1, 0), (1025, 1), (1, 2049), (2, 1)] {
        open(rt, words, cards, faults)?;
    }
    for (upper, lower) in [(1, 1), (11, 5), (4, 0), (4, 3)] {
        open_bounded(rt, words, 1, upper, lower)?;
    }
    for (upper, lower) in [(4, 0x8000_0000), (4, u32::MAX), (u32::MAX, 2)] {
        open_bounded(rt, words, 1, upper, lower)?;
    }
    for cards in [0, 2] {
        open_bounded(rt, words, cards, 4, 3)?;
    }
    Ok(())
}

fn smallest(rt: &impl Print, words: &mut [u32; 300]) -> io::Result<()> {
    refused(rt, words)?;
    open(rt, words, 1, 1)?;
    damage_all(rt, words, 0, 300)
}

fn small(rt: &impl Print, words: &mut [u32; 321]) -> io::Result<()> {
    open(rt, words, 3, 2)?;
    damage_all(rt, words, 0, 321)
}

// All of the header and the directory, and some of each other part.
fn largest(rt: &impl Print, words: &mut [u32; 15648]) -> io::Result<()> {
    open(rt, words, 1024, 2048)?;
    damage_all(rt, words, 0, 48)?;
    damage_all(rt, words, 287, 306)?;
    damage_all(rt, words, 9495, 9510)?;
    damage_all(rt, words, 15642, 15648)
}

// The first words, as many as asked for.
fn lengths(rt: &impl Print, words: &mut [u32; 301]) -> io::Result<()> {
    open(rt, &mut words[..300], 1, 1)?;
    for n in [0, 15, 16, 287, 288, 299, 300, 301] {
        print!(rt; "length {n}: ")?;
        judge(rt, &words[..n])?;
        println!(rt; "")?;
    }
    Ok(())
}

// A store in use. Bucket 7 has `7` in cell 2, then `007` in cell 1, whose faults stand in cells 3 and 1; bucket 0 has `A-B` in
// cell 4, with a fault in cell 4. Card cells 5 and 3 are free, and fault cells 2 and 5.

// Cards and faults held, the first free cells, and the two buckets that are not empty.
const COUNTS: [(usize, u32); 6] = [(5, 3), (6, 3), (7, 5), (8, 2), (32, 4), (39, 2)];

// The cells of the cards: the next one, the length and the four words of the serial, the first fault, the last one, and how many.
const CARDS: [[u32; 9]; 5] = [
    [0, 3, 0x3030_3700, 0, 0, 0, 3, 1, 2],
    [1, 1, 0x3700_0000, 0, 0, 0, 0, 0, 0],
    [0, 0, 0, 0, 0, 0, 0, 0, 0],
    [0, 3, 0x412D_4200, 0, 0, 0, 4, 4, 1],
    [3, 0, 0, 0, 0, 0, 0, 0, 0],
];

// The cells of the faults: the next one, the day and the code.
const FAULTS: [[u32; 3]; 5] = [
    [0, 65535, 9999],
    [5, 0, 0],
    [1, 100, 12],
    [0, 1, 1],
    [0, 0, 0],
];

fn put_all(words: &mut [u32], values: &[(usize, u32)]) {
    for (at, value) in values {
        script::words::set(words, *at, *value);
    }
}

fn in_use(rt: &impl Print, words: &mut [u32; 348]) -> io::Result<()> {
    open(rt, words, 5, 5)?;
    put_all(words, &COUNTS);
    words[288..333].copy_from_slice(CARDS.as_flattened());
    words[333..].copy_from_slice(FAULTS.as_flattened());
    print!(rt; "in use: ")?;
    judge(rt, words)?;
    println!(rt; "")?;
    damage_all(rt, words, 0, 348)
}

// A store of 17 buckets with the fewest cards that they allow: cell i has a serial of one byte, `0` to `9` and `A` to `X`.

fn byte_of(cell: u32) -> u32
    requires { cell < 35 }
    ensures { result < 89 }
{
    if cell < 11 { cell + 47 } else { cell + 54 }
}

// The card behind it, whose code is 16 more; `@`, which is no card, stands between `0` and `P`.
fn behind(cell: u32) -> u32
    requires { cell < 35 }
{
    match cell {
        1 => 26,
        2..=10 => cell + 9,
        11..=18 => cell + 16,
        _ => 0,
    }
}

// The first card of a bucket. Bucket 0 has lost its cards to bucket 16.
fn head_of(bucket: u32) -> u32
    requires { bucket < 17 }
{
    match bucket {
        0 => 0,
        1..=9 => bucket + 1,
        10..=15 => bucket + 10,
        _ => 1,
    }
}

fn put_buckets(words: &mut [u32; 651]) {
    for bucket in 0..17 {
        words[32 + bucket as usize] = head_of(bucket);
    }
}

fn put_labels(words: &mut [u32; 651]) {
    for cell in 1..35 {
        let at = 279 + 9 * (cell as usize);
        words[at] = behind(cell);
        words[at + 1] = 1;
        words[at + 2] = byte_of(cell) * 0x0100_0000;
    }
}

// p, cards held, the first free card cell, and the directory word of the second segment.
const GROWTH: [(usize, u32); 4] = [(4, 1), (5, 34), (7, 35), (17, 48)];

fn grown(rt: &impl Print, words: &mut [u32; 651]) -> io::Result<()> {
    open(rt, words, 40, 1)?;
    put_all(words, &GROWTH);
    put_buckets(words);
    put_labels(words);
    print!(rt; "grown: ")?;
    judge(rt, words)?;
    println!(rt; "")?;
    damage_all(rt, words, 0, 54)?;
    damage_all(rt, words, 288, 315)
}

// Stores of other bounds, and one of format 1, with cards that calls have entered and withdrawn: serials of two letters.

fn letter(k: u32) -> u8 {
    b'A' + (k % 26) as u8
}

fn call(words: &mut [u32], kind: Kind, k: u32) {
    let mut scratch = [0u8; store::NEED];
    let mut room = [0u32; 2];
    let call = Call {
        kind,
        serial: Serial::new(&[letter(k / 26), letter(k)], &[]),
        day: 0,
        code: 0,
    };
    call.make(words, &mut scratch, &mut room);
}

fn call_all(words: &mut [u32], kind: Kind, count: u32) {
    for k in 0..count {
        call(words, kind, k);
    }
}

// A line for an upper bound: the verdicts with lower bounds 0 to 6 beside it, and the words else as they are.
fn judge_upper(rt: &impl Print, words: &mut [u32; 5691], upper: u32) -> io::Result<()>
    requires { upper < 12 }
{
    print!(rt; "upper {upper}: ")?;
    for lower in 0..7 {
        judge_with(rt, words, 14, 256 * upper + lower)?;
    }
    println!(rt; "")
}

// maxp, p, cards held and the verdict; then the header, the directory and the first bucket words damaged, and other bounds.
fn tell_loaded(rt: &impl Print, words: &mut [u32; 5691]) -> io::Result<()> {
    print!(rt; "loaded {} {} {}: ", words[3], words[4], words[5])?;
    judge(rt, words)?;
    println!(rt; "")?;
    damage_all(rt, words, 0, 34)?;
    for upper in 0..12 {
        judge_upper(rt, words, upper)?;
    }
    Ok(())
}

// 256 buckets with more cards than the upper bound allows.
fn over(rt: &impl Print, words: &mut [u32; 5691]) -> io::Result<()> {
    open_bounded(rt, words, 600, 2, 1)?;
    call_all(words, Kind::Enter, 515);
    tell_loaded(rt, words)
}

// 16 buckets with as many cards as the upper bound allows.
fn most(rt: &impl Print, words: &mut [u32; 5691]) -> io::Result<()> {
    open_bounded(rt, words, 600, 10, 5)?;
    call_all(words, Kind::Enter, 160);
    tell_loaded(rt, words)
}

// 17 buckets with the fewest cards that the lower bound allows.
fn fewest(rt: &impl Print, words: &mut [u32; 5691]) -> io::Result<()> {
    open_bounded(rt, words, 600, 10, 5)?;
    call_all(words, Kind::Enter, 161);
    call_all(words, Kind::Withdraw, 76);
    tell_loaded(rt, words)
}

fn first_format(rt: &impl Print, words: &mut [u32; 5691]) -> io::Result<()> {
    open(rt, words, 600, 1)?;
    words[0] = 1;
    words[14] = 0;
    call_all(words, Kind::Enter, 69);
    tell_loaded(rt, words)
}

fn loaded(rt: &impl Print, words: &mut [u32; 5691]) -> io::Result<()> {
    over(rt, words)?;
    most(rt, words)?;
    fewest(rt, words)?;
    first_format(rt, words)
}

// Whatever the words held before, here ones in every bit.
fn main(rt: HostRuntime) -> io::Result<()> {
    smallest(&rt, &mut [u32::MAX; 300])?;
    lengths(&rt, &mut [u32::MAX; 301])?;
    small(&rt, &mut [u32::MAX; 321])?;
    in_use(&rt, &mut [u32::MAX; 348])?;
    grown(&rt, &mut [u32::MAX; 651])?;
    largest(&rt, &mut [u32::MAX; 15648])?;
    loaded(&rt, &mut [u32::MAX; 5691])
}
