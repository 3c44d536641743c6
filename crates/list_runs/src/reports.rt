// One report, and what it left.
use script::sums;
use std::io;
use store::Wrote;

// The longest text that is printed, in bytes.
const SHORT: u32 = 160;

// Bytes from one on, by steps.
#[derive(Clone, Copy)]
pub struct Steps {
    pub from: u32,
    pub step: u32,
}

fn fill(bytes: &mut [u8], steps: Steps) {
    let step = (steps.step % 256) as u8;
    let mut next = (steps.from % 256) as u8;
    for byte in bytes {
        *byte = next;
        next = next.wrapping_add(step);
    }
}

// A text that is short.
fn put_text(rt: &impl Print, out: &[u8], count: u32) -> io::Result<()> {
    if (1..=SHORT).contains(&count) {
        rt.write_all(b"\n")?;
        rt.write_all(&out[..(count as usize).min(out.len())])?;
    }
    Ok(())
}

// What it gave and left, and its text.
fn tell(
    rt: &impl Print,
    words: &[u32],
    lengths: &[u32],
    scratch: &[u8],
    out: &[u8],
    wrote: Wrote,
) -> io::Result<()> {
    print!(rt; ": {} {}", wrote.number, wrote.count)?;
    print!(rt; " out {} scratch {}", sums::of(out), sums::of(scratch))?;
    print!(rt; " words {} lengths {}", sums::of(words), sums::of(lengths))?;
    put_text(rt, out, wrote.count)
}

// Scratch and output hold bytes from one on by steps, then the report is made.
pub fn make(
    rt: &impl Print,
    words: &[u32],
    lengths: &[u32],
    scratch: &mut [u8],
    out: &mut [u8],
    filled: Steps,
) -> io::Result<()> {
    fill(scratch, filled);
    fill(out, filled);
    let wrote = report::report(words, lengths, scratch, out).into();
    tell(rt, words, lengths, scratch, out, wrote)
}
