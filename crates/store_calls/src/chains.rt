// The serials of a bucket, read from the words.
ghost use Rattle.std.specs.Prelude.{◌<◌, ◌^◌};

use script::words::word;
use std::io;

// The serial in a card's cell, which begins at word 279 + 9 times its number: the bytes that are not zero.
fn put_serial(rt: &impl Print, words: &[u32], at: usize) -> io::Result<()>
    requires { at < 2 ^ 40 }
{
    rt.write_all(b" ")?;
    for part in at + 2..at + 6 {
        for byte in word(words, part).to_be_bytes() {
            if byte != 0 {
                rt.write_all(&[byte])?;
            }
        }
    }
    Ok(())
}

fn cell_at(cell: u32) -> usize
    ensures { result < 2 ^ 40 }
{
    279 + 9 * (cell as usize)
}

// As many cards at most as a store can have.
pub fn put_chain(rt: &impl Print, words: &[u32], bucket: u32) -> io::Result<()> {
    rt.write_all(b":")?;
    let mut cell = word(words, 32 + bucket as usize);
    for _ in 0..1024 {
        if cell == 0 {
            break;
        }
        put_serial(rt, words, cell_at(cell))?;
        cell = word(words, cell_at(cell));
    }
    Ok(())
}
