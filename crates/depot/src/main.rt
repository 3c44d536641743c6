// The program: reads one job from standard input and writes its answers. What it writes is
// `reader::answer` of what it read.
//
// A read that fails is not the end of the input: what came before it may be a part of a line, so
// no line is run and nothing is answered. A program has no status of its own. It writes to
// standard error where something failed and nowhere else; the script `depot` gives the status by
// that.
#![tactic(auto)]

ghost use Rattle.std.specs.Prelude.{◌≡◌, ◌-◌, ◌≤◌, length, take};
ghost use Rattle.depot.specs.Reading.{step_of, Brings, Within};

use std::io;
use std::io::{Error, ErrorKind, Read, Write};

// What the answer of a read says: so many bytes came, or none since the input has ended; an error is no end.
fn brought(got: io::Result<usize>) -> io::Result<Option<usize>>
    ensures { result ≡ step_of got }
{
    match got? {
        0 => Ok(None),
        more => Ok(Some(more)),
    }
}

// One read into what is behind the first `len` bytes; those stay as they are. An interrupted read
// counts as a failed one.
fn read_on<R: Read>(input: &mut R, buf: &mut [u8], len: usize) -> io::Result<Option<usize>>
    requires { len ≤ length buf.old }
    ensures brings { Brings (length buf.old - len) result }
    ensures buf_unchanged { take len buf.new ≡ take len buf.old }
{
    let got = input.read(&mut buf[len..]);
    brought(got)
}

// Reads until the input ends, a read fails or the buffer is full: how many bytes stand at the front.
fn read_all<R: Read>(input: &mut R, buf: &mut [u8]) -> io::Result<usize>
    ensures { Within (length buf.new) result }
{
    let mut len = 0;
    // Kept: what may not change, that an interrupted read fails; std's `read_to_end` would read again, and wants a Vec.
    while len < buf.len() {
        let Some(more) = read_on(input, buf, len)? else {
            break;
        };
        len += more;
    }
    Ok(len)
}

// Writes all of the bytes, or stops at the first write that takes nothing or fails, as one that is
// interrupted.
fn write_all<W: Write>(output: &mut W, bytes: &[u8]) -> io::Result<()> {
    let mut rest = bytes;
    // Kept: what may not change, that an interrupted write fails; std's `write_all` would write again.
    while !rest.is_empty() {
        match output.write(rest)? {
            0 => return Err(Error::from(ErrorKind::WriteZero)),
            taken => rest = &rest[taken..],
        }
    }
    Ok(())
}

// Writes the answers of a job.
fn write_answers(rt: &HostRuntime, job: &[u8]) {
    let text = reader::answer(job);
    if write_all(&mut rt.stdout(), text.as_slice()).is_err() {
        say(rt, b"depot: the answers could not all be written\n");
    }
}

fn say(rt: &HostRuntime, text: &[u8]) {
    let _ = write_all(&mut rt.stderr(), text);
}

fn main(rt: HostRuntime) {
    let mut input = [0u8; reader::INPUT];
    match read_all(&mut rt.stdin(), &mut input) {
        Ok(len) => write_answers(&rt, &input[..len]),
        Err(_) => say(
            &rt,
            b"depot: the input could not be read to its end, so no line of it was run\n",
        ),
    }
}
