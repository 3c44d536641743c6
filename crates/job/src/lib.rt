// The job: lines of text run against a store, their answers, and the tally.
#![tactic(auto)]

ghost use Rattle.std.specs.Prelude.{◌≡◌, true, ◌*◌, ◌≤◌, length};
ghost use Rattle.model.specs.Shape.{faults_ever};
ghost use Rattle.model.specs.Layout.{sound};
ghost use Rattle.model.specs.Job.{most_text};
ghost use Rattle.store.specs.Numbers.{number_of};
ghost use Rattle.job.specs.Runs.{lines_on, Ends, refused_ran, Did};
ghost use Rattle.job.specs.Counts.{tally_of};

pub mod answers; // answers.rt: answers as text
pub mod fields; // fields.rt: a line taken apart into its fields
mod letters; // letters.rt: the bytes of a line, by name
pub mod tally; // tally.rt: what a job counts
mod turn; // turn.rt: one line, from its bytes to its answer

use store::Refusal;
pub use tally::Tally;
use text::pieces::Lines;

// How a job ended: its number, 0 if all lines were answered, the lines done and the bytes written.
#[repr(C)]
#[derive(Clone, Copy, Debug, PartialEq, Eq)]
pub struct Done {
    pub number: u32,
    pub lines: u32,
    pub bytes: u32,
}

// The same with the tally after the job.
#[derive(Clone, Copy, Debug, PartialEq, Eq)]
pub struct Ran {
    pub done: Done,
    pub tally: Tally,
}

// The longest job, in bytes.
pub const MOST_TEXT: usize = 16384;

// The lines of a text on a store known to be sound, one turn a line, until one does not fit.
fn run_lines(words: &mut [u32], room: &mut [u32], text: &[u8], out: &mut [u8], tally: Tally) -> Ran
    requires { (sound words.old ≡ true) × (2 * faults_ever ≤ length room.old) × (length text.now ≤ most_text) }
    ensures { Ends (lines_on words.old text.now out.old (tally_of tally)) out.old result.done result.tally words.new out.new }
{
    let mut sum = tally;
    let mut lines: u32 = 0;
    let mut bytes: usize = 0;
    for line in Lines::new(text) {
        let Some(t) = turn::turn(words, room, line, out, bytes, sum) else {
            return Ran {
                done: Done {
                    number: Refusal::ShortRoom.into(),
                    lines,
                    bytes: bytes as u32,
                },
                tally: sum,
            };
        };
        sum = t.tally;
        bytes = t.end;
        lines += 1;
    }
    Ran {
        done: Done {
            number: 0,
            lines,
            bytes: bytes as u32,
        },
        tally: sum,
    }
}

// The lines, with room for the pairs of one answer.
fn run_with_room(words: &mut [u32], text: &[u8], out: &mut [u8], tally: Tally) -> Ran
    requires { (sound words.old ≡ true) × (length text.now ≤ most_text) }
    ensures { Ends (lines_on words.old text.now out.old (tally_of tally)) out.old result.done result.tally words.new out.new }
{
    let mut room = [0u32; turn::ROOM];
    run_lines(words, &mut room, text, out, tally)
}

// A job that is refused: no line is done, no byte written, and the tally stays.
fn refuse(refusal: Refusal, tally: Tally) -> Ran
    ensures { result ≡ refused_ran (number_of refusal) tally }
{
    Ran {
        done: Done {
            number: refusal.into(),
            lines: 0,
            bytes: 0,
        },
        tally,
    }
}

// The job, with the tally by value: 11 for the scratch, 13 for the text, 3 for the store, else its lines.
pub fn work(words: &mut [u32], scratch: &mut [u8], text: &[u8], out: &mut [u8], tally: Tally) -> Ran
    ensures { Did words.old scratch.old text.now out.old tally result.done result.tally words.new scratch.new out.new }
{
    let n = store::need(words);
    if scratch.len() < n {
        return refuse(Refusal::ShortScratch, tally);
    }
    if MOST_TEXT < text.len() {
        store::clear(scratch, n);
        return refuse(Refusal::LongText, tally);
    }
    if !store::check(words, scratch) {
        return refuse(Refusal::NotSound, tally);
    }
    run_with_room(words, text, out, tally)
}

// The job, with the tally lent by the caller: the one thin function over `work`.
pub fn run(
    words: &mut [u32],
    scratch: &mut [u8],
    text: &[u8],
    out: &mut [u8],
    tally: &mut Tally,
) -> Done
    ensures { Did words.old scratch.old text.now out.old tally.old result tally.new words.new scratch.new out.new }
{
    let r = work(words, scratch, text, out, *tally);
    *tally = r.tally;
    r.done
}
