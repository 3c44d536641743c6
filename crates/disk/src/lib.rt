// What `desk` makes of the bytes of a file.
#![tactic(auto)]

ghost use Rattle.std.specs.Prelude.{◌≡◌, ◌+◌, ◌*◌, length};
ghost use Rattle.reader.specs.Depot.{whole_size, job_on};
ghost use Rattle.disk.specs.Bytes.{words_of};
ghost use Rattle.disk.specs.Desk.{most_words, most_bytes, sized as Desk·sized, after, desk_job, Serves};

pub mod lasts; // lasts.rt: saved answers
pub mod looks; // looks.rt: what a file holds
pub mod names; // names.rt: the names beside a file's
pub mod opens; // opens.rt: a fresh store as a file
pub mod runs; // runs.rt: the report over several files
pub mod texts; // texts.rt: texts and lines of numbers
pub mod words; // words.rt: bytes to words and back

// The longest store, in words and in bytes.
const WORDS: usize = store::MOST_WORDS;

pub const BYTES: usize = 4 * WORDS;

// Of the bytes one more, which tells a file that is too long.
const FILE: usize = BYTES + 1;

// The bytes of the shortest store, and of a fault more.
const LEAST_BYTES: usize = 4 * (store::CARDS_AT + store::CARD_WIDTH + store::FAULT_WIDTH);

const FAULT_BYTES: usize = 4 * store::FAULT_WIDTH;

// Whether a store's file can have this length: from the shortest store to the longest each fault more is one.
pub fn sized(n: usize) -> bool
    ensures { result ≡ Desk·sized n }
{
    (LEAST_BYTES..=BYTES).contains(&n) && (n - LEAST_BYTES) % FAULT_BYTES == 0
}

// Room for so many elements. The `ensures` gives only the length, so that no proof counts the zeros.
// Kept: a rule of the project, fixed memory: docs/RULES.md, "The stack", has `desk` within its stack; so rooms are arrays, and a length beside them.
fn room<T: Copy + Default, const N: usize>() -> [T; N]
    ensures { N ≡ length result }
{
    [T::default(); N]
}

// Room for all that is written for a job.
pub fn output() -> [u8; reader::WHOLE]
    ensures { whole_size ≡ length result }
{
    room()
}

// Room for a file, and one byte more.
pub fn file_room() -> [u8; FILE]
    ensures { most_bytes + 1 ≡ length result }
{
    room()
}

// How a job ended, how long its text is, and whether the file has changed.
// Kept: a Result is no plainer: a job that has stopped has its number, and a text and a changed file all the same.
#[derive(Clone, Copy)]
pub struct Outcome {
    pub number: u32,
    pub len: usize,
    pub save: bool,
}

// A job on the bytes of a file, with room for its words.
fn serve_in(file: &mut [u8], words: &mut [u32], text: &[u8], out: &mut [u8]) -> Outcome
    requires { (length file.old ≡ 4 * length words.old) × (length out.old ≡ whole_size) }
    ensures { Serves (after (words_of file.old) (job_on (words_of file.old) text.now)) out.old result.number result.len result.save file.new out.new }
{
    words::read(file, words);
    let e = reader::answer_on(words, text, out);
    let save = words::differ(words, file);
    words::write(words, file);
    Outcome {
        number: e.number,
        len: e.len,
        save,
    }
}

// A job on a file: the file's bytes afterwards, all that is written, and whether the file has changed.
pub fn serve(file: &mut [u8], text: &[u8], out: &mut [u8]) -> Outcome
    requires { length out.old ≡ whole_size }
    ensures { Serves (desk_job file.old text.now) out.old result.number result.len result.save file.new out.new }
{
    if !sized(file.len()) {
        let mut none = [0u32; 1];
        let e = reader::answer_on(&mut none[..0], text, out);
        return Outcome {
            number: e.number,
            len: e.len,
            save: false,
        };
    }
    let k = file.len() / 4;
    let mut space: [u32; WORDS] = room();
    serve_in(file, &mut space[..k], text, out)
}
