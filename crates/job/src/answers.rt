// Answers as text, put into a sink: into an output that has room for them, or into a count.
ghost use Rattle.std.specs.Prelude.{◌≡◌, ◌+◌, ◌*◌, ◌≤◌, ◌<◌, length};
ghost use Rattle.model.specs.Job.{pair_text};
ghost use Rattle.text.specs.Decimals.{Puts};
ghost use Rattle.job.specs.Answers.{AnswerLong, pair_of, numbers_of, answer_of};

use super::letters::COLON;
use store::Answer;
use text::letters::{LF, SPACE};
use text::sink::{Count, Sink, Writer, put_marked};

// A fault: ` day:code`.
fn put_pair<S: Sink>(sink: &mut S, day: u32, code: u32)
    requires { length (pair_of day code) ≤ S.room sink.old }
    ensures { S.Takes sink.old (pair_of day code) sink.new }
{
    put_marked(sink, SPACE, day);
    put_marked(sink, COLON, code);
}

// The pairs of the first `count` faults that the room holds.
// Kept: what may not change, the clauses of `answer_len` and `put_answer`, which speak of a count and the room, so no slice of the room is passed.
pub fn put_pairs<S: Sink>(sink: &mut S, count: u32, room: &[u32])
    requires pairs { 2 * count ≤ length room.now }
    requires fits { length (pair_text count room.now) ≤ S.room sink.old }
    ensures { S.Takes sink.old (pair_text count room.now) sink.new }
{
    for pair in room[..2 * count as usize].chunks_exact(2) {
        put_pair(sink, pair[0], pair[1]);
    }
}

// Number, comparisons, scanned and faults, one space between.
pub fn put_numbers<S: Sink>(sink: &mut S, answer: Answer)
    requires { length (numbers_of answer.number answer.comparisons answer.scanned answer.faults) ≤ S.room sink.old }
    ensures { S.Takes sink.old (numbers_of answer.number answer.comparisons answer.scanned answer.faults) sink.new }
{
    sink.put_decimal(answer.number);
    put_marked(sink, SPACE, answer.comparisons);
    put_marked(sink, SPACE, answer.scanned);
    put_marked(sink, SPACE, answer.faults);
}

// An answer line: the four numbers, the pairs listed, LF.
fn put_line<S: Sink>(sink: &mut S, answer: Answer, count: u32, room: &[u32])
    requires pairs { 2 * count ≤ length room.now }
    requires fits { length (answer_of answer.number answer.comparisons answer.scanned answer.faults count room.now) ≤ S.room sink.old }
    ensures { S.Takes sink.old (answer_of answer.number answer.comparisons answer.scanned answer.faults count room.now) sink.new }
{
    put_numbers(sink, answer);
    put_pairs(sink, count, room);
    sink.put_byte(LF);
}

// The exact length of an answer line with its LF, before it is written.
pub fn answer_len(answer: Answer, count: u32, room: &[u32]) -> usize
    requires { 2 * count ≤ length room.now }
    ensures { AnswerLong (answer_of answer.number answer.comparisons answer.scanned answer.faults count room.now) count result }
{
    let mut long = Count { bytes: 0 };
    put_line(&mut long, answer, count, room);
    long.bytes
}

// The answer line from `at` on; the place behind it.
pub fn put_answer(out: &mut [u8], at: usize, answer: Answer, count: u32, room: &[u32]) -> usize
    requires pairs { 2 * count ≤ length room.now }
    requires fits { at + length (answer_of answer.number answer.comparisons answer.scanned answer.faults count room.now) ≤ length out.old }
    ensures { Puts out.old at (answer_of answer.number answer.comparisons answer.scanned answer.faults count room.now) result out.new }
{
    let mut line = Writer { out, at };
    put_line(&mut line, answer, count, room);
    line.at
}
