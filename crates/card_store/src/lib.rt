// The exports: the whole store for a C or Rust program, in one archive. Each function hands on to the one below it, under the same contract,
// and asks nothing of what it is lent; include/reader.h says what a caller has to keep.
#![tactic(auto)]

ghost use Rattle.std.specs.Prelude.{◌≡◌, []};
ghost use Rattle.rules.specs.Code.{code_of};
ghost use Rattle.rules.specs.Table.{address_of};
ghost use Rattle.model.specs.Calls.{open_call, asked};
ghost use Rattle.model.specs.Runs.{Act, outcome};
ghost use Rattle.model.specs.Job.{padded};
ghost use Rattle.model.specs.Report.{report_call};
ghost use Rattle.store.specs.Leaves.{Opens, Admits, Leaves};
ghost use Rattle.job.specs.Runs.{Did};
ghost use Rattle.report.specs.Reports.{Reports};

use job::{Done, Tally};
use store::{Answer, Wrote};

// The code of any bytes.
#[unsafe(no_mangle)]
pub extern "C" fn reader_code(bytes: &[u8]) -> u32
    ensures { result ≡ code_of bytes.now }
{
    rules::reader_code(bytes)
}

// The bucket of a code, or 4294967295 where (maxp, p) is no state of the table.
#[unsafe(no_mangle)]
pub extern "C" fn reader_address(code: u32, maxp: u32, p: u32) -> u32
    ensures { result ≡ address_of code maxp p }
{
    rules::reader_address(code, maxp, p)
}

// The bytes of a label as a serial travels: sixteen, the unused ones zero. Of more than sixteen the first sixteen.
#[unsafe(no_mangle)]
pub extern "C" fn reader_pad(label: &[u8], serial: &mut [u8; 16])
    ensures { serial.new ≡ padded label.now }
{
    *serial = job::fields::sixteen(label);
}

// Sets a fresh store.
#[unsafe(no_mangle)]
pub extern "C" fn reader_open(
    words: &mut [u32],
    cards: u32,
    faults: u32,
    upper: u32,
    lower: u32,
) -> u32
    ensures { Opens (open_call words.old (asked cards faults upper lower)) result words.new }
{
    store::number_of(store::open(words, cards, faults, upper, lower))
}

// What every call asks first: 11 for the scratch, 3 for words that are not those of a sound store, else 0.
#[unsafe(no_mangle)]
pub extern "C" fn reader_check(words: &[u32], scratch: &mut [u8]) -> u32
    ensures { Admits words.now scratch.old result scratch.new }
{
    store::number_of(store::admit(words, scratch))
}

// Enters a card.
#[unsafe(no_mangle)]
pub extern "C" fn reader_enter(
    words: &mut [u32],
    scratch: &mut [u8],
    serial: &[u8; 16],
    len: usize,
) -> Answer
    ensures { Leaves (outcome words.old scratch.old (Act.enter serial.now len)) result words.new [] scratch.new }
{
    store::enter(words, scratch, *serial, len)
}

// Files a fault against a card.
#[unsafe(no_mangle)]
pub extern "C" fn reader_file(
    words: &mut [u32],
    scratch: &mut [u8],
    serial: &[u8; 16],
    len: usize,
    day: u32,
    code: u32,
) -> Answer
    ensures { Leaves (outcome words.old scratch.old (Act.file serial.now len day code)) result words.new [] scratch.new }
{
    store::file(words, scratch, *serial, len, day, code)
}

// Lists the faults of a card in the room.
#[unsafe(no_mangle)]
pub extern "C" fn reader_show(
    words: &[u32],
    scratch: &mut [u8],
    serial: &[u8; 16],
    len: usize,
    room: &mut [u32],
) -> Answer
    ensures { Leaves (outcome words.now scratch.old (Act.show serial.now len room.old)) result words.now room.new scratch.new }
{
    store::show(words, scratch, *serial, len, room)
}

// Lists the faults of a card in the room and removes it.
#[unsafe(no_mangle)]
pub extern "C" fn reader_withdraw(
    words: &mut [u32],
    scratch: &mut [u8],
    serial: &[u8; 16],
    len: usize,
    room: &mut [u32],
) -> Answer
    ensures { Leaves (outcome words.old scratch.old (Act.withdraw serial.now len room.old)) result words.new room.new scratch.new }
{
    store::withdraw(words, scratch, *serial, len, room)
}

// Runs a job, with the tally lent by the caller.
#[unsafe(no_mangle)]
pub extern "C" fn reader_job(
    words: &mut [u32],
    scratch: &mut [u8],
    text: &[u8],
    out: &mut [u8],
    tally: &mut Tally,
) -> Done
    ensures { Did words.old scratch.old text.now out.old tally.old result tally.new words.new scratch.new out.new }
{
    let r = job::work(words, scratch, text, out, *tally);
    *tally = r.tally;
    r.done
}

// Faults by code over the stores of a run.
#[unsafe(no_mangle)]
pub extern "C" fn reader_report(
    words: &[u32],
    lengths: &[u32],
    scratch: &mut [u8],
    out: &mut [u8],
) -> Wrote
    ensures { Reports (report_call words.now lengths.now scratch.old out.old) result out.new scratch.new }
{
    report::report(words, lengths, scratch, out).into()
}
