// The text of a report: a line for each code that has entries, codes rising, then the totals. Each text is put into any sink, so that one function
// counts it and writes it.
ghost use Rattle.std.specs.Prelude.{◌≡◌, ◌∷◌, ◌≤◌, length};
ghost use Rattle.model.specs.Serial.{most_code};
ghost use Rattle.model.specs.Report.{numbers_line, rate_line, total_lines};
ghost use Rattle.text.specs.Decimals.{Puts};
ghost use Rattle.store.specs.Leaves.{wrote_of};
ghost use Rattle.report.specs.Rows.{rows_long};
ghost use Rattle.report.specs.Texts.{row_line, row_lines, text_of, PutsReport};

use crate::rows::{MOST_CODE, ROWS, Row};
use crate::totals::Totals;
use store::Refusal;
use text::letters;
use text::sink::{self, Count, Sink, Writer};

// A line of numbers, a space before each but the first. Inlined: a writer's place then stands in a register from number to number.
#[inline(always)]
fn put_line<S: Sink>(sink: &mut S, first: u32, others: &[u32])
    requires { length (numbers_line (first ∷ others.now)) ≤ S.room sink.old }
    ensures { S.Takes sink.old (numbers_line (first ∷ others.now)) sink.new }
{
    sink.put_decimal(first);
    for &number in others {
        sink::put_marked(sink, letters::SPACE, number);
    }
    sink.put_byte(letters::LF);
}

// The line of a code, none where it has no entry.
fn put_row<S: Sink>(sink: &mut S, code: u32, row: Row)
    requires { length (row_line code row) ≤ S.room sink.old }
    ensures { S.Takes sink.old (row_line code row) sink.new }
{
    if row.entries != 0 {
        put_line(
            sink,
            code,
            &[row.entries, row.cards, row.earliest, row.latest],
        );
    }
}

// The lines of all codes.
fn put_rows<S: Sink>(sink: &mut S, rows: &[Row; ROWS])
    requires { length (row_lines rows.now 1 most_code) ≤ S.room sink.old }
    ensures { S.Takes sink.old (row_lines rows.now 1 most_code) sink.new }
{
    for code in 1..=MOST_CODE {
        put_row(sink, code as u32, rows[code]);
    }
}

// Entries per thousand cards, whole part and remainder; none with no cards.
fn put_rate<S: Sink>(sink: &mut S, t: Totals)
    requires { length (rate_line t.cards t.entries) ≤ S.room sink.old }
    ensures { S.Takes sink.old (rate_line t.cards t.entries) sink.new }
{
    if t.cards != 0 {
        let thousand = 1000 * t.entries;
        put_line(sink, thousand / t.cards, &[thousand % t.cards]);
    }
}

// All cards, all entries and the rate.
fn put_totals<S: Sink>(sink: &mut S, t: Totals)
    requires { length (total_lines t.cards t.entries) ≤ S.room sink.old }
    ensures { S.Takes sink.old (total_lines t.cards t.entries) sink.new }
{
    put_line(sink, t.cards, &[]);
    put_line(sink, t.entries, &[]);
    put_rate(sink, t);
}

// The whole text.
fn put_text<S: Sink>(sink: &mut S, rows: &[Row; ROWS], t: Totals)
    requires { length (text_of rows.now t) ≤ S.room sink.old }
    ensures { S.Takes sink.old (text_of rows.now t) sink.new }
{
    put_rows(sink, rows);
    put_totals(sink, t);
}

// Writes the whole text at the front of an output that has room for it, and gives its length.
fn write_text(out: &mut [u8], rows: &[Row; ROWS], t: Totals) -> usize
    requires { length (text_of rows.now t) ≤ length out.old }
    ensures { Puts out.old 0 (text_of rows.now t) result out.new }
{
    let mut writer = Writer { out, at: 0 };
    put_text(&mut writer, rows, t);
    writer.at
}

// The whole text at the front of the output, and its length; nothing where it does not fit.
pub fn put_report(out: &mut [u8], rows: &[Row; ROWS], t: Totals) -> Result<u32, Refusal>
    ensures { PutsReport (text_of rows.now t) out.old (wrote_of result) out.new }
{
    let mut count = Count { bytes: 0 };
    put_text(&mut count, rows, t);
    if out.len() < count.bytes {
        return Err(Refusal::ShortRoom);
    }
    Ok(write_text(out, rows, t) as u32)
}
